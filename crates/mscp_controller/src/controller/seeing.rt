// What callers see of a controller.

ghost use Rattle.std.specs.Prelude.{◌≡◌, ◌+◌, ◌≤◌, All, length, remove, IfNone, IfSome};
ghost use Rattle.mscp_controller.specs.Common.{is_online_in, figure_of_name, figures, IsOfUnit, name_on, IsServing, has_name, record_at, is_open_at, holders_of_name, is_nobody, position, of, credits_of, IsBalanced, balance_of, begun_step, waiting_on, without};

use crate::controller::Controller;
use arrayvec::ArrayVec;
use mscp_drive::Connection;
use mscp_queue::{Holder, Picker, Upcoming};

impl<K: Picker> Controller<K> {
    /// How many credits of the connection are free: each of its waiting commands and of its untaken ends holds one
    /// (manual, "Flow Control").
    pub fn balance(&self, connection: Connection) -> u32
        ensures value { result ≡ balance_of connection self.now }
        ensures account { result + length (waiting_on connection self.now.waiting)
            + length (of connection self.now.untaken) ≡ credits_of self.now.settings connection }
        ensures accounts { IsBalanced self.now }
    {
        let held = self.accounts.held(connection);
        self.config.credits_of(connection).saturating_sub(held)
    }

    /// How many commands of the connection wait.
    pub fn waiting(&self, connection: Connection) -> u32
        ensures value { result ≡ length (waiting_on connection self.now.waiting) }
        ensures account { IsBalanced self.now }
    {
        self.accounts.waiting(connection)
    }

    /// How many ends of the connection weren't taken.
    pub fn untaken(&self, connection: Connection) -> u32
        ensures value { result ≡ length (of connection self.now.untaken) }
        ensures account { IsBalanced self.now }
    {
        self.accounts.untaken(connection)
    }

    /// Whether the unit of this number is online: false where it isn't configured.
    pub fn is_online(&self, unit: u16) -> bool
        ensures value { result ≡ is_online_in self.now.drives unit }
        ensures account { IsBalanced self.now }
    {
        self.queue.is_online(unit)
    }

    /// The figure of the waiting command of the connection with the reference number, 0 if there is none: how many
    /// steps it may still wait, at most.
    pub fn figure(&self, connection: Connection, reference: u32) -> u32
        ensures value { result
            ≡ figure_of_name self.now.settings.budget self.now.waiting (name_on connection reference) }
        ensures account { IsBalanced self.now }
    {
        self.queue.figure(connection, reference)
    }

    /// The place of the waiting command of the connection with the reference number, in order of arrival, if it waits.
    /// No other has its name.
    pub fn place_of(&self, connection: Connection, reference: u32) -> Option<usize>
        ensures place { result ≡ position (has_name (name_on connection reference)) self.now.waiting }
        ensures others { IfSome result (λ place.
            remove self.now.waiting place ≡ without (name_on connection reference) self.now.waiting) }
    {
        self.queue.place_of(connection, reference)
    }

    /// Who keeps the waiting command of the connection with the reference number back, oldest first: nobody where none
    /// waits of it. While no other is in service it may start exactly if there is nobody.
    pub fn holders(&self, connection: Connection, reference: u32) -> ArrayVec<Holder, 64>
        ensures holders { result.items
            ≡ holders_of_name self.now.settings.budget self.now.waiting (name_on connection reference) }
        ensures none { IfSome (position (has_name (name_on connection reference)) self.now.waiting) (λ place.
            is_nobody result.items ≡ is_open_at self.now.settings.budget self.now.waiting place) }
        ensures account { IsBalanced self.now }
    {
        self.queue.holders(connection, reference)
    }

    /// Connection and reference number of the command in service, if one is.
    pub fn serving(&self) -> Option<(Connection, u32)>
        ensures some { IfSome result (λ served. IsServing (name_on served.0 served.1) self.now.waiting) }
        ensures none { IfNone result (All (λ r. r.done ≡ 0) self.now.waiting) }
        ensures account { IsBalanced self.now }
    {
        self.queue.serving()
    }

    /// What the last `begin` told, if what it began is begun still: no step, no reset and no ABORT of that command came
    /// since. Its unit is one of the settings, and the block that the step touches, if it touches one, is a block of
    /// that.
    pub fn upcoming(&self) -> Option<Upcoming>
        ensures value { result ≡ begun_step self.now }
        ensures unit { IfSome result (λ u. IsOfUnit self.now.settings.units u) }
        ensures account { IsBalanced self.now }
    {
        self.queue.upcoming()
    }

    /// By how many blocks the oldest waiting command was passed, 0 where none waits. No other was passed by more.
    pub fn most_passed(&self) -> u32
        ensures oldest { result ≡ (record_at self.now.waiting 0).passed }
        ensures most { All (λ r. r.passed ≤ result) self.now.waiting }
        ensures account { IsBalanced self.now }
    {
        self.queue.most_passed()
    }

    /// Connection, reference number and figure of each waiting command, oldest first.
    pub fn look(&self) -> ArrayVec<(Connection, u32, u32), 64>
        ensures value { result.items ≡ figures self.now.settings.budget self.now.waiting }
        ensures account { IsBalanced self.now }
    {
        self.queue.look()
    }
}
