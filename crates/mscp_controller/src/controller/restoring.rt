// A controller as it was, and what is to be kept of one so that it can be again.

ghost use Rattle.std.specs.Prelude.{◌≡◌, ◌<◌, ◌≤◌, length, IfSome};
ghost use Rattle.mscp_controller.specs.Common.{IsAlone, record_at, begun_name, place_begun, of, IsSound, made_of};

use crate::controller::Controller;
use arrayvec::ArrayVec;
use mscp_drive::Connection;
use mscp_packet::End;
use mscp_queue::{Drive, Name, Picker, Record};

impl<K: Picker> Controller<K> {
    /// These commands wait from now on, and these ends of each connection weren't taken, all oldest first; the drives
    /// are these, and the command of this name is begun, if one is named. What was there before is forgotten, but for
    /// the settings and the picker. What history it has then is nobody's to say: that of one of which all this was
    /// kept.
    pub fn restore(
        &mut self,
        waiting: &[Record],
        first: ArrayVec<End, 64>,
        second: ArrayVec<End, 64>,
        drives: ArrayVec<Drive, 16>,
        begun: Option<Name>,
    )
        requires sound { IsSound (made_of self.old.settings waiting.now first.items second.items drives.items begun
            self.old.picker) }
        ensures { self.new ≡ made_of self.old.settings waiting.now first.items second.items drives.items begun
            self.old.picker }
    {
        self.queue.restore(waiting, drives, begun);
        self.accounts
            .restore(waiting, first.as_slice(), second.as_slice());
    }

    /// How many commands wait, of both connections.
    pub fn len(&self) -> usize
        ensures { result ≡ length self.now.waiting }
    {
        self.queue.len() as usize
    }

    /// The record of the waiting command at the place, in order of arrival.
    pub fn record(&self, place: usize) -> Record
        requires { place < length self.now.waiting }
        ensures { result ≡ record_at self.now.waiting place }
    {
        self.queue.record(place)
    }

    /// The ends of the connection that weren't taken, oldest first.
    pub fn ends(&self, connection: Connection) -> &[End]
        ensures value { result.now ≡ of connection self.now.untaken }
        ensures few { length result.now ≤ 64 }
    {
        self.accounts.ends(connection)
    }

    /// The drives, in the order of their units. With what else is seen of the controller they are what one can be made
    /// of again.
    pub fn drives(&self) -> &[Drive]
        ensures value { result.now ≡ self.now.drives }
        ensures sound { IsSound self.now }
    {
        self.queue.drives()
    }

    /// The name of what was begun, if something was.
    pub fn begun(&self) -> Option<Name>
        ensures { result ≡ self.now.begun }
    {
        self.queue.begun()
    }

    /// The place of what was begun, in order of arrival, if something was. No other has its name.
    pub fn begun_place(&self) -> Option<usize>
        ensures place { result ≡ place_begun self.now.waiting self.now.begun }
        ensures named { begun_name self.now.waiting result ≡ self.now.begun }
        ensures inside { IfSome result (λ place. place < length self.now.waiting) }
        ensures alone { IfSome result (IsAlone self.now.waiting) }
    {
        self.queue.begun_place()
    }

    /// Who picks.
    pub fn picker(&self) -> &K
        ensures { result.now ≡ self.now.picker }
    {
        self.queue.picker()
    }
}
