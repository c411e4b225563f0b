// A controller, the cookies of its commands and ends, and how many beginnings it told.

ghost use Rattle.std.specs.Prelude.{◌≡◌, length, remove, IfErr, IfSome, None, Some};
ghost use Rattle.mscp_tracked.specs.Common.{Begins, BeginsAnew, Command, Finishes, IsAlone, IsCommand, IsTracked, Serves, after_message_with, after_take, answer_to_message, beginning, beginning_of, end_taken, has_serial, is_begun, name_on, new_after, number_aborted, oldest_end, of, place_aborted, place_begun, unaborted};

use crate::cookies::CookieLists;
use arrayvec::ArrayVec;
use mscp_controller::{
    Block, Config, Connection, Controller, NotBegun, Picker, Report, SendFault, Sent, Upcoming,
};
use mscp_packet::{Command, End, Order, read_command};
use std::marker::Model;

/// A step that is begun: what it serves, its serial, and the cookie of its command. No two beginnings of a controller
/// have one serial, while they are fewer than 2^64.
#[derive(Clone, Copy)]
pub struct Beginning {
    pub upcoming: Upcoming,
    pub serial: u64,
    pub cookie: u64,
}

/// What a step reported, and the cookie of the command that it served: 0 where nothing waits.
#[derive(Clone, Copy)]
pub struct Finished {
    pub report: Report,
    pub cookie: u64,
}

/// An end as bytes, and the cookie of its command.
#[derive(Drop)]
pub struct Taken {
    pub end: ArrayVec<u8, 48>,
    pub cookie: u64,
}

/// An end, and the cookie of its command.
#[derive(Clone, Copy)]
pub struct Ended {
    pub end: End,
    pub cookie: u64,
}

/// A controller that tells of each command the 64 bits that its holder gave with its message, its cookie, and of each
/// beginning of a block a serial, the next of a count.
#[derive(Drop)]
pub struct Tracked<K> {
    controller: Controller<K>,
    cookies: CookieLists,
    beginnings: u64,
}

// A clause sees the controller, the cookies, and the serial given last.
impl<K> Model for Tracked<K> {
    ghost use Rattle.mscp_tracked.specs.Trackings.{IsTracked, Tracking};

    ghost Value = { Tracking K };

    ghost view = { λ t. record { controller = t.controller; cookies = t.cookies; beginnings = t.beginnings } };

    ghost invariant = { λ t. IsTracked t.controller t.cookies };
}

/// The opcode byte of an ABORT.
const ABORT: u8 = 1;

/// The number of the command that a message aborts, if it is an ABORT.
fn number_aborted(b: &[u8]) -> Option<u32>
    ensures { (command : Command) → IsCommand b.now command → result ≡ number_aborted command.order }
{
    // Few messages are, and the others are read only once.
    if b.len() < 12 || b[8] != ABORT {
        return None;
    }
    match read_command(b) {
        Ok(command) => number_in(&command.order),
        Err(_) => None,
    }
}

/// The number of the command that an order names to be aborted, if it is an ABORT.
fn number_in(order: &Order) -> Option<u32>
    ensures { result ≡ number_aborted order.now }
{
    match order {
        Order::Abort(other) => Some(*other),
        _ => None,
    }
}

impl<K: Picker> Tracked<K> {
    /// One to which nothing came so far. It is built into its caller: each call on the way would have room for a
    /// controller of its own on the stack.
    #[inline(always)]
    pub fn new(config: Config, picker: K) -> Tracked<K>
        ensures { result ≡ new_after 0 config picker }
    {
        Tracked {
            controller: Controller::new(config, picker),
            cookies: CookieLists::new(),
            beginnings: 0,
        }
    }

    /// This controller with these cookies: of its waiting commands in order of arrival, and of each connection's ends
    /// that weren't taken, oldest first. The serial given last is this.
    #[inline(always)]
    pub fn resumed(
        controller: Controller<K>,
        waiting: ArrayVec<u64, 64>,
        first: ArrayVec<u64, 64>,
        second: ArrayVec<u64, 64>,
        beginnings: u64,
    ) -> Tracked<K>
        requires waiting { length waiting.items ≡ length controller.waiting }
        requires first { length first.items ≡ length controller.untaken.first }
        requires second { length second.items ≡ length controller.untaken.second }
        ensures { result ≡ record {
          controller = controller;
          cookies = record {
            waiting = waiting.items;
            untaken = record { first = first.items; second = second.items };
          };
          beginnings = beginnings;
        } }
    {
        // What is true of each controller is known where these are asked.
        let _ = controller.config();
        let _ = controller.drives();
        Tracked {
            controller,
            cookies: CookieLists::of(waiting, first, second),
            beginnings,
        }
    }

    /// Forgets all that came to it, as a reset of its port makes it: it is as new, with the same settings and picker.
    /// Its serials go on.
    pub fn reset(&mut self)
        ensures { self.new ≡ new_after self.old.beginnings self.old.controller.settings self.old.controller.picker }
    {
        self.controller.reset();
        self.cookies.clear();
    }

    /// Lets this picker pick from now on, and gives back the one that picked. What was begun stays begun.
    pub fn replace_picker(&mut self, picker: K) -> K
        ensures before { result ≡ self.old.controller.picker }
        ensures after { self.new
            ≡ record self.old { controller = record self.old.controller { picker = picker } } }
    {
        self.controller.replace_picker(picker)
    }

    /// The controller, with all that it tells.
    pub fn controller(&self) -> &Controller<K>
        ensures { result.now ≡ self.now.controller }
    {
        &self.controller
    }

    /// The cookies of the waiting commands, in the order in which the controller's `look` tells these.
    pub fn cookies(&self) -> &[u64]
        ensures value { result.now ≡ self.now.cookies.waiting }
        ensures tracked { IsTracked self.now.controller self.now.cookies }
    {
        self.cookies.waiting()
    }

    /// The cookies of the connection's ends that weren't taken, oldest first.
    pub fn untaken_cookies(&self, connection: Connection) -> &[u64]
        ensures { result.now ≡ of connection self.now.cookies.untaken }
    {
        self.cookies.untaken(connection)
    }

    /// The serial of the last beginning, 0 where none was told.
    pub fn beginnings(&self) -> u64
        ensures { result ≡ self.now.beginnings }
    {
        self.beginnings
    }

    /// The place of the command that a message of the connection aborts, if it is an ABORT of one that waits.
    fn place_aborted(&self, connection: Connection, b: &[u8]) -> Option<usize>
        ensures place { (command : Command) → IsCommand b.now command
            → result ≡ place_aborted connection self.now.controller.waiting command.order }
        ensures others { (command : Command) → IsCommand b.now command → IfSome result (λ place.
            remove self.now.controller.waiting place
            ≡ unaborted connection self.now.controller.waiting command.order) }
    {
        self.controller.place_of(connection, number_aborted(b)?)
    }

    /// Takes a message of the connection's host in, whose command has this cookie.
    ///
    /// # Errors
    ///
    /// Those of `Controller::send`; then nothing changes.
    pub fn send_with(
        &mut self,
        connection: Connection,
        b: &[u8],
        cookie: u64,
    ) -> Result<Sent, SendFault>
        ensures answer { result ≡ answer_to_message connection self.old.controller b.now }
        ensures after { self.new ≡ after_message_with connection self.old b.now cookie }
        ensures unchanged { IfErr result (λ fault. self.new ≡ self.old) }
    {
        let place = self.place_aborted(connection, b);
        let sent = self.controller.send(connection, b)?;
        self.cookies.send(connection, sent, place, cookie);
        Ok(sent)
    }

    /// Takes a message in whose command has cookie 0.
    ///
    /// # Errors
    ///
    /// Those of `Controller::send`; then nothing changes.
    pub fn send(&mut self, connection: Connection, b: &[u8]) -> Result<Sent, SendFault>
        ensures answer { result ≡ answer_to_message connection self.old.controller b.now }
        ensures after { self.new ≡ after_message_with connection self.old b.now 0 }
        ensures unchanged { IfErr result (λ fault. self.new ≡ self.old) }
    {
        self.send_with(connection, b, 0)
    }

    /// The oldest end of the connection that wasn't taken, if there is one: it stays.
    pub fn oldest_end(&self, connection: Connection) -> Option<Ended>
        ensures { result ≡ oldest_end connection self.now }
    {
        let end = *self.controller.ends(connection).first()?;
        Some(Ended {
            end,
            cookie: self.cookies.oldest(connection),
        })
    }

    /// Takes the oldest end of the connection that wasn't taken, as bytes, if there is one.
    pub fn take(&mut self, connection: Connection) -> Option<Taken>
        ensures answer { result ≡ end_taken connection self.old }
        ensures after { self.new ≡ after_take connection self.old }
    {
        let cookie = self.cookies.oldest(connection);
        let end = self.controller.take(connection)?;
        self.cookies.take(connection);
        Some(Taken { end, cookie })
    }

    /// What is told of a step that is begun.
    fn beginning_of(&self, upcoming: Upcoming) -> Beginning
        ensures { result ≡ beginning_of self.now upcoming }
    {
        Beginning {
            upcoming,
            serial: self.beginnings,
            cookie: self.cookies.at(self.controller.begun_place()),
        }
    }

    /// What is begun still, if something is.
    pub fn begun(&self) -> Option<Beginning>
        ensures { result ≡ beginning self.now }
    {
        let upcoming = self.controller.upcoming()?;
        Some(self.beginning_of(upcoming))
    }

    /// What the next step serves, if a command waits, with the serial of this beginning. Where something is begun it
    /// tells that again, and changes nothing. Else something is begun, as a controller does it, and gets the next
    /// serial.
    pub fn begin(&mut self) -> Option<Beginning>
        ensures { Begins (K.picks self.old.controller.picker) self.old result self.new }
    {
        if self.controller.begun_place().is_none() {
            self.begin_anew()
        } else {
            self.begun()
        }
    }

    /// Begins something where nothing is begun.
    fn begin_anew(&mut self) -> Option<Beginning>
        requires { self.old.controller.begun ≡ None }
        ensures told { result ≡ beginning self.new }
        ensures anew { BeginsAnew (K.picks self.old.controller.picker) self.old result self.new }
    {
        let upcoming = self.controller.begin()?;
        self.beginnings = self.beginnings.wrapping_add(1);
        Some(self.beginning_of(upcoming))
    }

    /// Serves a block, with this outcome, to what is begun, which is at the place.
    fn serve(&mut self, place: usize, block: Block) -> Finished
        requires place { place_begun self.old.controller.waiting self.old.controller.begun ≡ Some place }
        requires alone { IsAlone self.old.controller.waiting place }
        ensures { Serves (K.picks self.old.controller.picker) block self.old result self.new }
    {
        let cookie = self.cookies.at(Some(place));
        let report = self.controller.step(block);
        self.cookies.report(place, &report);
        Finished { report, cookie }
    }

    /// The step of the beginning of this serial, if that is begun still: its block had this outcome. If it isn't, since
    /// it was served, aborted or reset, nothing changes, and the block counts for nothing.
    ///
    /// # Errors
    ///
    /// `NotBegun` if nothing is begun, or something of another serial.
    pub fn finish_begun(&mut self, serial: u64, block: Block) -> Result<Finished, NotBegun>
        ensures { Finishes (K.picks self.old.controller.picker) (has_serial serial self.old) block
            self.old result self.new }
    {
        match self.controller.begun_place() {
            Some(place) if self.beginnings == serial => Ok(self.serve(place, block)),
            _ => Err(NotBegun),
        }
    }

    /// Whether the connection's command with this reference number is begun.
    fn is_begun(&self, connection: Connection, reference: u32) -> bool
        ensures { result ≡ is_begun (name_on connection reference) self.now.controller.begun }
    {
        match self.controller.begun() {
            Some(name) => name.connection == connection && name.reference == reference,
            None => false,
        }
    }

    /// The step of the connection's command with this reference number, if it is begun, as `Controller::finish`: for
    /// who does one thing at a time. Whose finishes may come late finishes by serial.
    ///
    /// # Errors
    ///
    /// `NotBegun` if no command of this connection and reference number is begun.
    pub fn finish(
        &mut self,
        connection: Connection,
        reference: u32,
        block: Block,
    ) -> Result<Finished, NotBegun>
        ensures { Finishes (K.picks self.old.controller.picker)
            (is_begun (name_on connection reference) self.old.controller.begun) block self.old result self.new }
    {
        match self.controller.begun_place() {
            Some(place) if self.is_begun(connection, reference) => Ok(self.serve(place, block)),
            _ => Err(NotBegun),
        }
    }

    /// Serves one block, with this outcome, if a command waits: to what is begun, or else to what a begin would begin.
    /// No serial is given.
    pub fn step(&mut self, block: Block) -> Finished
        ensures { Serves (K.picks self.old.controller.picker) block self.old result self.new }
    {
        match self.controller.begun_place() {
            Some(place) => self.serve(place, block),
            None => self.step_anew(block),
        }
    }

    /// Serves one block, with this outcome, where nothing is begun.
    fn step_anew(&mut self, block: Block) -> Finished
        requires { self.old.controller.begun ≡ None }
        ensures { Serves (K.picks self.old.controller.picker) block self.old result self.new }
    {
        let _ = self.controller.begin();
        match self.controller.begun_place() {
            Some(place) => self.serve(place, block),
            None => Finished {
                report: Report::Idle,
                cookie: 0,
            },
        }
    }
}
