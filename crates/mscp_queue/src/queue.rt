// The queue of a disk controller: its waiting commands, its drives, and its picker.

ghost use Rattle.std.specs.Prelude.{◌≡◌, ◌+◌, ◌*◌, ◌<◌, ◌≤◌, All, length, find, option_map, remove, false, IfNone, IfSome};
ghost use Rattle.mscp_queue.specs.Common.{list_any, position, IsOfKind, is_online_in, figure_of_name, figures, IsAlone, IsWaitable, begun_name, place_begun, place_without, units_of, Line, aborting, fresh, pushed, name_on, order_weight, IsServing, aborted_record, has_name, name_of, record_at, is_begun, without, is_open_at, holders_of_name, is_nobody};

mod restoring;
mod stepping;

use crate::backlog::Backlog;
use crate::drive::{Drive, drive_of, drives_of, renew_drives};
use crate::favorites::Favorites;
use crate::name::Name;
use crate::outcome::aborted_end;
use crate::picker::Picker;
use crate::record::Record;
use crate::start::favor_last;
use crate::target::Target;
use crate::view::View;
use crate::why::{Holder, put_holders};
use arrayvec::ArrayVec;
use mscp_drive::{Connection, Units};
use mscp_packet::{Command, End, Order};
use std::marker::Model;
use std::mem::replace;

/// A command that is to wait, and how many steps it takes.
#[derive(Clone, Copy)]
pub struct Waiting {
    /// The connection that it came by, and that its end goes to.
    pub connection: Connection,
    /// Its reference number.
    pub reference: u32,
    /// The number of its unit.
    pub unit: u16,
    /// What it asks for.
    pub order: Order,
    /// How many steps it takes: one for each block of a transfer, and at least one.
    pub weight: u32,
}

/// The waiting commands of a disk controller, and who is served next. It takes no memory beside its own.
#[derive(Drop)]
pub struct Queue<K> {
    room: u32,
    longest: u32,
    backlog: Backlog,
    drives: ArrayVec<Drive, 16>,
    // The places of what was begun, and of the command in service: nobody looks for them.
    begun: Option<usize>,
    // It stands here, with its padding, so that each list is of whole words, and is cleared where it lies.
    picker: K,
    serving: Option<usize>,
    favorites: Favorites,
    // What the picker saw last, where some may not start. It is kept for its room alone, since a new one would have to
    // be cleared at each start.
    view: View,
}

// A clause sees the limits, the waiting commands in order of arrival, the drives in the order of their units, what was
// begun, and the picker.
impl<K> Model for Queue<K> {
    ghost use Rattle.mscp_queue.specs.Common.{Line, begun_name, IsPrepared};

    ghost Value = { Line K };

    ghost view = { λ q.
        record {
          room = q.room;
          budget = q.backlog.budget;
          longest = q.longest;
          waiting = q.backlog.waiting;
          drives = q.drives.items;
          begun = begun_name q.backlog.waiting q.begun;
          picker = q.picker;
        } };

    ghost invariant = { λ q.
        IsPrepared q.room q.longest q.backlog q.drives.items q.begun q.serving q.favorites };
}

/// A place that is known, once the command at the place `gone` left: none where it was that.
fn without_place(known: Option<usize>, gone: usize) -> Option<usize>
    ensures { result ≡ place_without known gone }
{
    match known {
        Some(place) if place < gone => Some(place),
        Some(place) if place > gone => Some(place - 1),
        _ => None,
    }
}

impl<K: Picker> Queue<K> {
    /// A queue to which nothing came so far: `room` commands may wait, each may be passed by `budget` blocks, and no
    /// transfer is longer than `longest` blocks. It is built into its caller: each call on the way would have room for
    /// a queue of its own on the stack.
    #[inline(always)]
    pub fn new(units: &Units, room: u32, budget: u32, longest: u32, picker: K) -> Queue<K>
        requires some_room { 1 ≤ room }
        requires few { room ≤ 63 }
        requires some_blocks { 1 ≤ longest }
        requires short { longest ≤ 8388608 }
        requires small { room * longest + budget ≤ 4294967295 }
        ensures { result ≡ fresh units.now room budget longest picker }
    {
        let drives = drives_of(units.list());
        Queue {
            room,
            longest,
            backlog: Backlog::new(budget),
            drives,
            begun: None,
            serving: None,
            picker,
            favorites: Favorites::new(),
            view: View::empty(),
        }
    }

    /// Forgets all that came to it: it is as new, with the same units, limits and picker.
    pub fn reset(&mut self)
        ensures { self.new
            ≡ fresh (units_of self.old.drives) self.old.room self.old.budget self.old.longest self.old.picker }
    {
        self.backlog.clear();
        self.favorites.clear();
        renew_drives(self.drives.as_mut_slice());
        self.begun = None;
        self.serving = None;
    }

    /// Lets this picker pick from now on, and gives back the one that picked. What was begun stays begun.
    pub fn replace_picker(&mut self, picker: K) -> K
        ensures before { result ≡ self.old.picker }
        ensures after { self.new ≡ record self.old { picker = picker } }
    {
        replace(&mut self.picker, picker)
    }

    /// How many commands wait.
    pub fn len(&self) -> u32
        ensures { result ≡ length self.now.waiting }
    {
        self.backlog.len() as u32
    }

    /// Whether a command of the connection with the reference number waits.
    pub fn contains(&self, connection: Connection, reference: u32) -> bool
        ensures { result ≡ list_any (has_name (name_on connection reference)) self.now.waiting }
    {
        let name = Name {
            connection,
            reference,
        };
        self.backlog.place_of(name).is_some()
    }

    /// The place of the waiting command of the connection with the reference number, in order of arrival, if it waits.
    /// No other has its name.
    pub fn place_of(&self, connection: Connection, reference: u32) -> Option<usize>
        ensures place { result ≡ position (has_name (name_on connection reference)) self.now.waiting }
        ensures others { IfSome result (λ place.
            remove self.now.waiting place ≡ without (name_on connection reference) self.now.waiting) }
    {
        let name = Name {
            connection,
            reference,
        };
        self.backlog.place_of(name)
    }

    /// Whether the unit of this number is online: false where it isn't configured.
    pub fn is_online(&self, unit: u16) -> bool
        ensures { result ≡ is_online_in self.now.drives unit }
    {
        drive_of(self.drives.as_slice(), unit).online
    }

    /// Lets a command wait, behind all that wait.
    pub fn push(&mut self, new: Waiting)
        requires room { length self.old.waiting < self.old.room }
        requires apart { list_any (has_name (name_on new.connection new.reference)) self.old.waiting ≡ false }
        requires weight { new.weight ≡ order_weight new.order }
        requires waitable { IsWaitable self.old.longest (units_of self.old.drives)
            (record { reference = new.reference; unit = new.unit; order = new.order }) }
        ensures { self.new ≡
            pushed self.old new.connection (record { reference = new.reference; unit = new.unit; order = new.order }) }
    {
        let command = Command {
            reference: new.reference,
            unit: new.unit,
            order: new.order,
        };
        let target = Target::of(&command, self.drives.as_slice());
        let record = Record::new(new.connection, command, new.weight);
        self.backlog.push(record, target);
        favor_last(&self.backlog, self.drives.as_slice(), &mut self.favorites);
    }

    /// The figure of the waiting command of the connection with the reference number, 0 if there is none: how many
    /// steps it may still wait, at most.
    pub fn figure(&self, connection: Connection, reference: u32) -> u32
        ensures { result ≡ figure_of_name self.now.budget self.now.waiting (name_on connection reference) }
    {
        let name = Name {
            connection,
            reference,
        };
        match self.backlog.place_of(name) {
            Some(place) => self.backlog.figure(place),
            None => 0,
        }
    }

    /// Connection, reference number and figure of each waiting command, in order of arrival.
    pub fn look(&self) -> ArrayVec<(Connection, u32, u32), 64>
        ensures { result.items ≡ figures self.now.budget self.now.waiting }
    {
        self.backlog.look()
    }

    /// Who keeps the waiting command of the connection with the reference number back, oldest first: nobody where none
    /// waits of it. While no other is in service it may start exactly if there is nobody.
    pub fn holders(&self, connection: Connection, reference: u32) -> ArrayVec<Holder, 64>
        ensures holders { result.items
            ≡ holders_of_name self.now.budget self.now.waiting (name_on connection reference) }
        ensures none { IfSome (position (has_name (name_on connection reference)) self.now.waiting) (λ place.
            is_nobody result.items ≡ is_open_at self.now.budget self.now.waiting place) }
    {
        let name = Name {
            connection,
            reference,
        };
        let mut holders = ArrayVec::new();
        if let Some(place) = self.backlog.place_of(name) {
            put_holders(&self.backlog, self.backlog.budget(), place, &mut holders);
        }
        holders
    }

    /// Connection and reference number of the command in service, if one is.
    pub fn serving(&self) -> Option<(Connection, u32)>
        ensures some { IfSome result (λ served. IsServing (name_on served.0 served.1) self.now.waiting) }
        ensures none { IfNone result (All (λ r. r.done ≡ 0) self.now.waiting) }
    {
        let place = self.serving?;
        let name = self.backlog.record(place).name();
        Some((name.connection, name.reference))
    }

    /// By how many blocks the oldest waiting command was passed, 0 where none waits. No other was passed by more.
    pub fn most_passed(&self) -> u32
        ensures oldest { result ≡ (record_at self.now.waiting 0).passed }
        ensures most { All (λ r. r.passed ≤ result) self.now.waiting }
    {
        if self.backlog.len() == 0 {
            return 0;
        }
        self.backlog.passed(0)
    }

    /// Ends the waiting command of the connection with the reference number, in service or not, and gives its end,
    /// whose body is that of its endcode. What its start cost the commands that it passed isn't given back to them.
    pub fn abort(&mut self, connection: Connection, reference: u32) -> Option<End>
        ensures end { result
            ≡ option_map aborted_record (find (has_name (name_on connection reference)) self.old.waiting) }
        ensures shaped { IfSome result IsOfKind }
        ensures after { self.new ≡ aborting (name_on connection reference) self.old }
        ensures unchanged { IfNone result (self.new ≡ self.old) }
        ensures count { IfSome result (λ end. length self.new.waiting + 1 ≡ length self.old.waiting) }
    {
        let name = Name {
            connection,
            reference,
        };
        let place = self.backlog.place_of(name)?;
        Some(self.abort_at(place))
    }

    /// Takes the command at the place out, and ends it. If it was begun, it is begun no more.
    fn abort_at(&mut self, place: usize) -> End
        requires { place < length self.old.waiting }
        ensures end { result ≡ aborted_record (record_at self.old.waiting place) }
        ensures shaped { IsOfKind result }
        ensures after { self.new ≡ aborting (name_of (record_at self.old.waiting place)) self.old }
        ensures count { length self.new.waiting + 1 ≡ length self.old.waiting }
    {
        let record = *self.backlog.record(place);
        let at = usize::from(self.backlog.target(place).drive);
        self.backlog.take_out(place);
        self.favorites.serve(place, at, self.drives.len(), true);
        self.begun = without_place(self.begun, place);
        self.serving = without_place(self.serving, place);
        aborted_end(&record.command(), record.done())
    }

    /// Whether the command of the connection with the reference number was begun, and neither served nor aborted since,
    /// nor the queue reset.
    pub fn is_begun(&self, connection: Connection, reference: u32) -> bool
        ensures { result ≡ is_begun (name_on connection reference) self.now.begun }
    {
        let name = Name {
            connection,
            reference,
        };
        match self.begun {
            Some(place) => self.backlog.record(place).has_name(name),
            None => false,
        }
    }

    /// The place of what was begun, in order of arrival, if something was. No other has its name.
    pub fn begun_place(&self) -> Option<usize>
        ensures place { result ≡ place_begun self.now.waiting self.now.begun }
        ensures named { begun_name self.now.waiting result ≡ self.now.begun }
        ensures inside { IfSome result (λ place. place < length self.now.waiting) }
        ensures alone { IfSome result (IsAlone self.now.waiting) }
    {
        self.begun
    }
}

#[cfg(test)]
mod tests;
