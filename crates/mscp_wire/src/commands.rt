// The commands that are outstanding, oldest first, and what is kept beside them so that each is found soon.
//
// Each stands in a cell. A command that leaves moves no other: its cell stays, empty, until a fifth of them are. Then
// the others move together. So each end moves a few commands, whichever it is of.

ghost use Rattle.std.specs.Prelude.{◌≡◌, ◌+◌, ◌-◌, ◌<◌, ◌^◌, ◌++◌, ◌∷◌, [], find, length, map, take, drop, position, set, false, true, Some, None, OnOk, IfOk, IfSome, IsSome};
ghost use Rattle.std.specs.List.{list_any, remove};
ghost use Rattle.mscp_wire.specs.Wire as wire;
ghost use Rattle.mscp_wire.specs.Kept as kept;
ghost use Rattle.mscp_wire.specs.Kept.{cell, place, place_if, sents};
ghost use Rattle.mscp_wire.specs.Sought.{is_sought};

mod closing;
mod leaving;
mod marking;
mod seeking;

use crate::answer::Answer;
use crate::cells::Cells;
use crate::held::{Sought, command_if, command_in, list_of, note, note_all, stands};
use crate::outstanding::is_apart;
use crate::polls::{asks_oldest, tell_all, tells};
use crate::sent::{Sent, is_ordered, is_sequential};
use crate::tallies::Tallies;
use crate::tally::{SLOTS, slot_of};
use mscp_drive::{Connection, OutOfMemory};
use std::alloc::{AllocError, Allocator};
use std::marker::Model;

/// So many cells may be empty, beside a quarter of those that aren't.
const EMPTY: usize = 64;

/// The commands that are outstanding, oldest first.
#[derive(Drop)]
pub struct Commands<A: Allocator> {
    cells: Cells<A>,
    /// Of each number of names the cell in which the last one may stand that has it.
    last: Vec<u32, A>,
    tallies: Tallies<A>,
}

// A clause sees the cells.
impl<A: Allocator> Model for Commands<A> {
    ghost use Rattle.std.specs.Prelude.{List, Option};
    ghost use Rattle.mscp_wire.specs.declared.sent.Sent.{Sent};
    ghost use Rattle.mscp_wire.specs.Kept.{IsKept, sents};

    ghost Value = { List (Option Sent) };

    ghost view = { λ c. c.cells };

    ghost invariant = { λ c. IsKept (sents c.cells) c.tallies };
}

impl<A: Allocator + Copy> Commands<A> {
    /// None.
    pub fn new(alloc: A) -> Commands<A>
        ensures { result ≡ [] }
    {
        Commands {
            cells: Cells::new(alloc),
            last: Vec::new(alloc),
            tallies: Tallies::none(alloc),
        }
    }

    /// How many. There are no more than cells, so it is small.
    pub fn len(&self) -> usize
        ensures { result ≡ length (sents self.now) }
    {
        self.tallies
            .first
            .saturating_add(self.tallies.second)
            .min(self.cells.len())
    }

    /// The one in a cell.
    pub fn at(&self, at: usize) -> Sent
        requires { IsSome (cell self.now at) }
        ensures { result ≡ wire.command_at (sents self.now) (place self.now at) }
    {
        command_in(self.cells.as_slice(), at).unwrap()
    }

    /// The same, if there is one.
    pub(crate) fn command_if(&self, at: Option<usize>) -> Option<Sent>
        requires { IfSome at (λ i. IsSome (cell self.now i)) }
        ensures { result ≡ wire.command_at_place (sents self.now) (place_if self.now at) }
    {
        command_if(self.cells.as_slice(), at)
    }

    /// How many are of a connection.
    pub fn count_on(&self, connection: Connection) -> usize
        ensures count { result ≡ wire.count_on connection (sents self.now) }
        ensures bound { result < 2 ^ 63 }
    {
        let count = match connection {
            Connection::First => self.tallies.first,
            Connection::Second => self.tallies.second,
        };
        count.min(self.cells.len())
    }

    /// Whether one of them has this reference number on this connection.
    pub(crate) fn has_named(&self, connection: Connection, reference: u32) -> bool
        ensures { result ≡ list_any (wire.is_named connection reference) (sents self.now) }
    {
        if self.tallies.names.at(slot_of(connection, reference)) == 0 {
            return false;
        }
        self.has(&Sought::Named(connection, reference))
    }

    /// A cell, if the command that is sought stands there.
    fn guessed(&self, at: Option<u32>, sought: &Sought) -> Option<usize>
        ensures there { IfSome result (λ i. IsSome (cell self.now i)) }
        ensures sought { IfSome result (λ i. is_sought sought.now
            (wire.command_at (sents self.now) (place self.now i)) ≡ true) }
    {
        let at = at? as usize;
        let cells = self.cells.as_slice();
        if at < cells.len() && stands(&cells[at], sought) {
            Some(at)
        } else {
            None
        }
    }

    /// The cell in which the first stands that has this reference number on this connection, if one does.
    fn cell_named(&self, connection: Connection, reference: u32) -> Option<usize>
        ensures place { place_if self.now result ≡ position (wire.is_named connection reference) (sents self.now) }
        ensures there { IfSome result (λ i. IsSome (cell self.now i)) }
    {
        let slot = slot_of(connection, reference);
        let count = self.tallies.names.at(slot);
        if count == 0 {
            return None;
        }
        if count == 1 {
            let sought = Sought::Named(connection, reference);
            if let Some(at) = self.guessed(self.last.get(slot).copied(), &sought) {
                return Some(at);
            }
        }
        self.first(&Sought::Named(connection, reference))
    }

    /// The cell in which the command that an end answers stands, if it does.
    pub(crate) fn cell_of(&self, answer: &Answer) -> Option<usize>
        ensures place { place_if self.now result ≡ wire.place_of (sents self.now) answer.now }
        ensures there { IfSome result (λ i. IsSome (cell self.now i)) }
    {
        self.cell_named(answer.connection, answer.reference)
    }

    /// The first that has this reference number on this connection, if one does.
    #[tactic(auto, using(crate::proofs::Names::found_at))]
    pub fn find_named(&self, connection: Connection, reference: u32) -> Option<Sent>
        ensures { result ≡ find (wire.is_named connection reference) (sents self.now) }
    {
        let at = self.cell_named(connection, reference);
        self.command_if(at)
    }

    /// Whether it is soon seen that none keeps the command in a cell back: if that is alone in its unit's line, or if
    /// none there is sequential.
    fn stands_free(&self, at: usize, command: &Sent) -> bool
        requires full { IsSome (cell self.now at) }
        requires there { command.now ≡ wire.command_at (sents self.now) (place self.now at) }
        ensures { result ≡ true → list_any (wire.keeps_back command.now)
            (take (place self.now at) (sents self.now)) ≡ false }
    {
        let slot = slot_of(command.connection, u32::from(command.unit));
        if is_sequential(command.opcode) {
            return self.tallies.lines.at(slot) == 1;
        }
        !is_ordered(command.opcode) || self.tallies.fences.at(slot) == 0
    }

    /// Whether the command in a cell passes none of the earlier ones that it has to wait for.
    pub fn passes_none(&self, at: usize, command: &Sent, answer: &Answer) -> bool
        requires full { IsSome (cell self.now at) }
        requires there { command.now ≡ wire.command_at (sents self.now) (place self.now at) }
        ensures { result ≡ wire.passes_none (take (place self.now at) (sents self.now)) command.now answer.now }
    {
        is_apart(answer.status_code())
            || self.stands_free(at, command)
            || !self.has_before(at, &Sought::Keeping(*command))
    }

    /// Whether an AVAILABLE or an ONLINE of a unit is outstanding.
    pub(crate) fn has_turning(&self, connection: Connection, unit: u16) -> bool
        ensures { result ≡ list_any (wire.is_turning connection unit) (sents self.now) }
    {
        if self.tallies.fences.at(slot_of(connection, u32::from(unit))) == 0 {
            return false;
        }
        self.has(&Sought::Turning(connection, unit))
    }

    /// Begins to count, if no command is outstanding and nothing was counted so far.
    fn begin(&mut self) -> Result<(), AllocError>
        ensures { self.new ≡ self.old }
    {
        if self.len() > 0 || !self.tallies.names.is_unknown() {
            return Ok(());
        }
        self.tallies.begin()?;
        self.last.resize(SLOTS, 0)?;
        Ok(())
    }

    /// No cell is empty.
    fn close_up(&mut self)
        ensures { sents self.new ≡ sents self.old }
    {
        self.cells.close_up();
        note_all(self.cells.as_slice(), &mut self.last);
    }

    /// Few cells are empty.
    fn make_room(&mut self)
        ensures { sents self.new ≡ sents self.old }
    {
        if self.cells.len() / 5 > self.len().saturating_add(EMPTY) / 4 {
            self.close_up();
        }
    }

    /// One more came.
    ///
    /// # Errors
    ///
    /// `AllocError` if memory runs out.
    pub fn push(&mut self, command: Sent) -> Result<(), AllocError>
        ensures { OnOk result (sents self.new ≡ sents self.old ++ command ∷ []) }
    {
        self.begin()?;
        self.make_room();
        let at = self.cells.len();
        self.cells.push(command)?;
        self.tallies.add(&command);
        note(&mut self.last, &command, at);
        Ok(())
    }

    /// The one in a cell isn't outstanding any more.
    fn remove(&mut self, at: usize) -> Sent
        requires { IsSome (cell self.old at) }
        ensures gone { result ≡ wire.command_at (sents self.old) (place self.old at) }
        ensures others { sents self.new ≡ remove (sents self.old) (place self.old at) }
        ensures cells { self.new ≡ set self.old at None }
    {
        let sent = self.at(at);
        self.cells.put(at, None);
        self.tallies.subtract(&sent);
        sent
    }

    /// No command stands in a cell.
    fn empty(&mut self, at: usize)
        requires { at < length self.old }
        ensures cells { length self.new ≡ length self.old }
        ensures empty { cell self.new at ≡ None }
    {
        if self.cells.as_slice()[at].is_some() {
            self.remove(at);
        }
    }

    /// One cell less, the last.
    fn pop(&mut self)
        requires { 0 < length self.old }
        ensures { length self.new + 1 ≡ length self.old }
    {
        let last = self.cells.len() - 1;
        self.empty(last);
        self.cells.truncate(last);
    }

    /// No more.
    pub fn clear(&mut self)
        ensures { self.new ≡ [] }
    {
        for _ in 0..self.cells.len() {
            self.pop();
        }
    }

    /// The list of them.
    pub(crate) fn into_list(self, alloc: A) -> Result<Vec<Sent, A>, OutOfMemory>
        ensures { IfOk result (λ list. list.items ≡ sents self) }
    {
        Ok(list_of(alloc, self.cells.as_slice())?)
    }

    /// Those of a name are told this figure by a poll of this time.
    fn tell(&mut self, name: (Connection, u32), figure: Option<u32>, time: Option<u64>)
        ensures { sents self.new ≡ map (kept.tells name.0 name.1 figure time) (sents self.old) }
    {
        let slot = slot_of(name.0, name.1);
        let count = self.tallies.names.at(slot);
        if count == 0 {
            return;
        }
        if count == 1 {
            let sought = Sought::Named(name.0, name.1);
            if let Some(at) = self.guessed(self.last.get(slot).copied(), &sought) {
                let command = self.at(at);
                self.cells
                    .put(at, Some(tells(name, figure, time, &command)));
                return;
            }
        }
        tell_all(&mut self.cells, name, figure, time);
    }

    /// They hear of figures by the end of a command.
    fn hear(&mut self, ended: &Sent, answer: &Answer)
        ensures { sents self.new ≡ map (kept.heard ended.now answer.now) (sents self.old) }
    {
        self.leave(ended);
        if !asks_oldest(ended.asked) {
            return;
        }
        if let Some(other) = answer.polled_by(ended) {
            self.tell((answer.connection, other), answer.figure, ended.time);
        }
    }

    /// The end of the one in a cell came: the others hear it.
    pub fn take(&mut self, at: usize, answer: &Answer)
        requires { IsSome (cell self.old at) }
        ensures { sents self.new ≡ wire.after_end (sents self.old) answer.now (Some (place self.old at)) }
    {
        let ended = self.remove(at);
        self.hear(&ended, answer);
        self.mark(&ended);
    }
}
