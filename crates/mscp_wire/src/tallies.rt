// How many of the commands that are outstanding there are of each kind.

ghost use Rattle.std.specs.Prelude.{◌≡◌, ◌+◌, ◌<◌, ◌≤◌, ◌^◌, ◌++◌, ◌∷◌, ℕ, List, [], cond, length, set, true, IfSome};
ghost use Rattle.std.specs.List.{remove};
ghost use Rattle.mscp_wire.specs.Wire.{command_at, left};
ghost use Rattle.mscp_wire.specs.Kept as kept;
ghost use Rattle.mscp_wire.specs.declared.sent.Sent as sents;

use crate::polls::left;
use crate::sent::{Asked, Sent, is_ordered, is_sequential};
use crate::tally::{Tally, slot_of};
use mscp_drive::Connection;
use mscp_packet::opcodes;
use std::alloc::{AllocError, Allocator};

/// How many commands are outstanding of each kind.
#[derive(Drop)]
pub struct Tallies<A: Allocator> {
    /// By their names.
    pub names: Tally<A>,
    /// By their units, of those that are sequential.
    pub fences: Tally<A>,
    /// By their units, of those that are sequential or have their place beside such.
    pub lines: Tally<A>,
    /// Polls that ask something, by the names of the commands that they are about.
    pub asked: Tally<A>,
    /// GET UNIT STATUS by their units, but for those that ask for the next unit, and those whose unit may have had two
    /// states since they came.
    pub statuses: Tally<A>,
    /// Those of the next unit by their connections.
    pub nexts: Tally<A>,
    /// Of each connection.
    pub first: usize,
    pub second: usize,
}

/// By which number a command's name is counted.
fn by_name(command: &Sent) -> Option<usize>
    ensures { result ≡ kept.by_name command.now }
{
    Some(slot_of(command.connection, command.reference))
}

/// By which number a sequential command's unit is counted.
fn by_fence(command: &Sent) -> Option<usize>
    ensures { result ≡ kept.by_fence command.now }
{
    if is_sequential(command.opcode) {
        Some(slot_of(command.connection, u32::from(command.unit)))
    } else {
        None
    }
}

/// The same of one that is sequential or has its place beside such.
fn by_line(command: &Sent) -> Option<usize>
    ensures { result ≡ kept.by_line command.now }
{
    if is_sequential(command.opcode) || is_ordered(command.opcode) {
        Some(slot_of(command.connection, u32::from(command.unit)))
    } else {
        None
    }
}

/// Whether a poll asks something.
fn asks(asked: Asked) -> bool
    ensures { result ≡ kept.asks asked }
{
    !matches!(asked, Asked::Nothing)
}

/// By which number the name of the command is counted that this one is about, if it is a poll that asks something.
fn by_asked(command: &Sent) -> Option<usize>
    ensures { result ≡ kept.by_asked command.now }
{
    match command.parameter {
        Some(other) if command.opcode == opcodes::GET_COMMAND_STATUS && asks(command.asked) => {
            Some(slot_of(command.connection, other))
        }
        _ => None,
    }
}

/// By which number the unit of a GET UNIT STATUS is counted, if that had one state so far.
fn by_status(command: &Sent) -> Option<usize>
    ensures { result ≡ kept.by_status command.now }
{
    if command.opcode == opcodes::GET_UNIT_STATUS && !command.next && !command.beside {
        Some(slot_of(command.connection, u32::from(command.unit)))
    } else {
        None
    }
}

/// The same of one that asks for the next unit.
fn by_next(command: &Sent) -> Option<usize>
    ensures { result ≡ kept.by_next command.now }
{
    if command.opcode == opcodes::GET_UNIT_STATUS && command.next && !command.beside {
        Some(slot_of(command.connection, 0))
    } else {
        None
    }
}

/// Whether a command is of a connection.
pub(crate) fn is_on(connection: Connection, command: &Sent) -> bool
    ensures { result ≡ kept.is_on connection command.now }
{
    command.connection == connection
}

/// A number, or one more if that is said.
fn one_more(count: usize, does: bool) -> usize
    requires { count < 2 ^ 63 }
    ensures { result ≡ count + cond does 1 0 }
{
    if does { count + 1 } else { count }
}

/// A number, or one less if that is said.
fn one_less(count: usize, does: bool) -> usize
    requires { cond does 1 0 ≤ count }
    ensures { result + cond does 1 0 ≡ count }
{
    if does { count - 1 } else { count }
}

impl<A: Allocator + Copy> Tallies<A> {
    /// Of no command: there are none on either connection.
    pub(crate) fn none(alloc: A) -> Tallies<A>
        ensures { kept.IsKept [] result }
    {
        Tallies {
            names: Tally::unknown(alloc),
            fences: Tally::unknown(alloc),
            lines: Tally::unknown(alloc),
            asked: Tally::unknown(alloc),
            statuses: Tally::unknown(alloc),
            nexts: Tally::unknown(alloc),
            first: 0,
            second: 0,
        }
    }

    /// The same, with each count known, unless memory is refused.
    pub(crate) fn begin(&mut self) -> Result<(), AllocError>
        ensures { kept.IsKept [] self.old → kept.IsKept [] self.new }
    {
        self.names.begin()?;
        self.fences.begin()?;
        self.lines.begin()?;
        self.asked.begin()?;
        self.statuses.begin()?;
        self.nexts.begin()?;
        Ok(())
    }

    /// One more came.
    pub(crate) fn add(&mut self, command: &Sent)
        requires { kept.IsFew self.old }
        ensures { (xs : List sents.Sent) → kept.IsKept xs self.old
            → kept.IsKept (xs ++ command.now ∷ []) self.new }
    {
        self.names.add(by_name(command));
        self.fences.add(by_fence(command));
        self.lines.add(by_line(command));
        self.asked.add(by_asked(command));
        self.statuses.add(by_status(command));
        self.nexts.add(by_next(command));
        self.first = one_more(self.first, is_on(Connection::First, command));
        self.second = one_more(self.second, is_on(Connection::Second, command));
    }

    /// One isn't outstanding any more.
    pub(crate) fn subtract(&mut self, command: &Sent)
        requires { kept.IsCounted command.now self.old }
        ensures { (xs : List sents.Sent) (i : ℕ) → i < length xs → command.now ≡ command_at xs i
            → kept.IsKept xs self.old → kept.IsKept (remove xs i) self.new }
    {
        self.names.subtract(by_name(command));
        self.fences.subtract(by_fence(command));
        self.lines.subtract(by_line(command));
        self.asked.subtract(by_asked(command));
        self.statuses.subtract(by_status(command));
        self.nexts.subtract(by_next(command));
        self.first = one_less(self.first, is_on(Connection::First, command));
        self.second = one_less(self.second, is_on(Connection::Second, command));
    }

    /// Whether it is soon seen that no GET UNIT STATUS is outstanding of this unit or of whichever is next, whose unit
    /// had one state so far.
    pub(crate) fn has_no_status(&self, connection: Connection, unit: u16) -> bool
        ensures { result ≡ kept.has_none connection unit self.now }
    {
        self.statuses.at(slot_of(connection, u32::from(unit))) == 0
            && self.nexts.at(slot_of(connection, 0)) == 0
    }

    /// The unit of one may have had two states since it came.
    pub(crate) fn mark(&mut self, command: &Sent)
        ensures { (xs : List sents.Sent) (i : ℕ) → i < length xs → command.now ≡ command_at xs i
            → kept.IsKept xs self.old → kept.IsKept (set xs i (record command.now { beside = true })) self.new }
    {
        self.statuses.subtract(by_status(command));
        self.nexts.subtract(by_next(command));
    }

    /// A poll asks something else, or nothing.
    pub(crate) fn leave(&mut self, poll: &Sent)
        ensures { (xs : List sents.Sent) (i : ℕ) → i < length xs → poll.now ≡ command_at xs i
            → kept.IsKept xs self.old
            → kept.IsKept (set xs i (record poll.now { asked = left poll.now.asked })) self.new }
    {
        if !asks(left(poll.asked)) {
            self.asked.subtract(by_asked(poll));
        }
    }
}
