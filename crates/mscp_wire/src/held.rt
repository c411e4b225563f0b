// The cells in which commands that are outstanding stand, oldest first. A cell whose command left is empty, so that no
// other moves.

ghost use Rattle.std.specs.Prelude.{◌≡◌, ◌++◌, ◌∷◌, [], IfOk, IfSome, IsSome, OnOk};
ghost use Rattle.mscp_wire.specs.Wire as wire;
ghost use Rattle.mscp_wire.specs.Sought.{is_sought};
ghost use Rattle.mscp_wire.specs.Kept.{cell, place_if, sents, stands};

use crate::besides::{is_turning, turns_beside};
use crate::outstanding::{aborts, keeps_back};
use crate::polls::{polls, waits_on};
use crate::sent::Sent;
use crate::tally::slot_of;
use mscp_drive::Connection;
use std::alloc::{AllocError, Allocator};

/// The command in a cell, if one is there.
pub(crate) fn command_in(cells: &[Option<Sent>], at: usize) -> Option<Sent>
    ensures { result ≡ cell cells.now at }
{
    cells.get(at).copied().unwrap_or(None)
}

/// The same, if there is such a cell.
pub(crate) fn command_if(cells: &[Option<Sent>], at: Option<usize>) -> Option<Sent>
    requires { IfSome at (λ i. IsSome (cell cells.now i)) }
    ensures { result ≡ wire.command_at_place (sents cells.now) (place_if cells.now at) }
{
    match at {
        Some(at) => command_in(cells, at),
        None => None,
    }
}

/// Which command is sought.
#[derive(Clone, Copy)]
pub enum Sought {
    /// One that has this reference number on this connection.
    Named(Connection, u32),
    /// An ABORT of this one.
    AbortOf(Sent),
    /// One that keeps this one back if it came earlier.
    Keeping(Sent),
    /// A poll of this one.
    PollOf(Sent),
    /// One for which the host of this connection waits.
    WaitedFor(Connection),
    /// One that changes the state of this unit of a connection.
    Turning(Connection, u16),
    /// A GET UNIT STATUS beside which this one changes the state of its unit.
    Beside(Sent),
}

/// Whether a command is one that is sought.
#[inline(always)]
pub(crate) fn is_sought(sought: &Sought, command: &Sent) -> bool
    ensures { result ≡ is_sought sought.now command.now }
{
    match sought {
        Sought::Named(connection, reference) => command.is_named(*connection, *reference),
        Sought::AbortOf(other) => aborts(other, command),
        Sought::Keeping(other) => keeps_back(other, command),
        Sought::PollOf(other) => polls(other, command),
        Sought::WaitedFor(connection) => waits_on(*connection, command),
        Sought::Turning(connection, unit) => is_turning(*connection, *unit, command),
        Sought::Beside(other) => turns_beside(other, command),
    }
}

/// Whether one that is sought stands in a cell.
#[inline(always)]
pub(crate) fn stands(cell: &Option<Sent>, sought: &Sought) -> bool
    ensures { result ≡ stands (is_sought sought.now) cell.now }
{
    match cell {
        Some(command) => is_sought(sought, command),
        None => false,
    }
}

/// The list of those in cells.
pub(crate) fn list_of<A: Allocator>(
    alloc: A,
    cells: &[Option<Sent>],
) -> Result<Vec<Sent, A>, AllocError>
    ensures { IfOk result (λ list. list.items ≡ sents cells.now) }
{
    let mut list = Vec::new(alloc);
    for at in 0..cells.len() {
        push_if(&mut list, command_in(cells, at))?;
    }
    Ok(list)
}

/// Appends a command, if there is one.
fn push_if<A: Allocator>(list: &mut Vec<Sent, A>, command: Option<Sent>) -> Result<(), AllocError>
    ensures { OnOk result (list.new.items ≡ list.old.items ++ sents (command ∷ [])) }
{
    match command {
        Some(command) => {
            list.push(command)?;
            Ok(())
        }
        None => Ok(()),
    }
}

/// Keeps in which cell a command stands, by its name.
pub(crate) fn note<A: Allocator>(last: &mut Vec<u32, A>, command: &Sent, at: usize) {
    let slot = slot_of(command.connection, command.reference);
    if let Ok(at) = u32::try_from(at) {
        if slot < last.len() {
            last[slot] = at;
        }
    }
}

/// The same of each.
pub(crate) fn note_all<A: Allocator>(cells: &[Option<Sent>], last: &mut Vec<u32, A>) {
    for at in 0..cells.len() {
        if let Some(command) = command_in(cells, at) {
            note(last, &command, at);
        }
    }
}
