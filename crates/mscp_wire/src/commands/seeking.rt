// Which of the commands that are outstanding is sought, and which one it is.

ghost use Rattle.std.specs.Prelude.{◌≡◌, ◌+◌, drop, find, position, take, IfSome, IsSome};
ghost use Rattle.std.specs.List.{list_any};
ghost use Rattle.mscp_wire.specs.Wire as wire;
ghost use Rattle.mscp_wire.specs.Kept.{cell, place, place_if, sents};
ghost use Rattle.mscp_wire.specs.Sought.{is_sought};

use crate::commands::Commands;
use crate::held::{Sought, command_if};
use crate::sent::Sent;
use mscp_drive::Connection;
use std::alloc::Allocator;

impl<A: Allocator + Copy> Commands<A> {
    /// The cell in which the first stands that is sought, if one does.
    pub fn first(&self, sought: &Sought) -> Option<usize>
        ensures place { place_if self.now result ≡ position (is_sought sought.now) (sents self.now) }
        ensures there { IfSome result (λ i. IsSome (cell self.now i)) }
    {
        self.cells.first(self.cells.len(), sought)
    }

    /// Whether one is.
    pub fn has(&self, sought: &Sought) -> bool
        ensures { result ≡ list_any (is_sought sought.now) (sents self.now) }
    {
        self.first(sought).is_some()
    }

    /// The first that is, of those that came before the one in a cell.
    pub(crate) fn first_before(&self, at: usize, sought: &Sought) -> Option<Sent>
        requires { IsSome (cell self.now at) }
        ensures { result ≡ find (is_sought sought.now) (take (place self.now at) (sents self.now)) }
    {
        command_if(&self.cells.as_slice()[..at], self.cells.first(at, sought))
    }

    /// Whether one is that came before it.
    pub(crate) fn has_before(&self, at: usize, sought: &Sought) -> bool
        requires { IsSome (cell self.now at) }
        ensures { result ≡ list_any (is_sought sought.now) (take (place self.now at) (sents self.now)) }
    {
        self.first_before(at, sought).is_some()
    }

    /// Whether one is that came after it.
    pub(crate) fn has_behind(&self, at: usize, sought: &Sought) -> bool
        requires { IsSome (cell self.now at) }
        ensures { result ≡ list_any (is_sought sought.now) (drop (place self.now at + 1) (sents self.now)) }
    {
        let len = self.cells.len();
        self.cells.next(at + 1, len, sought).is_some()
    }

    /// The oldest for which the host of a connection waits, if there is one.
    #[tactic(auto, using(crate::proofs::Names::found_at))]
    pub(crate) fn oldest_on(&self, connection: Connection) -> Option<Sent>
        ensures { result ≡ find (wire.waits_on connection) (sents self.now) }
    {
        self.command_if(self.first(&Sought::WaitedFor(connection)))
    }
}
