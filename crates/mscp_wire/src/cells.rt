// The cells in which commands that are outstanding stand, oldest first. A cell whose command left is empty, so that no
// other moves.
//
// Whoever seeks a command may have to look at a thousand others, and each of those is some lines of memory. So beside
// each cell stands a tag, a number made of what commands are sought by: one with another tag isn't looked at.

ghost use Rattle.std.specs.Prelude.{◌≡◌, ◌++◌, ◌∷◌, ◌<◌, ◌≤◌, ◌^◌, [], is_some, length, position, set, take, IfSome, IsSome, OnErr, OnOk, Some, false, true};
ghost use Rattle.std.specs.List.{filter};
ghost use Rattle.mscp_wire.specs.Kept.{IsNext, NoneIn, cell, place_if, sents};
ghost use Rattle.mscp_wire.specs.Sought.{is_sought};

use crate::held::{Sought, stands};
use crate::sent::Sent;
use crate::tags::{have_either, have_left, tag_all, tag_if, tag_waiting, tags_of};
use std::alloc::{AllocError, Allocator};
use std::marker::Model;

/// So many tags are looked at together.
const FEW: usize = 128;

/// Cells, and the tag of each.
#[derive(Drop)]
pub struct Cells<A: Allocator> {
    cells: Vec<Option<Sent>, A>,
    tags: Vec<u16, A>,
}

// A clause sees what stands in them.
impl<A: Allocator> Model for Cells<A> {
    ghost use Rattle.std.specs.Prelude.{List, Option};
    ghost use Rattle.mscp_wire.specs.declared.sent.Sent.{Sent};
    ghost use Rattle.mscp_wire.specs.Kept.{AreTagged};

    ghost Value = { List (Option Sent) };

    ghost view = { λ c. c.cells.items };

    ghost invariant = { λ c. AreTagged c.cells.items c.tags.items };
}

impl<A: Allocator + Copy> Cells<A> {
    /// None.
    pub(crate) fn new(alloc: A) -> Cells<A>
        ensures { result ≡ [] }
    {
        Cells {
            cells: Vec::new(alloc),
            tags: Vec::new(alloc),
        }
    }

    /// How many.
    pub(crate) fn len(&self) -> usize
        ensures count { result ≡ length self.now }
        ensures bound { result < 2 ^ 63 }
    {
        self.cells.len()
    }

    /// What stands in them.
    pub(crate) fn as_slice(&self) -> &[Option<Sent>]
        ensures { result.now ≡ self.now }
    {
        self.cells.as_slice()
    }

    /// This stands in a cell.
    pub(crate) fn put(&mut self, at: usize, command: Option<Sent>)
        requires { at < length self.old }
        ensures { self.new ≡ set self.old at command }
    {
        self.cells[at] = command;
        self.tags[at] = tag_if(&command);
    }

    /// One cell more, in which this command stands.
    pub(crate) fn push(&mut self, command: Sent) -> Result<(), AllocError>
        ensures pushed { OnOk result (self.new ≡ self.old ++ Some command ∷ []) }
        ensures refused { OnErr result (self.new ≡ self.old) }
    {
        self.tags.truncate(self.cells.len());
        self.tags.push(tag_if(&Some(command)))?;
        self.cells.push(Some(command))?;
        Ok(())
    }

    /// As many as are said, and no more.
    pub(crate) fn truncate(&mut self, len: usize)
        ensures { self.new ≡ take len self.old }
    {
        self.cells.truncate(len);
    }

    /// No cell is empty.
    pub(crate) fn close_up(&mut self)
        ensures { self.new ≡ filter is_some self.old }
    {
        self.cells.retain(|cell| cell.is_some());
        tag_all(&mut self.tags, self.cells.as_slice());
    }

    /// Whether one that is sought may stand from a cell on and before another, by their tags.
    fn may_stand(&self, from: usize, end: usize, sought: &Sought) -> bool
        requires order { from ≤ end }
        requires few { end ≤ length self.now }
        ensures { result ≡ false → NoneIn (is_sought sought.now) self.now from end }
    {
        let tags = &self.tags[from..end];
        if let Sought::WaitedFor(connection) = sought {
            return have_left(tags, tag_waiting(*connection));
        }
        match tags_of(sought) {
            Some((one, other)) => have_either(tags, one, other),
            None => true,
        }
    }

    /// The next cell in which one that is sought stands, from one on and before another: each is looked at.
    fn next_of_few(&self, from: usize, end: usize, sought: &Sought) -> Option<usize>
        requires order { from ≤ end }
        requires few { end ≤ length self.now }
        ensures { IsNext (is_sought sought.now) self.now from end result }
    {
        for at in from..end {
            if stands(&self.cells[at], sought) {
                return Some(at);
            }
        }
        None
    }

    /// The same: cells whose tags say that none stands there aren't looked at.
    pub(crate) fn next(&self, from: usize, end: usize, sought: &Sought) -> Option<usize>
        requires { end ≤ length self.now }
        ensures { IsNext (is_sought sought.now) self.now from end result }
    {
        let mut at = from;
        while at < end {
            let to = at.saturating_add(FEW).min(end);
            if self.may_stand(at, to, sought) {
                if let Some(found) = self.next_of_few(at, to, sought) {
                    return Some(found);
                }
            }
            at = to;
        }
        None
    }

    /// The cell in which the first stands that is sought, of so many, if one does.
    pub(crate) fn first(&self, len: usize, sought: &Sought) -> Option<usize>
        requires { len ≤ length self.now }
        ensures place { place_if (take len self.now) result
            ≡ position (is_sought sought.now) (sents (take len self.now)) }
        ensures there { IfSome result (λ i. IsSome (cell (take len self.now) i)) }
    {
        self.next(0, len, sought)
    }
}
