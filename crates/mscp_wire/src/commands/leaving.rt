// Each poll of a command hears twice at most that it ended: then it asks nothing more, and isn't counted. So of those
// that are outstanding none is looked at that asks nothing.

ghost use Rattle.std.specs.Prelude.{◌≡◌, ◌<◌, length, map, option_map, set};
ghost use Rattle.mscp_wire.specs.Kept as kept;
ghost use Rattle.mscp_wire.specs.Kept.{cell, sents};

use crate::commands::Commands;
use crate::held::Sought;
use crate::polls::{leaves, polls};
use crate::sent::Sent;
use crate::tally::slot_of;
use std::alloc::Allocator;

impl<A: Allocator + Copy> Commands<A> {
    /// The one in a cell asks no more of another that ended, if it is a poll of that.
    fn leave_in(&mut self, at: usize, ended: &Sent)
        requires { at < length self.old }
        ensures { self.new ≡ set self.old at (option_map (kept.leaves ended.now) (cell self.old at)) }
    {
        if let Some(other) = self.cells.as_slice()[at] {
            if polls(ended, &other) {
                self.tallies.leave(&other);
                self.cells.put(at, Some(leaves(ended, &other)));
            }
        }
    }

    /// All ask no more of it.
    fn leave_all(&mut self, ended: &Sent)
        ensures { sents self.new ≡ map (kept.leaves ended.now) (sents self.old) }
    {
        let sought = Sought::PollOf(*ended);
        let mut from = 0;
        while let Some(at) = self.cells.next(from, self.cells.len(), &sought) {
            self.leave_in(at, ended);
            from = at + 1;
        }
    }

    /// Polls of a command that ended ask no more of it.
    pub fn leave(&mut self, ended: &Sent)
        ensures { sents self.new ≡ map (kept.leaves ended.now) (sents self.old) }
    {
        if self
            .tallies
            .asked
            .at(slot_of(ended.connection, ended.reference))
            == 0
        {
            return;
        }
        self.leave_all(ended);
    }
}
