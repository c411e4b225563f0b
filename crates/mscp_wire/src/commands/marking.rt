// Each GET UNIT STATUS hears once that its unit may have another state: it is counted until then. So of those that are
// outstanding none is looked at that heard it before.

ghost use Rattle.std.specs.Prelude.{◌≡◌, ◌<◌, length, map, option_map, set};
ghost use Rattle.mscp_wire.specs.Kept as kept;
ghost use Rattle.mscp_wire.specs.Kept.{cell, sents};

use crate::besides::{marked, turns, turns_beside};
use crate::commands::Commands;
use crate::held::Sought;
use crate::sent::Sent;
use std::alloc::Allocator;

impl<A: Allocator + Copy> Commands<A> {
    /// The one in a cell hears that another ended, which may have changed the state of its unit.
    fn mark_in(&mut self, at: usize, ended: &Sent)
        requires { at < length self.old }
        ensures { self.new ≡ set self.old at (option_map (kept.besides ended.now) (cell self.old at)) }
    {
        if let Some(other) = self.cells.as_slice()[at] {
            if !other.beside && turns_beside(ended, &other) {
                self.tallies.mark(&other);
                self.cells.put(at, Some(marked(ended, &other)));
            }
        }
    }

    /// All hear it.
    fn mark_all(&mut self, ended: &Sent)
        ensures { sents self.new ≡ map (kept.besides ended.now) (sents self.old) }
    {
        let sought = Sought::Beside(*ended);
        let mut from = 0;
        while let Some(at) = self.cells.next(from, self.cells.len(), &sought) {
            self.mark_in(at, ended);
            from = at + 1;
        }
    }

    /// They hear it if it may have.
    pub fn mark(&mut self, ended: &Sent)
        ensures { sents self.new ≡ map (kept.besides ended.now) (sents self.old) }
    {
        if !turns(ended.opcode) || self.tallies.has_no_status(ended.connection, ended.unit) {
            return;
        }
        self.mark_all(ended);
    }
}
