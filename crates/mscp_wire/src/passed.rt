// What stands in the way of an end, and what it proves, by the commands that are outstanding.

ghost use Rattle.std.specs.Prelude.{◌≡◌, find, take, IfSome, IsSome};
ghost use Rattle.mscp_wire.specs.Wire as wire;
ghost use Rattle.mscp_wire.specs.Kept.{cell, place, place_if, sents};

use crate::answer::Answer;
use crate::commands::Commands;
use crate::held::Sought;
use crate::sent::Sent;
use mscp_packet::endcodes;
use std::alloc::Allocator;

impl<A: Allocator + Copy> Commands<A> {
    /// The first that keeps the one in a cell back, if one does.
    fn keeper_of(&self, at: usize) -> Option<Sent>
        requires { IsSome (cell self.now at) }
        ensures { result ≡ find (wire.keeps_back (wire.command_at (sents self.now) (place self.now at)))
            (take (place self.now at) (sents self.now)) }
    {
        let sought = Sought::Keeping(self.at(at));
        self.first_before(at, &sought)
    }

    /// The same, if there is a cell.
    pub fn passed_at(&self, at: Option<usize>) -> Option<Sent>
        requires { IfSome at (λ i. IsSome (cell self.now i)) }
        ensures { result ≡ wire.passed_at (sents self.now) (place_if self.now at) }
    {
        match at {
            Some(at) => self.keeper_of(at),
            None => None,
        }
    }

    /// Whether an AVAILABLE or an ONLINE of its unit was outstanding beside the one in a cell, if that is a GET UNIT
    /// STATUS.
    fn is_late(&self, at: usize, answer: &Answer) -> bool
        requires { IsSome (cell self.now at) }
        ensures { result ≡ wire.is_late (sents self.now)
            (wire.command_at (sents self.now) (place self.now at)) answer.now }
    {
        answer.code == endcodes::GET_UNIT_STATUS
            && (self.at(at).beside || self.has_turning(answer.connection, answer.unit))
    }

    /// Whether the end of the one in a cell proves how its unit is, if there is one: that of a GET UNIT STATUS isn't
    /// late, and one by which the unit went away passes nothing.
    pub fn settles(&self, at: Option<usize>, answer: &Answer) -> bool
        requires { IfSome at (λ i. IsSome (cell self.now i)) }
        ensures { result ≡ wire.is_settled_at (sents self.now) answer.now (place_if self.now at) }
    {
        match at {
            Some(at) => {
                !self.is_late(at, answer)
                    && (!answer.went() || self.count_on(answer.connection) <= 1)
            }
            None => true,
        }
    }
}
