// What the start of a command costs, and where its command stands, as one number: of two starts the one that comes
// first is the lesser, and one that is no command's is greater. So a pick among sixteen drives looks at one number of
// each.

ghost use Rattle.std.specs.Prelude.{◌≡◌, ◌<◌, cond, nat_eq, not};
ghost use Rattle.mscp_queue.specs.Common.{closed, comes_before, cost_end};

use std::marker::Model;

/// The place of no command.
const NO_PLACE: u8 = 64;

/// The place of a start of which it isn't known whose it is.
const UNKNOWN_PLACE: u8 = 255;

/// More than any start costs.
const COST_END: u64 = (1 << 56) - 1;

/// The start of a command: what it costs, and the place of the command in order of arrival.
#[derive(Clone, Copy)]
pub(crate) struct Start {
    // The place is its low eight bits.
    key: u64,
}

// A clause sees both apart.
impl Model for Start {
    ghost use Rattle.std.specs.Prelude.{◌+◌, ◌*◌};
    ghost use Rattle.mscp_queue.specs.Starts.{IsKey, Start as Told, start_of};

    ghost Value = { Told };

    ghost view = { λ s. start_of s.key };

    ghost invariant = { λ s. IsKey s.key };

    ghost inverse = { λ t. record { key = t.cost * 256 + t.place } };
}

impl Start {
    /// That of no command.
    pub fn none() -> Start
        ensures { result.place ≡ 64 }
    {
        Start {
            key: COST_END * 256 + u64::from(NO_PLACE),
        }
    }

    /// One of which it isn't known whose it is.
    pub fn unknown() -> Start
        ensures { result.place ≡ 255 }
    {
        Start {
            key: COST_END * 256 + u64::from(UNKNOWN_PLACE),
        }
    }

    /// That of the command at a place.
    pub fn of(cost: u64, place: usize) -> Start
        requires cost { cost < cost_end }
        requires place { place < 64 }
        ensures { result ≡ record { cost = cost; place = place } }
    {
        Start {
            key: cost * 256 + place as u64,
        }
    }

    /// Whether it is known whose it is: a command's, or none's.
    pub fn is_known(self) -> bool
        ensures { result ≡ not (nat_eq self.place 255) }
    {
        // No other start has all bits of its number set: it would cost more than any does.
        self.key != u64::MAX
    }

    /// The place of its command, 64 if it is that of none, and 255 if it isn't known.
    pub fn place(self) -> u8
        ensures { result ≡ self.place }
    {
        (self.key & 255) as u8
    }

    /// This one, if it is a command's and the other isn't, or costs more, or as much where its command came later. Or
    /// else the other; but of two that are no command's the one whose place is less.
    pub fn or_earlier(self, other: Start) -> Start
        ensures { result ≡ cond (comes_before self other) self other }
    {
        if self.key < other.key { self } else { other }
    }

    /// The same once the command at a place left: those behind it move up.
    pub fn closed(self, gone: u8) -> Start
        requires { gone < 64 }
        ensures { result ≡ closed gone self }
    {
        // How far it stands behind the next place. Those in front, and those of no command, stand too far behind.
        let behind = self.place().wrapping_sub(gone + 1);
        if behind < NO_PLACE - 1 - gone {
            Start { key: self.key - 1 }
        } else {
            self
        }
    }
}
