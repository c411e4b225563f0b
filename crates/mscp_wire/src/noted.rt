// What a host was told of a unit, of which no rule asks. Doubts do.

ghost use Rattle.std.specs.Prelude.{◌≡◌};
ghost use Rattle.mscp_wire.specs.Wire as wire;

use crate::answer::Answer;
use crate::identity::{Identity, later_number};
use mscp_packet::codes;

/// What a host was told of a unit, of which no rule asks.
#[derive(Clone, Copy)]
pub struct Noted {
    /// Its size in blocks, if that was told.
    pub size: Option<u32>,
    /// How many blocks all copies of its replacement and caching table have, if that was told.
    pub table: Option<u32>,
    /// Whether it is protected from writing.
    pub protected: bool,
    /// Whether it is there.
    pub present: bool,
}

/// The size that an end tells.
fn size_of(identity: Option<Identity>) -> Option<u32>
    ensures { result ≡ wire.size_of identity }
{
    match identity {
        Some(identity) => identity.size,
        None => None,
    }
}

impl Noted {
    /// Nothing.
    pub fn nothing() -> Noted
        ensures { result ≡ wire.noted_nothing }
    {
        Noted {
            size: None,
            table: None,
            protected: false,
            present: false,
        }
    }

    /// The same once an end of its own host came that names the unit.
    pub fn own(&self, answer: &Answer) -> Noted
        ensures { result ≡ wire.noted_own self.now answer.now }
    {
        if answer.leaves() {
            return Noted {
                present: answer.status_code() != codes::UNIT_OFFLINE,
                ..Noted::nothing()
            };
        }
        if !answer.describes() {
            return *self;
        }
        Noted {
            size: later_number(size_of(answer.identity), self.size),
            table: if answer.brings() {
                None
            } else {
                later_number(answer.table, self.table)
            },
            protected: answer.protected,
            present: true,
        }
    }

    /// And once one of the other host did: what that changed isn't told.
    pub fn other(&self, answer: &Answer) -> Noted
        ensures { result ≡ wire.noted_other self.now answer.now }
    {
        if answer.leaves() || answer.describes() {
            Noted::nothing()
        } else {
            *self
        }
    }
}
