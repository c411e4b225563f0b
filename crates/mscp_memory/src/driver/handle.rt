// A handle on memory for a driver's account.

ghost use Rattle.mscp_memory.specs.DriverHandles.{Held};

use std::marker::Model;

/// Memory of the caller, and what is in it: by its mark a driver's account, or room for one. A handle of another mark,
/// or on memory that doesn't fit, owns nothing.
#[repr(C)]
pub struct Handle {
    pub(crate) at: *mut u8,
    pub(crate) address: usize,
    pub(crate) length: usize,
    pub(crate) mark: u64,
    pub ghost held: { Held },
}

impl Model for Handle {
    ghost use Rattle.mscp_memory.specs.Rooms.{HandleOf, owned_by};
    ghost use Rattle.mscp_memory.specs.DriverHandles.{Held, kind, row};

    ghost Value = { HandleOf Held };

    ghost view = { λ h. record { at = h.at; address = h.address; length = h.length; mark = h.mark; held = h.held } };

    ghost inverse = { λ h. record { at = h.at; address = h.address; length = h.length; mark = h.mark; held = h.held } };

    ghost also_owns = { λ h. owned_by row kind (view h) };
}
