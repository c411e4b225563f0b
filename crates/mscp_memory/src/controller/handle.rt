// A handle on memory for a controller.
//
// A handle is a struct beside the memory, with a mark in it. So every call can test what it was given, and has no
// premise. Each kind of handle has marks of its own, so one isn't taken for another. The prover lets no struct with a
// type argument into the signature of an export: so there are four structs, of a controller, a host, a port and a
// driver's account, and the two functions that reach into memory are written four times.

ghost use Rattle.mscp_memory.specs.ControllerHandles.{Held};

use std::marker::Model;

/// Memory of the caller, and what is in it: by its mark a controller, or room for one. A handle of another mark, or on
/// memory that doesn't fit, owns nothing.
#[repr(C)]
pub struct Handle {
    pub(crate) at: *mut u8,
    pub(crate) address: usize,
    pub(crate) length: usize,
    pub(crate) mark: u64,
    pub ghost held: { Held },
}

impl Model for Handle {
    ghost use Rattle.mscp_memory.specs.Rooms.{HandleOf, owned_by};
    ghost use Rattle.mscp_memory.specs.ControllerHandles.{Held, kind, row};

    ghost Value = { HandleOf Held };

    ghost view = { λ h. record { at = h.at; address = h.address; length = h.length; mark = h.mark; held = h.held } };

    ghost inverse = { λ h. record { at = h.at; address = h.address; length = h.length; mark = h.mark; held = h.held } };

    ghost also_owns = { λ h. owned_by row kind (view h) };
}
