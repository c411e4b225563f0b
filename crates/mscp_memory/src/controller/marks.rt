// The marks of handles, and the room that a controller takes.

use crate::fault::Kind;
use crate::policy::Policy;
use mscp_controller::Controller;
use std::mem::{align_of, size_of};

/// How many bytes a controller takes.
pub const SIZE: usize = size_of::<Controller<Policy>>();

/// What the address of a controller is a multiple of.
pub const ALIGN: usize = align_of::<Controller<Policy>>();

/// The memory is room for a controller.
pub const ROOM: u64 = 0x4D53_4350_524F_4F4D;

/// The memory holds a controller.
pub const MADE: u64 = 0x4D53_4350_4D41_4445;

/// What handles on a controller's memory are judged by.
pub(crate) const KIND: Kind = Kind {
    room: ROOM,
    made: MADE,
    size: SIZE,
    align: ALIGN,
};
