// The marks of handles, and the room that a port takes.

use crate::fault::Kind;
use crate::policy::Policy;
use mscp_port::Port;
use std::mem::{align_of, size_of};

/// How many bytes a port takes.
pub const SIZE: usize = size_of::<Port<Policy>>();

/// What the address of a port is a multiple of.
pub const ALIGN: usize = align_of::<Port<Policy>>();

/// The memory is room for a port.
pub const ROOM: u64 = 0x504F_5254_524F_4F4D;

/// The memory holds a port.
pub const MADE: u64 = 0x504F_5254_4D41_4445;

/// What handles on a port's memory are judged by.
pub(crate) const KIND: Kind = Kind {
    room: ROOM,
    made: MADE,
    size: SIZE,
    align: ALIGN,
};
