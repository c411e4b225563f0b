// The marks of handles, and the room that a host takes.

use crate::fault::Kind;
use mscp_host::Host;
use std::mem::{align_of, size_of};

/// How many bytes a host takes.
pub const SIZE: usize = size_of::<Host>();

/// What the address of a host is a multiple of.
pub const ALIGN: usize = align_of::<Host>();

/// The memory is room for a host.
pub const ROOM: u64 = 0x484F_5354_524F_4F4D;

/// The memory holds a host.
pub const MADE: u64 = 0x484F_5354_4D41_4445;

/// What handles on a host's memory are judged by.
pub(crate) const KIND: Kind = Kind {
    room: ROOM,
    made: MADE,
    size: SIZE,
    align: ALIGN,
};
