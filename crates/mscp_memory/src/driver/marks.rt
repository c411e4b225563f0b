// The marks of handles, and the room that a driver's account takes.

use crate::fault::Kind;
use mscp_host::PortHost;
use std::mem::{align_of, size_of};

/// How many bytes a driver's account takes.
pub const SIZE: usize = size_of::<PortHost>();

/// What the address of a driver's account is a multiple of.
pub const ALIGN: usize = align_of::<PortHost>();

/// The memory is room for a driver's account.
pub const ROOM: u64 = 0x4452_5652_524F_4F4D;

/// The memory holds a driver's account.
pub const MADE: u64 = 0x4452_5652_4D41_4445;

/// What handles on a driver's memory are judged by.
pub(crate) const KIND: Kind = Kind {
    room: ROOM,
    made: MADE,
    size: SIZE,
    align: ALIGN,
};
