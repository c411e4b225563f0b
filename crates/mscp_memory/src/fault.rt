// Why memory is no room.

ghost use Rattle.std.specs.Prelude.{◌≡◌, ◌≢◌};
ghost use Rattle.mscp_memory.specs.Rooms.{kind_fault};

/// Why a handle has no room: the first that holds, in this order.
#[derive(Clone, Copy)]
pub enum RoomFault {
    /// Something was made there already.
    Made,
    /// Its mark is none: it is no handle.
    NoHandle,
    /// The address is 0.
    Null,
    /// The address is no multiple of the alignment.
    Misaligned,
    /// There are fewer bytes than the size.
    Small,
}

/// The marks of handles on memory for a value of one type, and the room that it takes.
#[derive(Clone, Copy)]
pub(crate) struct Kind {
    /// The memory is room for a value.
    pub(crate) room: u64,
    /// The memory holds a value.
    pub(crate) made: u64,
    /// How many bytes a value takes.
    pub(crate) size: usize,
    /// What its address is a multiple of.
    pub(crate) align: usize,
}

/// Why memory of this address and length, under this mark, is no room for a value of this kind, if it isn't.
pub(crate) fn room_fault(address: usize, length: usize, mark: u64, kind: Kind) -> Option<RoomFault>
    requires { kind.align ≢ 0 }
    ensures { result ≡ kind_fault address length mark kind }
{
    if mark == kind.made {
        return Some(RoomFault::Made);
    }
    if mark != kind.room {
        return Some(RoomFault::NoHandle);
    }
    if address == 0 {
        return Some(RoomFault::Null);
    }
    if address % kind.align != 0 {
        return Some(RoomFault::Misaligned);
    }
    if length < kind.size {
        return Some(RoomFault::Small);
    }
    None
}
