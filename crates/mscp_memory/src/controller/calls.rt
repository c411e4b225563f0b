// What a handle says of its memory, lends of it, and takes into it.

ghost use Rattle.std.specs.Prelude.{◌≡◌, true, None};
ghost use Rattle.std.specs.Borrow.{Lends, sem};
ghost use Rattle.mscp_memory.specs.contracts.controller.handle.Handle.{the_row};
ghost use Rattle.mscp_memory.specs.ControllerHandles.{is_made, is_room, memory_fault, placed, room_fault, row, with_held};

use crate::controller::handle::Handle;
use crate::controller::marks::{KIND, MADE};
use crate::fault::{self, RoomFault};
use crate::policy::Policy;
use mscp_controller::Controller;

/// Whether its memory holds a controller.
pub fn is_made(handle: &mut Handle) -> bool
    ensures value { result ≡ is_made handle.old }
    ensures same { handle.new ≡ handle.old }
{
    handle.mark == MADE
}

/// Why its memory is no room for a controller, if it isn't.
pub fn room_fault(handle: &mut Handle) -> Option<RoomFault>
    ensures value { result ≡ room_fault handle.old }
    ensures same { handle.new ≡ handle.old }
{
    fault::room_fault(handle.address, handle.length, handle.mark, KIND)
}

/// The controller.
pub fn lend(handle: &mut Handle) -> &mut Controller<Policy>
    requires { is_made handle.old ≡ true }
    ensures* writes_back { sem 𝓛 (Lends the_row row handle.entry result (with_held handle.old)) }
    ensures value { result.now ≡ handle.old.held }
{
    unsafe { &mut *(handle.at as *mut Controller<Policy>) }
}

/// Moves a controller into the memory.
pub fn place(handle: &mut Handle, held: Controller<Policy>)
    requires { is_room handle.old ≡ true }
    ensures { handle.new ≡ placed handle.old held }
{
    unsafe { (handle.at as *mut Controller<Policy>).write(held) };
    handle.mark = MADE;
}

/// Why its memory can't hold a controller, if it can't. One that is made there already may be replaced.
pub fn memory_fault(handle: &mut Handle) -> Option<RoomFault>
    ensures value { result ≡ memory_fault handle.old }
    ensures same { handle.new ≡ handle.old }
{
    if is_made(handle) {
        None
    } else {
        room_fault(handle)
    }
}

/// Puts a controller into the memory: in place of the one that is made there, or into the room.
pub fn replace(handle: &mut Handle, held: Controller<Policy>)
    requires { memory_fault handle.old ≡ None }
    ensures { handle.new ≡ placed handle.old held }
{
    if is_made(handle) {
        *lend(handle) = held;
    } else {
        place(handle, held);
    }
}
