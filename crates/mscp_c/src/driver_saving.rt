// A driver's account of its port as bytes, and back.

ghost use Rattle.std.specs.Prelude.{◌≡◌, true, false, Ok};
ghost use Rattle.mscp_host.specs.PortRestored.{port_restored};
ghost use Rattle.mscp_host.specs.PortSaved.{port_saved_bytes};
ghost use Rattle.mscp_c.specs.Common.{length_told, room_after, save_code};
ghost use Rattle.mscp_memory.specs.DriverHandles.{is_made};
ghost use Rattle.mscp_c.specs.DriverSaving.{driver_restores};

use crate::restore_status::host_restore_code;
use crate::saving::tell_saved;
use crate::status::{DONE, NOT_MADE, room_code};
use mscp_host::{PORT_HOST_ROOM, PortHost};
use mscp_memory::driver::{Handle, is_made, lend, memory_fault, replace};

/// The most bytes that a driver's account is saved as.
#[unsafe(no_mangle)]
pub extern "C" fn mscp_driver_save_size() -> usize
    ensures { result ≡ 1066 }
{
    PORT_HOST_ROOM
}

/// All that the account keeps, as bytes at the front of the room, and how many they are.
#[unsafe(no_mangle)]
pub extern "C" fn mscp_driver_save_at(
    handle: &mut Handle,
    room: &mut [u8],
    length: &mut usize,
) -> i32
    ensures code { is_made handle.old ≡ true → result ≡ save_code (port_saved_bytes handle.old.held) room.old }
    ensures told { is_made handle.old ≡ true
        → room.new ≡ room_after (port_saved_bytes handle.old.held) room.old }
    ensures count { is_made handle.old ≡ true → length.new ≡ length_told (port_saved_bytes handle.old.held) }
    ensures back { is_made handle.old ≡ true
        → port_restored (port_saved_bytes handle.old.held) ≡ Ok handle.old.held }
    ensures same { handle.new ≡ handle.old }
    ensures unmade { is_made handle.old ≡ false
        → (result ≡ NOT_MADE) × (room.new ≡ room.old) × (length.new ≡ length.old) }
{
    if !is_made(handle) {
        return NOT_MADE;
    }
    let bytes = lend(handle).save();
    tell_saved(room, length, bytes.as_slice())
}

/// The account that bytes say is in the memory of the handle, in place of the one that was made there, if one was: on a
/// fault that one goes on.
#[unsafe(no_mangle)]
pub extern "C" fn mscp_driver_restore_at(handle: &mut Handle, bytes: &[u8]) -> i32
    ensures { (result, handle.new) ≡ driver_restores handle.old bytes.now }
{
    if let Some(fault) = memory_fault(handle) {
        return room_code(fault);
    }
    match PortHost::restore(bytes) {
        Ok(account) => {
            replace(handle, account);
            DONE
        }
        Err(fault) => host_restore_code(fault),
    }
}
