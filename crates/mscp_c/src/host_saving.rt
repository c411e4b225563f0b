// A host as bytes, and back.

ghost use Rattle.std.specs.Prelude.{◌≡◌, true, false, Ok};
ghost use Rattle.mscp_c.specs.Common.{restored, saved_bytes, length_told, room_after, save_code};
ghost use Rattle.mscp_memory.specs.HostHandles.{is_made};
ghost use Rattle.mscp_c.specs.HostSaving.{restores};

use crate::restore_status::host_restore_code;
use crate::saving::tell_saved;
use crate::status::{DONE, NOT_MADE, room_code};
use mscp_host::{Host, ROOM};
use mscp_memory::host::{Handle, is_made, lend, memory_fault, replace};

/// The most bytes that a host is saved as.
#[unsafe(no_mangle)]
pub extern "C" fn mscp_host_save_size() -> usize
    ensures { result ≡ 794 }
{
    ROOM
}

/// All that the host keeps, as bytes at the front of the room, and how many they are.
#[unsafe(no_mangle)]
pub extern "C" fn mscp_host_save_at(handle: &mut Handle, room: &mut [u8], length: &mut usize) -> i32
    ensures code { is_made handle.old ≡ true → result ≡ save_code (saved_bytes handle.old.held) room.old }
    ensures told { is_made handle.old ≡ true → room.new ≡ room_after (saved_bytes handle.old.held) room.old }
    ensures count { is_made handle.old ≡ true → length.new ≡ length_told (saved_bytes handle.old.held) }
    ensures back { is_made handle.old ≡ true → restored (saved_bytes handle.old.held) ≡ Ok handle.old.held }
    ensures same { handle.new ≡ handle.old }
    ensures unmade { is_made handle.old ≡ false
        → (result ≡ NOT_MADE) × (room.new ≡ room.old) × (length.new ≡ length.old) }
{
    if !is_made(handle) {
        return NOT_MADE;
    }
    let bytes = lend(handle).save();
    tell_saved(room, length, bytes.as_slice())
}

/// The host that bytes say is in the memory of the handle, in place of the one that was made there, if one was: on a
/// fault that one goes on.
#[unsafe(no_mangle)]
pub extern "C" fn mscp_host_restore_at(handle: &mut Handle, bytes: &[u8]) -> i32
    ensures { (result, handle.new) ≡ restores handle.old bytes.now }
{
    if let Some(fault) = memory_fault(handle) {
        return room_code(fault);
    }
    match Host::restore(bytes) {
        Ok(host) => {
            replace(handle, host);
            DONE
        }
        Err(fault) => host_restore_code(fault),
    }
}
