// A port as bytes, and back.

ghost use Rattle.std.specs.Prelude.{◌≡◌, true, false, slice_index, None, Ok};
ghost use Rattle.mscp_c.specs.Common.{fresh, length_told, room_after, save_code};
ghost use Rattle.mscp_memory.specs.PortHandles.{is_made, memory_fault, placed};
ghost use Rattle.mscp_c.specs.PortSaving.{policy_named, restored_by, restores, saved_by};

use crate::controller_saving::policy_number;
use crate::restore_status::port_restore_code;
use crate::saving::tell_saved;
use crate::status::{DONE, NOT_MADE, room_code};
use mscp_controller::{Config, Controller};
use mscp_memory::Policy;
use mscp_memory::port::{Handle, is_made, lend, memory_fault, replace};
use mscp_port::{Bus, Hardware, Port, ROOM, restore_fault, saved_settings};

/// The most bytes that a port is saved as.
#[unsafe(no_mangle)]
pub extern "C" fn mscp_port_save_size() -> usize
    ensures { result ≡ 6258 }
{
    ROOM
}

/// All of the port, as bytes at the front of the room, and how many they are.
#[unsafe(no_mangle)]
pub extern "C" fn mscp_port_save_at(handle: &mut Handle, room: &mut [u8], length: &mut usize) -> i32
    ensures code { is_made handle.old ≡ true → result ≡ save_code (saved_by handle.old.held) room.old }
    ensures told { is_made handle.old ≡ true → room.new ≡ room_after (saved_by handle.old.held) room.old }
    ensures count { is_made handle.old ≡ true → length.new ≡ length_told (saved_by handle.old.held) }
    ensures back { is_made handle.old ≡ true → restored_by (saved_by handle.old.held) ≡ Ok handle.old.held }
    ensures same { handle.new ≡ handle.old }
    ensures unmade { is_made handle.old ≡ false
        → (result ≡ NOT_MADE) × (room.new ≡ room.old) × (length.new ≡ length.old) }
{
    if !is_made(handle) {
        return NOT_MADE;
    }
    let port = lend(handle);
    let bytes = port.save(policy_number(*port.picker()));
    tell_saved(room, length, bytes.as_slice())
}

/// The byte at a place, or 0 behind the last one.
fn byte_or_zero(bytes: &[u8], place: usize) -> u8
    ensures { result ≡ slice_index bytes.now place }
{
    if place < bytes.len() { bytes[place] } else { 0 }
}

/// The policy that the bytes of its controller name, or another one where they name none.
fn policy_named(bytes: &[u8]) -> Policy
    ensures { result ≡ policy_named bytes.now }
{
    let text = usize::from(byte_or_zero(bytes, 71));
    let buffers = usize::from(byte_or_zero(bytes, 72));
    let decided = usize::from(byte_or_zero(bytes, 73));
    if byte_or_zero(bytes, 370 + text + 21 * buffers + 13 * decided + 30) == 1 {
        Policy::Sweep
    } else {
        Policy::Oldest
    }
}

/// What kind of port one is that is to be resumed, until it is.
const HARDWARE: Hardware = Hardware {
    bus: Bus::Q,
    model: 0,
    software: 0,
    version: 0,
};

/// Makes a port that is to be resumed in the memory of the handle, also in place of one.
#[inline(never)]
fn make_unresumed(handle: &mut Handle, settings: Config, policy: Policy)
    requires { memory_fault handle.old ≡ None }
    ensures controller { handle.new.held.controller ≡ fresh settings policy }
    ensures placed { handle.new ≡ placed handle.old handle.new.held }
{
    match Port::new(HARDWARE, 1, Controller::new(settings, policy)) {
        Ok(port) => replace(handle, port),
        Err(_) => unreachable!(),
    }
}

/// The port that bytes say is in the memory of the handle, in place of the one that was made there, if one was: on a
/// fault that one goes on. A new one is put there, and resumed where it lies, so that the stack has no room for a whole
/// one.
#[unsafe(no_mangle)]
pub extern "C" fn mscp_port_restore_at(handle: &mut Handle, bytes: &[u8]) -> i32
    ensures { (result, handle.new) ≡ restores handle.old bytes.now }
{
    if let Some(fault) = memory_fault(handle) {
        return room_code(fault);
    }
    let policy = policy_named(bytes);
    if let Some(fault) = restore_fault(bytes, policy_number(policy), &policy) {
        return port_restore_code(fault);
    }
    make_unresumed(handle, saved_settings(bytes, &policy), policy);
    lend(handle).resume(bytes);
    DONE
}
