// A controller as bytes, and back.
//
// A restore takes a handle on which something is made, as an emulator has just that. It looks at all bytes before it
// writes, so a fault leaves what runs. An init refuses such a handle: a reset, or a write of IP, makes it new.

ghost use Rattle.std.specs.Prelude.{◌≡◌, true, false, None, Ok};
ghost use Rattle.mscp_c.specs.Common.{fresh, Handle, AnswersHandle, policy_number, length_told, room_after, save_code};
ghost use Rattle.mscp_memory.specs.ControllerHandles.{is_made, memory_fault, placed};
ghost use Rattle.mscp_c.specs.HandleCalls as calls;
ghost use Rattle.mscp_c.specs.Restoring.{policy_named, restored_by, saved_by};
ghost use Rattle.mscp_c.specs.Saving.{restores};

use crate::restore_status::restore_code;
use crate::saving::tell_saved;
use crate::status::{DONE, NOT_MADE, room_code};
use mscp_controller::{Config, Controller};
use mscp_memory::Policy;
use mscp_memory::controller::{Handle, is_made, lend, memory_fault, replace};
use mscp_saved::{ROOM, restore_fault, resume, save, saved_settings};

/// The most bytes that a controller is saved as.
#[unsafe(no_mangle)]
pub extern "C" fn mscp_save_size() -> usize
    ensures { result ≡ 3664 }
{
    ROOM
}

/// The number of a policy.
pub(crate) fn policy_number(policy: Policy) -> u8
    ensures { result ≡ policy_number policy }
{
    match policy {
        Policy::Oldest => 0,
        Policy::Sweep => 1,
    }
}

/// All that callers see of the controller, as bytes at the front of the room, and how many they are.
#[unsafe(no_mangle)]
pub extern "C" fn mscp_save_at(handle: &mut Handle, room: &mut [u8], length: &mut usize) -> i32
    ensures code { is_made handle.old ≡ true → result ≡ save_code (saved_by handle.old.held) room.old }
    ensures told { is_made handle.old ≡ true → room.new ≡ room_after (saved_by handle.old.held) room.old }
    ensures count { is_made handle.old ≡ true → length.new ≡ length_told (saved_by handle.old.held) }
    ensures back { is_made handle.old ≡ true → restored_by (saved_by handle.old.held) ≡ Ok handle.old.held }
    ensures same { handle.new ≡ handle.old }
    ensures unmade { is_made handle.old ≡ false
        → (result ≡ NOT_MADE) × (room.new ≡ room.old) × (length.new ≡ length.old) }
{
    if !is_made(handle) {
        return NOT_MADE;
    }
    let controller = lend(handle);
    let number = policy_number(*controller.picker());
    let bytes = save(controller, number);
    tell_saved(room, length, bytes.as_slice())
}

/// The policy that bytes name, or another one where they name none.
fn policy_named(bytes: &[u8]) -> Policy
    ensures { result ≡ policy_named bytes.now }
{
    if bytes.len() > 30 && bytes[30] == 1 {
        Policy::Sweep
    } else {
        Policy::Oldest
    }
}

/// Makes a new controller in the memory of the handle, also in place of one.
#[inline(never)]
fn make_new(handle: &mut Handle, settings: Config, policy: Policy)
    requires { memory_fault handle.old ≡ None }
    ensures { handle.new ≡ placed handle.old (fresh settings policy) }
{
    replace(handle, Controller::new(settings, policy));
}

/// The controller that bytes say is in the memory of the handle, in place of the one that was made there, if one was:
/// on a fault that one goes on. A new one is put there, and resumed where it lies, so that the stack has no room for a
/// whole one.
#[unsafe(no_mangle)]
pub extern "C" fn mscp_restore_at(handle: &mut Handle, bytes: &[u8]) -> i32
    ensures value { (result, handle.new) ≡ restores handle.old bytes.now }
    ensures call { (from : Handle) → restored_by bytes.now ≡ Ok from.held → memory_fault handle.old ≡ None
        → (result ≡ DONE) × AnswersHandle from (calls.Resume bytes.now) handle.new }
{
    if let Some(fault) = memory_fault(handle) {
        return room_code(fault);
    }
    let policy = policy_named(bytes);
    if let Some(fault) = restore_fault(bytes, policy_number(policy), &policy) {
        return restore_code(fault);
    }
    make_new(handle, saved_settings(bytes, &policy), policy);
    resume(lend(handle), bytes);
    DONE
}
