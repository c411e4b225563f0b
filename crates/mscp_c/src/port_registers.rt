// The registers of a port.
#![tactic(auto, using(crate::proofs::Lent::lent_back))]

ghost use Rattle.std.specs.Prelude.{◌≡◌, true, false};
ghost use Rattle.mscp_c.specs.PortHandleCalls as calls;
ghost use Rattle.mscp_c.specs.PortHandleCalls.{AnswersHandle};
ghost use Rattle.mscp_memory.specs.PortHandles.{is_made};

use crate::status::{DONE, NOT_MADE};
use mscp_memory::port::{Handle, is_made, lend};

/// The host reads IP, which shows 0.
#[unsafe(no_mangle)]
pub extern "C" fn mscp_port_read_ip(handle: &mut Handle) -> i32
    ensures call { is_made handle.old ≡ true → AnswersHandle handle.old (calls.ReadIp result) handle.new }
    ensures unmade { is_made handle.old ≡ false → (result ≡ NOT_MADE) × (handle.new ≡ handle.old) }
{
    if !is_made(handle) {
        return NOT_MADE;
    }
    lend(handle).read_ip();
    DONE
}

/// The host writes IP, whatever it writes there, or its bus is reset.
#[unsafe(no_mangle)]
pub extern "C" fn mscp_port_write_ip(handle: &mut Handle) -> i32
    ensures call { is_made handle.old ≡ true → AnswersHandle handle.old (calls.WriteIp result) handle.new }
    ensures unmade { is_made handle.old ≡ false → (result ≡ NOT_MADE) × (handle.new ≡ handle.old) }
{
    if !is_made(handle) {
        return NOT_MADE;
    }
    lend(handle).write_ip();
    DONE
}

/// What SA shows.
#[unsafe(no_mangle)]
pub extern "C" fn mscp_port_read_sa(handle: &mut Handle) -> i32
    ensures call { is_made handle.old ≡ true → AnswersHandle handle.old (calls.ReadSa result) handle.new }
    ensures same { handle.new ≡ handle.old }
    ensures unmade { is_made handle.old ≡ false → result ≡ NOT_MADE }
{
    if !is_made(handle) {
        return NOT_MADE;
    }
    i32::from(lend(handle).read_sa())
}

/// The host writes this word to SA.
#[unsafe(no_mangle)]
pub extern "C" fn mscp_port_write_sa(handle: &mut Handle, word: u16) -> i32
    ensures call { is_made handle.old ≡ true → AnswersHandle handle.old (calls.WriteSa word result) handle.new }
    ensures unmade { is_made handle.old ≡ false → (result ≡ NOT_MADE) × (handle.new ≡ handle.old) }
{
    if !is_made(handle) {
        return NOT_MADE;
    }
    lend(handle).write_sa(word);
    DONE
}
