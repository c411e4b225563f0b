// What a port wants done, and how that went.

ghost use Rattle.std.specs.Prelude.{◌≡◌, true, false};
ghost use Rattle.mscp_c.specs.Common.{TellsWanted};
ghost use Rattle.mscp_c.specs.PortHandleCalls as calls;
ghost use Rattle.mscp_c.specs.PortHandleCalls.{AnswersHandle};
ghost use Rattle.mscp_memory.specs.PortHandles.{is_made};

use crate::outs::ActionOut;
use crate::port_given::outcome_of;
use crate::port_telling::tell_action;
use crate::status::{BAD_OUTCOME, NOT_MADE, told_code};
use mscp_memory::port::{Handle, is_made, lend};
use mscp_port::Ask;

/// What the port wants done next, of what it is asked for.
fn tell_next(handle: &mut Handle, out: &mut ActionOut, ask: Ask) -> i32
    ensures wanted { is_made handle.old ≡ true → TellsWanted ask handle.old out.old result handle.new out.new }
    ensures unmade { is_made handle.old ≡ false
        → (result ≡ NOT_MADE) × (handle.new ≡ handle.old) × (out.new ≡ out.old) }
{
    if !is_made(handle) {
        return NOT_MADE;
    }
    let port = lend(handle);
    let action = port.next(ask);
    tell_action(out, port, action)
}

/// What the port wants done next.
#[unsafe(no_mangle)]
pub extern "C" fn mscp_port_next(handle: &mut Handle, out: &mut ActionOut) -> i32
    ensures call { is_made handle.old ≡ true → AnswersHandle handle.old (calls.Next out.old result out.new) handle.new }
    ensures unmade { is_made handle.old ≡ false
        → (result ≡ NOT_MADE) × (handle.new ≡ handle.old) × (out.new ≡ out.old) }
{
    tell_next(handle, out, Ask::All)
}

/// What the port wants done next beside blocks, while one takes its time.
#[unsafe(no_mangle)]
pub extern "C" fn mscp_port_next_message(handle: &mut Handle, out: &mut ActionOut) -> i32
    ensures call { is_made handle.old ≡ true
        → AnswersHandle handle.old (calls.NextMessage out.old result out.new) handle.new }
    ensures unmade { is_made handle.old ≡ false
        → (result ≡ NOT_MADE) × (handle.new ≡ handle.old) × (out.new ≡ out.old) }
{
    tell_next(handle, out, Ask::Messages)
}

/// These bytes were read in host memory, as the port wanted.
#[unsafe(no_mangle)]
pub extern "C" fn mscp_port_was_read_at(handle: &mut Handle, bytes: &[u8]) -> i32
    ensures call { is_made handle.old ≡ true → AnswersHandle handle.old (calls.WasRead bytes.now result) handle.new }
    ensures unmade { is_made handle.old ≡ false → (result ≡ NOT_MADE) × (handle.new ≡ handle.old) }
{
    if !is_made(handle) {
        return NOT_MADE;
    }
    told_code(lend(handle).was_read(bytes))
}

/// What the port wanted went so: by this number, and by this status where its block couldn't be moved.
#[unsafe(no_mangle)]
pub extern "C" fn mscp_port_went(handle: &mut Handle, outcome: u32, status: u16) -> i32
    ensures call { is_made handle.old ≡ true → AnswersHandle handle.old (calls.Went outcome status result) handle.new }
    ensures unmade { is_made handle.old ≡ false → (result ≡ NOT_MADE) × (handle.new ≡ handle.old) }
{
    if !is_made(handle) {
        return NOT_MADE;
    }
    let Some(outcome) = outcome_of(outcome, status) else {
        return BAD_OUTCOME;
    };
    told_code(lend(handle).went(outcome))
}

/// The block of this serial went so, if the port wants that now.
#[unsafe(no_mangle)]
pub extern "C" fn mscp_port_went_by(
    handle: &mut Handle,
    serial: u64,
    outcome: u32,
    status: u16,
) -> i32
    ensures call { is_made handle.old ≡ true
        → AnswersHandle handle.old (calls.WentBy serial outcome status result) handle.new }
    ensures unmade { is_made handle.old ≡ false → (result ≡ NOT_MADE) × (handle.new ≡ handle.old) }
{
    if !is_made(handle) {
        return NOT_MADE;
    }
    let Some(outcome) = outcome_of(outcome, status) else {
        return BAD_OUTCOME;
    };
    told_code(lend(handle).went_by(serial, outcome))
}
