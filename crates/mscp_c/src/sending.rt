// Messages in, ends out.

ghost use Rattle.std.specs.Prelude.{◌≡◌, true, false};
ghost use Rattle.mscp_c.specs.Common.{AnswersHandle};
ghost use Rattle.mscp_memory.specs.ControllerHandles.{is_made};
ghost use Rattle.mscp_c.specs.HandleCalls as calls;

use crate::outs::{PacketOut, SentOut};
use crate::status::{BAD_CONNECTION, DONE, NOT_MADE, NOTHING};
use crate::telling::{tell_packet, tell_sent};
use crate::units::connection_of;
use mscp_memory::controller::{Handle, is_made, lend};

/// Takes a message of the connection's host in.
#[unsafe(no_mangle)]
pub extern "C" fn mscp_send_at(
    handle: &mut Handle,
    connection: u32,
    message: &[u8],
    out: &mut SentOut,
) -> i32
    ensures call { is_made handle.old ≡ true
        → AnswersHandle handle.old (calls.Send connection message.now out.old result out.new) handle.new }
    ensures unmade { is_made handle.old ≡ false
        → (result ≡ NOT_MADE) × (handle.new ≡ handle.old) × (out.new ≡ out.old) }
{
    if !is_made(handle) {
        return NOT_MADE;
    }
    let Some(connection) = connection_of(connection) else {
        return BAD_CONNECTION;
    };
    let answer = lend(handle).send(connection, message);
    tell_sent(out, &answer)
}

/// Takes the oldest end of the connection that wasn't taken.
#[unsafe(no_mangle)]
pub extern "C" fn mscp_take(handle: &mut Handle, connection: u32, out: &mut PacketOut) -> i32
    ensures call { is_made handle.old ≡ true
        → AnswersHandle handle.old (calls.Take connection out.old result out.new) handle.new }
    ensures unmade { is_made handle.old ≡ false
        → (result ≡ NOT_MADE) × (handle.new ≡ handle.old) × (out.new ≡ out.old) }
{
    if !is_made(handle) {
        return NOT_MADE;
    }
    let Some(connection) = connection_of(connection) else {
        return BAD_CONNECTION;
    };
    let Some(end) = lend(handle).take(connection) else {
        return NOTHING;
    };
    tell_packet(out, &end);
    DONE
}
