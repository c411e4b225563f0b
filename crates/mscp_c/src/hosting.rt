// The calls of a host.
#![tactic(auto, using(crate::proofs::Lent::lent_back))]

ghost use Rattle.std.specs.Prelude.{◌≡◌, true, false};
ghost use Rattle.mscp_c.specs.Common.{message_read};
ghost use Rattle.mscp_memory.specs.HostHandles.{is_made, row_alignment, row_size};
ghost use Rattle.mscp_c.specs.HostHandleCalls as calls;
ghost use Rattle.mscp_c.specs.HostHandleCalls.{AnswersHandle};
ghost use Rattle.mscp_c.specs.Hosted.{inits};

use crate::hearing::{tell_news, tell_poll};
use crate::outs::{NewsOut, PacketOut};
use crate::status::{DONE, LONG, NOT_MADE, SHORT, host_code, room_code};
use mscp_host::Host;
use mscp_memory::host::{ALIGN, Handle, SIZE, is_made, lend, place, room_fault};
use mscp_packet::{Command, PacketFault, read_command};

/// How many bytes a host takes.
#[unsafe(no_mangle)]
pub extern "C" fn mscp_host_size() -> usize
    ensures { result ≡ row_size }
{
    SIZE
}

/// What the address of a host is a multiple of.
#[unsafe(no_mangle)]
pub extern "C" fn mscp_host_align() -> usize
    ensures { result ≡ row_alignment }
{
    ALIGN
}

/// Makes a host of so many credits in the room that the handle has.
#[unsafe(no_mangle)]
pub extern "C" fn mscp_host_init_at(handle: &mut Handle, credits: u32) -> i32
    ensures { (result, handle.new) ≡ inits handle.old credits }
{
    if let Some(fault) = room_fault(handle) {
        return room_code(fault);
    }
    match Host::new(credits) {
        Ok(host) => {
            place(handle, host);
            DONE
        }
        Err(fault) => host_code(fault),
    }
}

/// How many credits are free.
#[unsafe(no_mangle)]
pub extern "C" fn mscp_host_balance(handle: &mut Handle) -> i64
    ensures call { is_made handle.old ≡ true → AnswersHandle handle.old (calls.Balance result) handle.new }
    ensures same { handle.new ≡ handle.old }
    ensures unmade { is_made handle.old ≡ false → result ≡ NOT_MADE }
{
    if !is_made(handle) {
        return i64::from(NOT_MADE);
    }
    i64::from(lend(handle).balance())
}

/// The command that a message is.
pub(crate) fn message_in(message: &[u8]) -> Result<Command, PacketFault>
    ensures { result ≡ message_read message.now }
{
    read_command(message)
}

/// A message is to be sent: from now on its command is outstanding, or it may not be sent.
#[unsafe(no_mangle)]
pub extern "C" fn mscp_host_submit_at(handle: &mut Handle, message: &[u8]) -> i32
    ensures call { is_made handle.old ≡ true → AnswersHandle handle.old (calls.Submit message.now result) handle.new }
    ensures unmade { is_made handle.old ≡ false → (result ≡ NOT_MADE) × (handle.new ≡ handle.old) }
{
    if !is_made(handle) {
        return NOT_MADE;
    }
    let command = match message_in(message) {
        Ok(command) => command,
        Err(PacketFault::Short) => return SHORT,
        Err(PacketFault::Long) => return LONG,
    };
    match lend(handle).submit(&command) {
        Ok(_) => DONE,
        Err(fault) => host_code(fault),
    }
}

/// What there is to do to poll the oldest command that isn't answered when it arrives.
#[unsafe(no_mangle)]
pub extern "C" fn mscp_host_poll(handle: &mut Handle, reference: u32, out: &mut PacketOut) -> i32
    ensures call { is_made handle.old ≡ true
        → AnswersHandle handle.old (calls.Poll reference out.old result out.new) handle.new }
    ensures unmade { is_made handle.old ≡ false
        → (result ≡ NOT_MADE) × (handle.new ≡ handle.old) × (out.new ≡ out.old) }
{
    if !is_made(handle) {
        return NOT_MADE;
    }
    let answer = lend(handle).poll(reference);
    tell_poll(out, &answer)
}

/// What an end says that was received.
#[unsafe(no_mangle)]
pub extern "C" fn mscp_host_receive_at(handle: &mut Handle, bytes: &[u8], out: &mut NewsOut) -> i32
    ensures call { is_made handle.old ≡ true
        → AnswersHandle handle.old (calls.Receive bytes.now out.old result out.new) handle.new }
    ensures unmade { is_made handle.old ≡ false
        → (result ≡ NOT_MADE) × (handle.new ≡ handle.old) × (out.new ≡ out.old) }
{
    if !is_made(handle) {
        return NOT_MADE;
    }
    let answer = lend(handle).receive(bytes);
    tell_news(out, &answer)
}
