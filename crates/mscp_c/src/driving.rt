// The calls of a driver's account of its port.
#![tactic(auto, using(crate::proofs::Lent::lent_back))]

ghost use Rattle.std.specs.Prelude.{◌≡◌, true, false};
ghost use Rattle.mscp_memory.specs.DriverHandles.{is_made, row_alignment, row_size};
ghost use Rattle.mscp_c.specs.Driven.{driver_hears, driver_inits, watch_told};
ghost use Rattle.mscp_c.specs.DriverHandleCalls as calls;
ghost use Rattle.mscp_c.specs.DriverHandleCalls.{AnswersHandle};

use crate::hearing::tell_poll;
use crate::heeding::{code_of_advice, tell_asked, tell_heard};
use crate::hosting::message_in;
use crate::outs::{HeardOut, PacketOut};
use crate::status::{DONE, LONG, NOT_MADE, SHORT, host_code, room_code};
use mscp_host::{Asked, Envelope, HearFault, Heard, Host, PortHost, Watch};
use mscp_memory::driver::{ALIGN, Handle, SIZE, is_made, lend, place, room_fault};
use mscp_packet::PacketFault;

/// How many bytes a driver's account takes.
#[unsafe(no_mangle)]
pub extern "C" fn mscp_driver_size() -> usize
    ensures { result ≡ row_size }
{
    SIZE
}

/// What the address of a driver's account is a multiple of.
#[unsafe(no_mangle)]
pub extern "C" fn mscp_driver_align() -> usize
    ensures { result ≡ row_alignment }
{
    ALIGN
}

/// Makes an account of one credit in the room that the handle has.
#[unsafe(no_mangle)]
pub extern "C" fn mscp_driver_init_at(handle: &mut Handle) -> i32
    ensures { (result, handle.new) ≡ driver_inits handle.old }
{
    if let Some(fault) = room_fault(handle) {
        return room_code(fault);
    }
    place(handle, Host::of_port());
    DONE
}

/// How many credits are free.
#[unsafe(no_mangle)]
pub extern "C" fn mscp_driver_credits(handle: &mut Handle) -> i64
    ensures call { is_made handle.old ≡ true → AnswersHandle handle.old (calls.Credits result) handle.new }
    ensures same { handle.new ≡ handle.old }
    ensures unmade { is_made handle.old ≡ false → result ≡ NOT_MADE }
{
    if !is_made(handle) {
        return i64::from(NOT_MADE);
    }
    i64::from(lend(handle).credits())
}

/// A message is to be sent: from now on its command is outstanding, or it may not be sent.
#[unsafe(no_mangle)]
pub extern "C" fn mscp_driver_submit_at(handle: &mut Handle, message: &[u8]) -> i32
    ensures call { is_made handle.old ≡ true → AnswersHandle handle.old (calls.Submit message.now result) handle.new }
    ensures unmade { is_made handle.old ≡ false → (result ≡ NOT_MADE) × (handle.new ≡ handle.old) }
{
    if !is_made(handle) {
        return NOT_MADE;
    }
    let command = match message_in(message) {
        Ok(command) => command,
        Err(PacketFault::Short) => return SHORT,
        Err(PacketFault::Long) => return LONG,
    };
    match lend(handle).submit(&command) {
        Ok(_) => DONE,
        Err(fault) => host_code(fault),
    }
}

/// What there is to do to poll the oldest command that isn't answered when it arrives.
#[unsafe(no_mangle)]
pub extern "C" fn mscp_driver_poll(handle: &mut Handle, reference: u32, out: &mut PacketOut) -> i32
    ensures call { is_made handle.old ≡ true
        → AnswersHandle handle.old (calls.Poll reference out.old result out.new) handle.new }
    ensures unmade { is_made handle.old ≡ false
        → (result ≡ NOT_MADE) × (handle.new ≡ handle.old) × (out.new ≡ out.old) }
{
    if !is_made(handle) {
        return NOT_MADE;
    }
    let answer = lend(handle).poll(reference);
    tell_poll(out, &answer)
}

/// What an envelope and the text behind it say.
fn hear(host: &mut PortHost, bytes: &[u8]) -> Result<Heard, HearFault>
    ensures { (result, host.new) ≡ driver_hears host.old bytes.now }
{
    if bytes.len() < 4 {
        return Err(HearFault::Cut);
    }
    host.hear(&Envelope::read(bytes), &bytes[4..])
}

/// A watch is told what was heard.
fn tell_watch(watch: &mut Watch, answer: &Result<Heard, HearFault>)
    ensures { watch.new ≡ watch_told answer.now watch.old }
{
    if let Ok(heard) = answer {
        watch.heard(heard);
    }
}

/// What a message from the port says: its envelope, and the text behind it.
#[unsafe(no_mangle)]
pub extern "C" fn mscp_driver_hear_at(
    handle: &mut Handle,
    watch: &mut Watch,
    bytes: &[u8],
    out: &mut HeardOut,
) -> i32
    ensures call { is_made handle.old ≡ true
        → AnswersHandle handle.old (calls.Hear bytes.now watch.old out.old result watch.new out.new) handle.new }
    ensures unmade { is_made handle.old ≡ false
        → (result ≡ NOT_MADE) × (handle.new ≡ handle.old) × (watch.new ≡ watch.old) × (out.new ≡ out.old) }
{
    if !is_made(handle) {
        return NOT_MADE;
    }
    let answer = hear(lend(handle), bytes);
    tell_watch(watch, &answer);
    tell_heard(out, &answer)
}

/// A tick of the driver's timer: whether it is to poll, or to reset the port.
#[unsafe(no_mangle)]
pub extern "C" fn mscp_driver_tick(handle: &mut Handle, watch: &mut Watch) -> i32
    ensures call { is_made handle.old ≡ true
        → AnswersHandle handle.old (calls.Tick watch.old result watch.new) handle.new }
    ensures same { handle.new ≡ handle.old }
    ensures unmade { is_made handle.old ≡ false → (result ≡ NOT_MADE) × (watch.new ≡ watch.old) }
{
    if !is_made(handle) {
        return NOT_MADE;
    }
    let advice = watch.tick(lend(handle));
    code_of_advice(&advice)
}

/// The commands whose ends weren't heard, in the order of sending, as many as there is room for: how many there are.
#[unsafe(no_mangle)]
pub extern "C" fn mscp_driver_outstanding_at(handle: &mut Handle, out: &mut [Asked]) -> i32
    ensures call { is_made handle.old ≡ true
        → AnswersHandle handle.old (calls.Outstanding out.old result out.new) handle.new }
    ensures same { handle.new ≡ handle.old }
    ensures unmade { is_made handle.old ≡ false → (result ≡ NOT_MADE) × (out.new ≡ out.old) }
{
    if !is_made(handle) {
        return NOT_MADE;
    }
    let list = lend(handle).outstanding();
    tell_asked(out, list);
    list.len() as i32
}
