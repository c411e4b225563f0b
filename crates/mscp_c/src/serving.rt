// The drive's work: what comes next, and how it went.

ghost use Rattle.std.specs.Prelude.{◌≡◌, true, false};
ghost use Rattle.mscp_c.specs.Common.{AnswersHandle};
ghost use Rattle.mscp_memory.specs.ControllerHandles.{is_made};
ghost use Rattle.mscp_c.specs.HandleCalls as calls;

use crate::outs::{ReportOut, UpcomingOut};
use crate::status::{BAD_CONNECTION, BAD_STATUS, NOT_BEGUN, NOT_MADE};
use crate::telling::{block_of, tell_report, tell_upcoming};
use crate::units::connection_of;
use mscp_memory::controller::{Handle, is_made, lend};

/// What the next step serves.
#[unsafe(no_mangle)]
pub extern "C" fn mscp_begin(handle: &mut Handle, out: &mut UpcomingOut) -> i32
    ensures call { is_made handle.old ≡ true
        → AnswersHandle handle.old (calls.Begin out.old result out.new) handle.new }
    ensures unmade { is_made handle.old ≡ false
        → (result ≡ NOT_MADE) × (handle.new ≡ handle.old) × (out.new ≡ out.old) }
{
    if !is_made(handle) {
        return NOT_MADE;
    }
    let upcoming = lend(handle).begin();
    tell_upcoming(out, &upcoming, 0)
}

/// The step of the connection's command of this reference number, where it is begun: its block had this status.
#[unsafe(no_mangle)]
pub extern "C" fn mscp_finish(
    handle: &mut Handle,
    connection: u32,
    reference: u32,
    status: u16,
    out: &mut ReportOut,
) -> i32
    ensures call { is_made handle.old ≡ true
        → AnswersHandle handle.old (calls.Finish connection reference status out.old result out.new) handle.new }
    ensures unmade { is_made handle.old ≡ false
        → (result ≡ NOT_MADE) × (handle.new ≡ handle.old) × (out.new ≡ out.old) }
{
    if !is_made(handle) {
        return NOT_MADE;
    }
    let Some(connection) = connection_of(connection) else {
        return BAD_CONNECTION;
    };
    let Some(block) = block_of(status) else {
        return BAD_STATUS;
    };
    match lend(handle).finish(connection, reference, block) {
        Ok(report) => tell_report(out, &report),
        Err(_) => NOT_BEGUN,
    }
}

/// Serves one block, which had this status.
#[unsafe(no_mangle)]
pub extern "C" fn mscp_step(handle: &mut Handle, status: u16, out: &mut ReportOut) -> i32
    ensures call { is_made handle.old ≡ true
        → AnswersHandle handle.old (calls.Step status out.old result out.new) handle.new }
    ensures unmade { is_made handle.old ≡ false
        → (result ≡ NOT_MADE) × (handle.new ≡ handle.old) × (out.new ≡ out.old) }
{
    if !is_made(handle) {
        return NOT_MADE;
    }
    let Some(block) = block_of(status) else {
        return BAD_STATUS;
    };
    let report = lend(handle).step(block);
    tell_report(out, &report)
}
