// Bytes to a host.

ghost use Rattle.std.specs.Prelude.{◌≡◌, ◌*◌, ◌≤◌, length, IfOk, None};
ghost use Rattle.mscp_host.specs.Common.{parts_in, account_fault, account_in, count_in, is_framed, head_fault, outstanding_in, restored, submission_in, watch_in, saved_bytes};
ghost use Rattle.mscp_host.specs.Restored.{told_in};

use crate::host::Host;
use crate::outstanding::{are_apart, are_told, waiting};
use crate::saving::{MAGIC, VERSION};
use crate::submission::Submission;
use crate::watch::{Watch, is_watched};
use arrayvec::ArrayVec;
use mscp_packet::fields::{four_at, two_at};
use thiserror::Error;

/// Why bytes are no saved host: the first that holds, in this order.
#[derive(Clone, Copy, Debug, Error)]
pub enum RestoreFault {
    /// Fewer bytes than a head has, or not as many as the head tells, or not as many as its parts take.
    #[error("length")]
    Length,
    /// They don't begin with "MSCH".
    #[error("magic")]
    Magic,
    /// A version of the format that isn't known.
    #[error("version")]
    Version,
    /// The credits aren't 2 to 64.
    #[error("credits")]
    Credits,
    /// More outstanding submissions than credits, or no credit kept for commands that are answered when they arrive.
    #[error("outstanding")]
    Outstanding,
    /// Two outstanding submissions of one reference number.
    #[error("doubled")]
    Doubled,
    /// A poll in flight whose own GET COMMAND STATUS isn't outstanding, or isn't to the unit of the polled command; or
    /// that is about nobody: about a command that is said to be outstanding, and isn't the oldest that isn't answered
    /// when it arrives, or about itself. Or a figure that was told of another command than the oldest.
    #[error("poll")]
    Poll,
    /// The bytes say a host, and aren't those that it is saved as.
    #[error("form")]
    Form,
}

/// What was last told.
fn told_in(flag: u8, figure: u32) -> Option<u32>
    ensures { result ≡ told_in flag figure }
{
    if flag == 0 { None } else { Some(figure) }
}

/// The submission in the bytes of one.
fn submission_in(b: &[u8]) -> Submission
    requires { 12 ≤ length b.now }
    ensures { result ≡ submission_in b.now }
{
    Submission {
        reference: four_at(b, 0),
        unit: two_at(b, 4),
        opcode: b[6],
        told: told_in(b[7], four_at(b, 8)),
    }
}

/// So many submissions, one behind the other.
fn submissions_in(count: usize, b: &[u8]) -> ArrayVec<Submission, 64>
    requires few { count ≤ 64 }
    requires there { 12 * count ≤ length b.now }
    ensures value { result.items ≡ parts_in submission_in 12 count b.now }
    ensures len { length result.items ≡ count }
{
    let mut out = ArrayVec::new();
    for place in 0..count {
        out.push(submission_in(&b[12 * place..]));
    }
    out
}

/// The poll in flight.
fn watch_in(kind: u8, reference: u32, polled: u32) -> Option<Watch>
    ensures { result ≡ watch_in kind reference polled }
{
    if kind == 0 {
        return None;
    }
    Some(Watch {
        reference,
        polled,
        is_outstanding: kind == 2,
    })
}

/// Whether there is a head, and as many bytes as it tells, which are those of the parts that it tells.
fn is_framed(b: &[u8]) -> bool
    ensures { result ≡ is_framed b.now }
{
    26 <= b.len() && four_at(b, 8) as usize == b.len() && 26 + 12 * usize::from(b[16]) == b.len()
}

/// Why bytes have no head of a saved host, or one of more than a host holds, if so.
fn head_fault(b: &[u8]) -> Option<RestoreFault>
    ensures { result ≡ head_fault b.now }
{
    if !is_framed(b) {
        return Some(RestoreFault::Length);
    }
    if four_at(b, 0) != MAGIC {
        return Some(RestoreFault::Magic);
    }
    if four_at(b, 4) != VERSION {
        return Some(RestoreFault::Version);
    }
    let credits = four_at(b, 12);
    if !(2..=64).contains(&credits) {
        return Some(RestoreFault::Credits);
    }
    if credits < u32::from(b[16]) {
        return Some(RestoreFault::Outstanding);
    }
    None
}

/// The outstanding submissions that bytes with the head of a host say.
fn outstanding_in(b: &[u8]) -> ArrayVec<Submission, 64>
    requires { head_fault b.now ≡ None }
    ensures value { result.items ≡ outstanding_in b.now }
    ensures len { length result.items ≡ count_in b.now }
{
    submissions_in(usize::from(b[16]), &b[26..])
}

/// The poll in flight that bytes with the head of a host say.
fn poll_in(b: &[u8]) -> Option<Watch>
    requires { head_fault b.now ≡ None }
    ensures { result ≡ (account_in b.now).watch }
{
    watch_in(b[17], four_at(b, 18), four_at(b, 22))
}

/// Why no host has these credits, outstanding submissions and poll in flight, if none has.
#[inline(never)]
fn account_fault(
    credits: u32,
    outstanding: &[Submission],
    watch: &Option<Watch>,
) -> Option<RestoreFault>
    ensures { result
        ≡ account_fault (record { credits = credits; outstanding = outstanding.now; watch = watch.now }) }
{
    if waiting(outstanding) >= credits as usize {
        return Some(RestoreFault::Outstanding);
    }
    if !are_apart(outstanding) {
        return Some(RestoreFault::Doubled);
    }
    if !is_watched(outstanding, watch) || !are_told(outstanding) {
        return Some(RestoreFault::Poll);
    }
    None
}

/// The host that bytes with the head of one say, with these outstanding submissions and this poll in flight.
fn host_in(b: &[u8], outstanding: ArrayVec<Submission, 64>, watch: Option<Watch>) -> Host
    requires head { head_fault b.now ≡ None }
    requires said { outstanding.items ≡ outstanding_in b.now }
    requires len { length outstanding.items ≡ count_in b.now }
    requires poll { watch ≡ (account_in b.now).watch }
    requires account { account_fault (account_in b.now) ≡ None }
    ensures { result ≡ account_in b.now }
{
    Host {
        credits: four_at(b, 12),
        outstanding,
        watch,
    }
}

impl Host {
    /// The host that bytes say, if they are the bytes that it is saved as. What it heard before is nobody's to say but
    /// theirs who saved it; it is a host whatever the bytes were.
    ///
    /// # Errors
    ///
    /// The first fault, in the order of `RestoreFault`, if they aren't.
    #[inline(always)]
    pub fn restore(b: &[u8]) -> Result<Host, RestoreFault>
        ensures value { result ≡ restored b.now }
        ensures only { IfOk result (λ host. saved_bytes host ≡ b.now) }
    {
        if let Some(fault) = head_fault(b) {
            return Err(fault);
        }
        let outstanding = outstanding_in(b);
        let watch = poll_in(b);
        if let Some(fault) = account_fault(four_at(b, 12), outstanding.as_slice(), &watch) {
            return Err(fault);
        }
        let host = host_in(b, outstanding, watch);
        if host.save().as_slice() == b {
            Ok(host)
        } else {
            Err(RestoreFault::Form)
        }
    }
}
