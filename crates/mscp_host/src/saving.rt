// A host to bytes.

ghost use Rattle.std.specs.Prelude.{◌≡◌, ◌+◌, ◌*◌, ◌≤◌, ◌<◌, ◌^◌, ◌++◌, [], flat_map, length, All, IfSome, Ok};
ghost use Rattle.mscp_host.specs.Common.{array_vec_len, frame_bytes, saved_bytes, submission_bytes, told_bytes, watch_bytes, HasRange, HasSubmissionRange, HasWatchRange, restored};

use crate::host::Host;
use crate::submission::Submission;
use crate::watch::Watch;
use arrayvec::ArrayVec;
use mscp_packet::fields::{put_four, put_two};

/// The most bytes that a host is saved as: a head, and 64 submissions.
pub const ROOM: usize = 794;

/// "MSCH", as a number.
pub(crate) const MAGIC: u32 = 0x4843_534D;

/// The version of the format.
pub(crate) const VERSION: u32 = 1;

/// Appends what was last told of a submission.
fn put_told(out: &mut ArrayVec<u8, ROOM>, told: Option<u32>)
    requires { array_vec_len out.old + 5 ≤ 794 }
    ensures items { out.new.items ≡ out.old.items ++ told_bytes told }
    ensures len { array_vec_len out.new ≡ array_vec_len out.old + 5 }
    ensures range { IfSome told (λ figure. figure < 2 ^ 32) }
{
    match told {
        Some(figure) => {
            out.push(1);
            put_four(out, figure);
        }
        None => {
            out.push(0);
            put_four(out, 0);
        }
    }
}

/// Appends a submission.
fn put_submission(out: &mut ArrayVec<u8, ROOM>, submission: Submission)
    requires { array_vec_len out.old + 12 ≤ 794 }
    ensures items { out.new.items ≡ out.old.items ++ submission_bytes submission }
    ensures len { array_vec_len out.new ≡ array_vec_len out.old + 12 }
    ensures range { HasSubmissionRange submission }
{
    put_four(out, submission.reference);
    put_two(out, submission.unit);
    out.push(submission.opcode);
    put_told(out, submission.told);
}

/// Appends the poll in flight.
fn put_watch(out: &mut ArrayVec<u8, ROOM>, watch: Option<Watch>)
    requires { array_vec_len out.old + 9 ≤ 794 }
    ensures items { out.new.items ≡ out.old.items ++ watch_bytes watch }
    ensures len { array_vec_len out.new ≡ array_vec_len out.old + 9 }
    ensures range { IfSome watch (λ w. HasWatchRange w) }
{
    match watch {
        Some(watch) => {
            out.push(if watch.is_outstanding { 2 } else { 1 });
            put_four(out, watch.reference);
            put_four(out, watch.polled);
        }
        None => {
            out.push(0);
            put_four(out, 0);
            put_four(out, 0);
        }
    }
}

/// Appends what tells how long all is, with so many submissions.
fn put_frame(out: &mut ArrayVec<u8, ROOM>, submissions: usize)
    requires few { submissions ≤ 64 }
    requires start { out.old.items ≡ [] }
    ensures items { out.new.items ≡ frame_bytes submissions }
    ensures len { array_vec_len out.new ≡ 12 }
{
    put_four(out, MAGIC);
    put_four(out, VERSION);
    put_four(out, (26 + 12 * submissions) as u32);
}

/// Appends submissions.
fn put_submissions(out: &mut ArrayVec<u8, ROOM>, submissions: &[Submission])
    requires { array_vec_len out.old + 12 * length submissions.now ≤ 794 }
    ensures items { out.new.items ≡ out.old.items ++ flat_map submission_bytes submissions.now }
    ensures len { array_vec_len out.new ≡ array_vec_len out.old + 12 * length submissions.now }
    ensures range { All HasSubmissionRange submissions.now }
{
    for submission in submissions {
        put_submission(out, *submission);
    }
}

impl Host {
    /// All that it keeps, as bytes, at most `ROOM`, of which `Host::restore` makes it again. What is the same host has
    /// the same bytes.
    pub fn save(&self) -> ArrayVec<u8, ROOM>
        ensures bytes { result.items ≡ saved_bytes self.now }
        ensures range { HasRange self.now }
        ensures back { restored result.items ≡ Ok self.now }
    {
        let submissions = self.outstanding.as_slice();
        let mut out = ArrayVec::new();
        put_frame(&mut out, submissions.len());
        put_four(&mut out, self.credits);
        out.push(submissions.len() as u8);
        put_watch(&mut out, self.watch);
        put_submissions(&mut out, submissions);
        out
    }
}
