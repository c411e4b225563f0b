// The list of the outstanding submissions.

ghost use Rattle.std.specs.Prelude.{◌≡◌, ◌≤◌, length, find, option_copied};
ghost use Rattle.mscp_host.specs.Common.{list_any, position, are_apart, has_reference, last_told, with_told, without, waiting, are_told, is_oldest, is_poll, is_status, oldest_of};

use crate::submission::Submission;
use arrayvec::ArrayVec;
use mscp_packet::{is_immediate, opcodes};

/// Whether one of the submissions has the reference number.
pub(crate) fn has_any(submissions: &[Submission], reference: u32) -> bool
    ensures { result ≡ list_any (has_reference reference) submissions.now }
{
    submissions
        .iter()
        .any(|submission| submission.reference == reference)
}

/// Whether no two of the submissions have one reference number.
pub(crate) fn are_apart(submissions: &[Submission]) -> bool
    ensures { result ≡ are_apart submissions.now }
{
    for place in 0..submissions.len() {
        if has_any(&submissions[place + 1..], submissions[place].reference) {
            return false;
        }
    }
    true
}

/// The submission of this reference number, if there is one.
pub(crate) fn find_reference(submissions: &[Submission], reference: u32) -> Option<&Submission>
    ensures { option_copied result ≡ find (has_reference reference) submissions.now }
{
    submissions
        .iter()
        .find(|submission| submission.reference == reference)
}

/// The first submission that isn't answered when it arrives.
pub(crate) fn find_oldest(submissions: &[Submission]) -> Option<&Submission>
    ensures { option_copied result ≡ oldest_of submissions.now }
{
    submissions
        .iter()
        .find(|submission| !is_immediate(submission.opcode))
}

/// Whether the oldest of the commands that aren't answered when they arrive has this number.
pub(crate) fn is_oldest(submissions: &[Submission], reference: u32) -> bool
    ensures { result ≡ is_oldest reference submissions.now }
{
    match find_oldest(submissions).copied() {
        Some(submission) => submission.reference == reference,
        None => false,
    }
}

/// How many of the submissions aren't answered when they arrive.
pub(crate) fn waiting(submissions: &[Submission]) -> usize
    ensures { result ≡ length (waiting submissions.now) }
{
    submissions
        .iter()
        .filter(|submission| !is_immediate(submission.opcode))
        .count()
}

/// Whether a figure was told of no other command than the oldest of those that aren't answered when they arrive.
pub(crate) fn are_told(submissions: &[Submission]) -> bool
    ensures { result ≡ are_told submissions.now }
{
    submissions.iter().all(|submission| submission.told.is_none()
        || is_oldest(submissions, submission.reference))
}

/// Whether one of the submissions is a GET COMMAND STATUS of this number to this unit.
pub(crate) fn has_poll(submissions: &[Submission], reference: u32, unit: u16) -> bool
    ensures { result ≡ list_any (is_poll reference unit) submissions.now }
{
    submissions.iter().any(|submission| submission.reference == reference
        && submission.opcode == opcodes::GET_COMMAND_STATUS
        && submission.unit == unit)
}

/// Whether one of the submissions is the GET COMMAND STATUS of this number.
pub(crate) fn has_status(submissions: &[Submission], reference: u32) -> bool
    ensures { result ≡ list_any (is_status reference) submissions.now }
{
    submissions.iter().any(|submission| submission.reference == reference
        && submission.opcode == opcodes::GET_COMMAND_STATUS)
}

/// The place of the submission of this reference number, if there is one.
fn place_of(submissions: &[Submission], reference: u32) -> Option<usize>
    ensures { result ≡ position (has_reference reference) submissions.now }
{
    submissions
        .iter()
        .position(|submission| submission.reference == reference)
}

/// The figure that was last told of the command of this reference number, if there is one.
pub(crate) fn last_told(submissions: &[Submission], reference: u32) -> Option<u32>
    ensures { result ≡ last_told submissions.now reference }
{
    find_reference(submissions, reference).copied()?.told
}

/// Keeps the figure that was told of the submission of this reference number, if there is one.
pub(crate) fn set_told(submissions: &mut [Submission], reference: u32, figure: u32)
    ensures { submissions.new ≡ with_told reference figure submissions.old }
{
    if let Some(place) = place_of(submissions, reference) {
        let told = Submission {
            told: Some(figure),
            ..submissions[place]
        };
        submissions[place] = told;
    }
}

/// Removes the submission of this reference number, if there is one.
pub(crate) fn remove(submissions: &mut ArrayVec<Submission, 64>, reference: u32)
    ensures after { submissions.new.items ≡ without reference submissions.old.items }
    ensures fewer { length submissions.new.items ≤ length submissions.old.items }
{
    if let Some(place) = place_of(submissions.as_slice(), reference) {
        submissions.remove(place);
    }
}
