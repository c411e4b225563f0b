// The poll in flight.

ghost use Rattle.std.specs.Prelude.{◌≡◌};
ghost use Rattle.mscp_host.specs.Common.{answered, is_about_polled, polled_is_outstanding, watch_after, is_about_somebody, is_polled, is_watched, oldest_of};
ghost use Rattle.mscp_host.specs.Accounts.{told_in};

use crate::outstanding::{find_oldest, has_poll, has_status, is_oldest};
use crate::submission::Submission;
use mscp_packet::{End, EndBody, endcodes};

/// A poll whose end wasn't received.
#[derive(Clone, Copy)]
pub struct Watch {
    /// The poll's own reference number.
    pub reference: u32,
    /// The reference number of the submission that it is about.
    pub polled: u32,
    /// Whether that submission is still outstanding.
    pub is_outstanding: bool,
}

/// The reference number that the end of a GET COMMAND STATUS tells, and its figure.
fn told_in(body: &EndBody) -> Option<(u32, u32)>
    ensures { result ≡ told_in body.now }
{
    match body {
        EndBody::Status { other, figure } => Some((*other, *figure)),
        _ => None,
    }
}

/// What an end tells of a command that was polled: where it is that of the poll in flight, and the poll was served.
pub(crate) fn answered(watch: &Option<Watch>, end: &End) -> Option<(u32, u32)>
    ensures { result ≡ answered watch.now end.now }
{
    match watch {
        Some(watch)
            if watch.reference == end.reference && end.code == endcodes::GET_COMMAND_STATUS => {
            told_in(&end.body)
        }
        _ => None,
    }
}

/// Whether an answer, if it is one, is about the command that was polled.
pub(crate) fn is_about_polled(watch: &Option<Watch>, answer: &Option<(u32, u32)>) -> bool
    ensures { result ≡ is_about_polled watch.now answer.now }
{
    match (watch, answer) {
        (_, None) => true,
        (None, Some(_)) => false,
        (Some(watch), Some((number, _))) => watch.polled == *number,
    }
}

/// Whether the polled submission is still outstanding.
pub(crate) fn polled_is_outstanding(watch: &Option<Watch>) -> bool
    ensures { result ≡ polled_is_outstanding watch.now }
{
    match watch {
        Some(watch) => watch.is_outstanding,
        None => false,
    }
}

/// The poll in flight, once the end of the command of this reference number was received.
pub(crate) fn watch_after(watch: Option<Watch>, reference: u32) -> Option<Watch>
    ensures { result ≡ watch_after watch reference }
{
    match watch {
        Some(watch) if watch.reference == reference => None,
        Some(watch) if watch.polled == reference => Some(Watch {
            is_outstanding: false,
            ..watch
        }),
        _ => watch,
    }
}

/// Whether a poll of this number, to the unit of the oldest command, is outstanding.
fn is_polled(submissions: &[Submission], reference: u32) -> bool
    ensures { result ≡ is_polled reference submissions.now (oldest_of submissions.now) }
{
    match find_oldest(submissions).copied() {
        Some(oldest) => has_poll(submissions, reference, oldest.unit),
        None => false,
    }
}

/// Whether a poll is about the oldest command, and to its unit; or about one that is outstanding no more, and that
/// isn't the poll itself.
fn is_about_somebody(submissions: &[Submission], watch: &Watch) -> bool
    ensures { result ≡ is_about_somebody submissions.now watch.now }
{
    if watch.is_outstanding {
        is_oldest(submissions, watch.polled) && is_polled(submissions, watch.reference)
    } else {
        watch.polled != watch.reference
    }
}

/// Whether the own GET COMMAND STATUS of the poll in flight is outstanding, and it is about somebody; or there is none.
pub(crate) fn is_watched(submissions: &[Submission], watch: &Option<Watch>) -> bool
    ensures { result ≡ is_watched submissions.now watch.now }
{
    match watch {
        Some(watch) => {
            has_status(submissions, watch.reference) && is_about_somebody(submissions, watch)
        }
        None => true,
    }
}
