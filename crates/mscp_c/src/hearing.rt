// How what a host answers is told.

ghost use Rattle.std.specs.Prelude.{◌≡◌};
ghost use Rattle.mscp_c.specs.Hosted.{PollTold, ended_told, figure_told, moved_in, news_code, news_told, poll_code};

use crate::outs::{NewsOut, PacketOut};
use crate::status::{
    BUSY, DONE, ENDED, FIRST, LATE, LOST, NO_PROGRESS, NOTHING, PROGRESS, host_code,
};
use crate::telling::tell_packet;
use mscp_host::{HostFault, News, Poll};
use mscp_packet::{End, EndBody};

/// Tells what there is to do for a poll.
pub(crate) fn tell_poll(out: &mut PacketOut, answer: &Result<Poll, HostFault>) -> i32
    ensures code { result ≡ poll_code answer.now }
    ensures told { PollTold answer.now out.old out.new }
{
    match answer {
        Ok(Poll::Ask(message)) => {
            tell_packet(out, message);
            DONE
        }
        Ok(Poll::Nothing) => NOTHING,
        Ok(Poll::Busy) => BUSY,
        Err(fault) => host_code(*fault),
    }
}

/// The bytes that a transfer moved, 0 in any other end.
fn moved_in(body: &EndBody) -> u32
    ensures { result ≡ moved_in body.now }
{
    match *body {
        EndBody::Moved(bytes) => bytes,
        _ => 0,
    }
}

/// What is told of an end.
fn of_end(end: &End) -> NewsOut
    ensures { result ≡ ended_told end.now }
{
    NewsOut {
        figure: 0,
        reference: end.reference,
        moved: moved_in(&end.body),
        unit: end.unit,
        status: end.status,
        code: end.code,
    }
}

/// What is told of a figure.
fn of_figure(figure: u32) -> NewsOut
    ensures { result ≡ figure_told figure }
{
    NewsOut {
        figure,
        reference: 0,
        moved: 0,
        unit: 0,
        status: 0,
        code: 0,
    }
}

/// Tells what a received end says.
pub(crate) fn tell_news(out: &mut NewsOut, answer: &Result<News, HostFault>) -> i32
    ensures code { result ≡ news_code answer.now }
    ensures told { out.new ≡ news_told answer.now out.old }
{
    match answer {
        Ok(news) => {
            let (told, status) = match news {
                News::Ended(end) => (of_end(end), ENDED),
                News::First(figure) => (of_figure(*figure), FIRST),
                News::Progress(figure) => (of_figure(*figure), PROGRESS),
                News::Late => (of_figure(0), LATE),
                News::Reset => (of_figure(0), NO_PROGRESS),
                News::Lost => (of_figure(0), LOST),
            };
            *out = told;
            status
        }
        Err(fault) => host_code(*fault),
    }
}
