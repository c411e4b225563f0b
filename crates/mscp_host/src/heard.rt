// What a host says of the messages that a port sends.

ghost use Rattle.std.specs.Prelude.{◌≡◌};
ghost use Rattle.mscp_host.specs.PortAccounts.{as_read, attention_of, ended_of, is_success, is_too_much, news_said};

use crate::asked::Asked;
use crate::news::News;
use mscp_packet::status::code_of;
use mscp_packet::{End, EndBody, codes, endcodes};

/// What a message from a port says.
#[derive(Clone, Copy)]
pub enum Heard {
    /// A command ended, and what was asked.
    Ended(End, Asked),
    /// The same, and the end tells more bytes than were asked for: the driver doesn't believe it.
    MovedTooMuch(End, Asked),
    /// The polled command's figure, the first that was told of it.
    First(u32),
    /// The polled command's figure, which is less than the last one.
    Progress(u32),
    /// The polled command has ended in the meantime.
    Late,
    /// The polled command's figure isn't less than the last one: the controller doesn't work on it.
    Reset,
    /// The polled command's figure is 0, and none came before or the last one was above 0: the controller doesn't know
    /// the command.
    Lost,
    /// The end of a poll that isn't its answer: it tells no figure.
    Refused(End),
    /// A unit became available.
    Available(u16),
    /// Another attention message: its code, and its unit.
    Attention(u8, u16),
    /// An error log.
    Logged,
    /// So many credits, and nothing else.
    Credits(u8),
}

/// Whether the status is Success.
fn is_success(status: u16) -> bool
    ensures { result ≡ is_success status }
{
    code_of(status) == codes::SUCCESS
}

/// An end as the polls read it: one of another status than Success tells no figure.
pub(crate) fn as_read(end: &End) -> End
    ensures { result ≡ as_read end.now }
{
    if is_success(end.status) {
        *end
    } else {
        End {
            code: endcodes::UNKNOWN,
            body: EndBody::Bare,
            ..*end
        }
    }
}

/// Whether an end tells that more bytes were moved than were asked for.
fn is_too_much(body: &EndBody, bytes: u32) -> bool
    ensures { result ≡ is_too_much body.now bytes }
{
    match body {
        EndBody::Moved(count) => *count > bytes,
        _ => false,
    }
}

/// What the end of a command says that is no poll.
pub(crate) fn ended_of(end: &End, asked: &Asked) -> Heard
    ensures { result ≡ ended_of end.now asked.now }
{
    if is_too_much(&end.body, asked.bytes) {
        Heard::MovedTooMuch(*end, *asked)
    } else {
        Heard::Ended(*end, *asked)
    }
}

/// What an attention message says.
pub(crate) fn attention_of(code: u8, unit: u16) -> Heard
    ensures { result ≡ attention_of code unit }
{
    if code == endcodes::AVAILABLE_ATTENTION {
        Heard::Available(unit)
    } else {
        Heard::Attention(code, unit)
    }
}

/// What an end says, of which a host says that, and which is or isn't that of the poll in flight.
pub(crate) fn news_said(is_poll: bool, end: &End, asked: &Asked, news: &News) -> Heard
    ensures { result ≡ news_said is_poll end.now asked.now news.now }
{
    match news {
        News::Ended(_) if is_poll => Heard::Refused(*end),
        News::Ended(_) => ended_of(end, asked),
        News::Progress(figure) => Heard::Progress(*figure),
        News::First(figure) => Heard::First(*figure),
        News::Late => Heard::Late,
        News::Reset => Heard::Reset,
        News::Lost => Heard::Lost,
    }
}
