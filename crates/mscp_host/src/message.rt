// What a port sends: an envelope, and a text.

ghost use Rattle.std.specs.Prelude.{◌≡◌, ◌≤◌, length};
ghost use Rattle.mscp_host.specs.Common.{end_in};
ghost use Rattle.mscp_host.specs.Messages.{any_end, bare_end, message_in, sequential_in};

use crate::envelope::Envelope;
use mscp_packet::fields::{four_at, two_at};
use mscp_packet::{End, EndBody, EndFault, endcodes, read_end};
use thiserror::Error;

/// Why what a port sent is refused: the first that holds, in this order. A refusal changes nothing.
#[derive(Clone, Copy, Debug, Error)]
pub enum HearFault {
    /// The envelope tells more bytes than there are.
    #[error("cut")]
    Cut,
    /// It isn't of the disks' connection.
    #[error("connection")]
    Connection,
    /// It is neither a sequential message, nor a datagram, nor a notification of credits.
    #[error("kind")]
    Kind,
    /// The text is neither an end nor an attention message.
    #[error("unreadable")]
    Unreadable,
    /// It is the end of no outstanding command.
    #[error("unknown")]
    Unknown,
}

/// A message from a port.
#[derive(Clone, Copy)]
pub enum Message {
    /// The end of a command. That of an opcode that has no line in the table has no body.
    End(End),
    /// An attention message: its code, and its unit.
    Attention(u8, u16),
    /// A datagram: an error log.
    Datagram,
    /// A notification of credits.
    Credits,
}

/// What the first 12 bytes of an end tell.
fn bare_end(t: &[u8]) -> End
    requires { 12 ≤ length t.now }
    ensures { result ≡ bare_end t.now }
{
    End {
        reference: four_at(t, 0),
        unit: two_at(t, 4),
        code: t[8],
        status: two_at(t, 10),
        body: EndBody::Bare,
    }
}

/// The end that a text is.
fn any_end(t: &[u8]) -> Result<Message, HearFault>
    requires { 12 ≤ length t.now }
    ensures { result ≡ any_end t.now (end_in t.now) }
{
    match read_end(t) {
        Ok(end) => Ok(Message::End(end)),
        Err(EndFault::Code) => Ok(Message::End(bare_end(t))),
        Err(EndFault::Length) => Err(HearFault::Unreadable),
    }
}

/// The end or the attention message that a text is.
fn sequential_in(t: &[u8]) -> Result<Message, HearFault>
    ensures { result ≡ sequential_in t.now }
{
    if t.len() < 12 {
        return Err(HearFault::Unreadable);
    }
    match t[8] {
        endcodes::UNKNOWN.. => any_end(t),
        endcodes::AVAILABLE_ATTENTION.. => Ok(Message::Attention(t[8], two_at(t, 4))),
        _ => Err(HearFault::Unreadable),
    }
}

/// The message of an envelope and the bytes behind it.
///
/// # Errors
///
/// The first that holds of `Cut`, `Connection`, `Kind` and `Unreadable`.
pub(crate) fn message_in(envelope: &Envelope, b: &[u8]) -> Result<Message, HearFault>
    ensures { result ≡ message_in envelope.now b.now }
{
    let length = usize::from(envelope.length);
    if b.len() < length {
        return Err(HearFault::Cut);
    }
    if envelope.connection != 0 {
        return Err(HearFault::Connection);
    }
    match envelope.kind {
        0 => sequential_in(&b[..length]),
        1 => Ok(Message::Datagram),
        2 => Ok(Message::Credits),
        _ => Err(HearFault::Kind),
    }
}
