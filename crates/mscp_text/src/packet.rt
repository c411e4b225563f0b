// A packet as a line of text: a message that is written as hexadecimal digits.

ghost use Rattle.std.specs.Prelude.{◌≡◌, ◌≤◌, ◌%◌, ◌==◌, ◌&&◌, [], length, Err, IfOk};
ghost use Rattle.mscp_text.specs.Common.{is_ascii_hexdigit, list_all, Gives, message_of, of_end, of_message, packet_of, shown, Shows};
ghost use Rattle.mscp_text.specs.declared.packet.ShowFault.TheVariants as faults;

mod text;

use crate::out::Out;
use crate::packet::text::put_packet;
use arrayvec::ArrayVec;
use mscp_packet::{
    Command, End, EndFault, MOST_MESSAGE_BYTES, PacketFault, decode, endcodes, read_command,
    read_end,
};
use std::alloc::{AllocError, Global};
use thiserror::Error;

/// The fewest bytes of a message.
const LEAST_BYTES: usize = 12;

/// A message as a value.
#[derive(Clone, Copy)]
pub enum Packet {
    Command(Command),
    End(End),
}

/// Why a packet isn't shown: the first that holds, in this order.
#[derive(Clone, Copy, Debug, Error)]
pub enum ShowFault {
    /// The word has a byte that is no hexadecimal digit, or an odd number of digits.
    #[error("packet: hex")]
    Hex,
    /// It is of under 12 bytes.
    #[error("packet: short")]
    Short,
    /// It is of over 64 bytes.
    #[error("packet: long")]
    Long,
    /// Byte 8 is 0x80 or more, and no endcode.
    #[error("packet: code")]
    Code,
    /// It is shorter than an end of its endcode.
    #[error("packet: length")]
    Length,
    /// No memory was left for the text.
    #[error("out of memory")]
    OutOfMemory,
}

impl From<PacketFault> for ShowFault {
    ghost from_gives = { λ fault e. e ≡ of_message fault };

    fn from(fault: PacketFault) -> ShowFault {
        match fault {
            PacketFault::Short => ShowFault::Short,
            PacketFault::Long => ShowFault::Long,
        }
    }
}

impl From<EndFault> for ShowFault {
    ghost from_gives = { λ fault e. e ≡ of_end fault };

    fn from(fault: EndFault) -> ShowFault {
        match fault {
            EndFault::Code => ShowFault::Code,
            EndFault::Length => ShowFault::Length,
        }
    }
}

impl From<AllocError> for ShowFault {
    ghost from_gives = { λ _ e. e ≡ faults.OutOfMemory };

    fn from(_refusal: AllocError) -> ShowFault {
        ShowFault::OutOfMemory
    }
}

/// Whether a word is hexadecimal digits, of either case.
fn is_digits(word: &[u8]) -> bool
    ensures { result ≡ list_all is_ascii_hexdigit word.now }
{
    word.iter().all(|digit| digit.is_ascii_hexdigit())
}

/// Whether a word is an even number of hexadecimal digits, of either case.
fn is_hexadecimal(word: &[u8]) -> bool
    ensures { result ≡ (length word.now % 2 == 0 && list_all is_ascii_hexdigit word.now) }
{
    word.len() % 2 == 0 && is_digits(word)
}

/// The message that a word is the digits of, of 12 to 64 bytes.
fn message_of(word: &[u8]) -> Result<ArrayVec<u8, 64>, ShowFault>
    ensures value { Gives (λ m. m.items) result (message_of word.now) }
    ensures least { IfOk result (λ m. 12 ≤ length m.items) }
    ensures most { IfOk result (λ m. length m.items ≤ 64) }
{
    let count = word.len() / 2;
    if count > MOST_MESSAGE_BYTES {
        return Err(if is_hexadecimal(word) {
            ShowFault::Long
        } else {
            ShowFault::Hex
        });
    }
    let Ok(message) = decode(word) else {
        return Err(ShowFault::Hex);
    };
    if count < LEAST_BYTES {
        return Err(ShowFault::Short);
    }
    Ok(message)
}

/// The command or the end that a message is.
fn packet_in(message: &[u8]) -> Result<Packet, ShowFault>
    requires least { 12 ≤ length message.now }
    requires most { length message.now ≤ 64 }
    ensures { result ≡ packet_of message.now }
{
    if message[8] < endcodes::UNKNOWN {
        Ok(Packet::Command(read_command(message)?))
    } else {
        Ok(Packet::End(read_end(message)?))
    }
}

/// `show_packet`, written to what has nothing in it.
///
/// # Errors
///
/// Those of `show_packet`; `OutOfMemory` if what it writes to refuses a text.
#[tactic(auto, unfolding(crate::specs::Shown::shown))]
pub fn show_packet_to<O: Out>(mut out: O, word: &[u8]) -> Result<O, ShowFault>
    requires { O.text out ≡ [] }
    ensures shows { Shows O.text result (shown word.now) }
    ensures refused { result ≡ Err ShowFault.OutOfMemory → O.refuses }
{
    let message = message_of(word)?;
    let packet = packet_in(&message)?;
    put_packet(&mut out, packet)?;
    Ok(out)
}

/// The line of the packet that a word is the hexadecimal digits of, with its line feed: of 12 to 64 bytes, an end where
/// byte 8 is 0x80 or more, and else a command. It takes memory for the text alone.
///
/// # Errors
///
/// The first that holds in the order of `ShowFault`.
pub fn show_packet(alloc: Global, word: &str) -> Result<Vec<u8>, ShowFault>
    ensures { Shows (λ text. text.items) result (shown word.now) }
{
    show_packet_to(Vec::new(alloc), word.as_bytes())
}
