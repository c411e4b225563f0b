// The numbers and the hexadecimal digits of a line.

ghost use Rattle.std.specs.Prelude.{◌≡◌, ◌≤◌, IfOk};
ghost use Rattle.mscp_reader.specs.Common.{Gives, bytes_in};
ghost use Rattle.mscp_reader.specs.Lexical as lexical;

use crate::fault::Cause;
use arrayvec::ArrayVec;
use hex::decode_to_slice;
use mscp_packet::{MOST_MESSAGE_BYTES, decode};

/// The most digits of a number, leading zeros too.
pub(crate) const MOST_DIGITS: usize = 10;

/// A field of 1 to 10 decimal digits, which is at most so much.
#[tactic(auto, unfolding(crate::specs::Lexical::number))]
pub(crate) fn number(most: u32, word: &[u8]) -> Result<u32, Cause>
    ensures value { result ≡ lexical.number most word.now }
    ensures bound { IfOk result (λ value. value ≤ most) }
{
    if word.is_empty() || word.len() > MOST_DIGITS {
        return Err(Cause::Number);
    }
    let mut value = 0u64;
    for digit in word {
        if !digit.is_ascii_digit() {
            return Err(Cause::Number);
        }
        value = value * 10 + u64::from(*digit - b'0');
    }
    if value > u64::from(most) {
        return Err(Cause::Number);
    }
    Ok(value as u32)
}

/// A field from 0 to 4294967295.
///
/// # Errors
///
/// `Number` for any other word.
pub fn wide(word: &[u8]) -> Result<u32, Cause>
    ensures { result ≡ lexical.wide word.now }
{
    number(u32::MAX, word)
}

/// A field from 0 to 65535.
pub(crate) fn narrow(word: &[u8]) -> Result<u16, Cause>
    ensures { result ≡ lexical.narrow word.now }
{
    Ok(number(u32::from(u16::MAX), word)? as u16)
}

/// A message of 1 to 64 bytes, each of two hexadecimal digits.
#[tactic(auto, unfolding(crate::specs::Lexical::message))]
pub(crate) fn message(word: &[u8]) -> Result<ArrayVec<u8, 64>, Cause>
    ensures { Gives (λ m. m.items) result (lexical.message word.now) }
{
    let count = word.len() / 2;
    if count < 1 || count > MOST_MESSAGE_BYTES {
        return Err(Cause::Hex);
    }
    match decode(word) {
        Ok(message) => Ok(message),
        Err(_) => Err(Cause::Hex),
    }
}

/// The bytes of the message of these digits, or none if they are those of no message.
pub fn bytes_in(digits: &[u8]) -> ArrayVec<u8, 64>
    ensures { result.items ≡ bytes_in digits.now }
{
    match message(digits) {
        Ok(bytes) => bytes,
        Err(_) => ArrayVec::new(),
    }
}

/// A status of four hexadecimal digits, the high ones first.
#[tactic(auto, unfolding(crate::specs::Lexical::status))]
pub(crate) fn status(word: &[u8]) -> Result<u16, Cause>
    ensures { result ≡ lexical.status word.now }
{
    let mut bytes = [0u8; 2];
    match decode_to_slice(word, &mut bytes) {
        Ok(()) => Ok(u16::from_be_bytes(bytes)),
        Err(_) => Err(Cause::Hex),
    }
}
