// Messages that are written as hexadecimal digits.

ghost use Rattle.std.specs.Prelude.{◌≡◌, ◌/◌, ◌≤◌, length, IfOk};
ghost use Rattle.mscp_packet.specs.Common.{decode_of, Gives};

use arrayvec::ArrayVec;
use hex::{FromHexError, decode_to_slice};

/// The most bytes of a message.
pub const MOST_MESSAGE_BYTES: usize = 64;

/// The bytes that a word of at most 129 digits is written as, two digits of either case for each. Few lines have such a
/// word, so its room isn't made part of the callers, which would clear it for each line.
#[inline(never)]
pub fn decode(word: &[u8]) -> Result<ArrayVec<u8, 64>, FromHexError>
    requires { length word.now / 2 ≤ 64 }
    ensures value { Gives (λ m. m.items) result (decode_of word.now) }
    ensures length { IfOk result (λ m. length m.items ≡ length word.now / 2) }
{
    let mut room = [0u8; MOST_MESSAGE_BYTES];
    let bytes = &mut room[..word.len() / 2];
    decode_to_slice(word, bytes)?;
    let mut all = ArrayVec::new();
    all.try_extend_from_slice(bytes).unwrap();
    Ok(all)
}
