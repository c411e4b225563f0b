// A packet with its envelope, as it stands in the memory of a host behind a port: four bytes, and then a message. Only
// what is the disk's own is a message or an end: not credits, datagrams, or what other servers are sent.

ghost use Rattle.std.specs.Prelude.{◌≡◌, ◌≤◌, ◌<◌, length};
ghost use Rattle.mscp_wire.specs.Log as log;

use arrayvec::ArrayVec;
use mscp_packet::fields::two_at;
use mscp_reader::{Cause, bytes_in};

/// How many digits an envelope has.
const DIGITS: usize = 8;

/// Whether an envelope is of a message, or an end, of the disk's connection: both its type and its connection are 0.
/// The low four bits beside the type are credits.
fn is_disks(envelope: &[u8]) -> bool
    ensures { result ≡ log.is_disks envelope.now }
{
    envelope.len() > 3 && envelope[2] / 16 == 0 && envelope[3] == 0
}

/// As many bytes of a message as its envelope says.
fn cut(mut message: ArrayVec<u8, 64>, length: u16) -> Result<ArrayVec<u8, 64>, Cause>
    ensures { result ≡ log.cut message length }
{
    let length = usize::from(length);
    if length == 0 || length > message.len() {
        return Err(Cause::Hex);
    }
    message.truncate(length);
    Ok(message)
}

/// The message in these digits of an envelope and of the bytes behind it, if it is the disk's.
fn message_in(envelope: &[u8], rest: &[u8]) -> Result<Option<ArrayVec<u8, 64>>, Cause>
    ensures { result ≡ log.message_in envelope.now rest.now }
{
    if envelope.len() != 4 {
        return Err(Cause::Hex);
    }
    if !is_disks(envelope) {
        return Ok(None);
    }
    Ok(Some(cut(bytes_in(rest), two_at(envelope, 0))?))
}

/// The same by all digits.
pub(crate) fn enveloped(digits: &[u8]) -> Result<Option<ArrayVec<u8, 64>>, Cause>
    ensures { result ≡ log.enveloped digits.now }
{
    if digits.len() < DIGITS {
        return Err(Cause::Hex);
    }
    let envelope = bytes_in(&digits[..DIGITS]);
    message_in(envelope.as_slice(), &digits[DIGITS..])
}
