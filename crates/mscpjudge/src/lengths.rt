// How long an end should be that is too short.

ghost use Rattle.std.specs.Prelude.{◌≡◌, ◌++◌, OnOk};
ghost use Rattle.mscpjudge.specs.Lengths.{least_bytes, length_text, lengths_text};

use mscp_packet::least_end_of;
use mscp_text::{put, put_field};
use std::alloc::{AllocError, Allocator};

/// The fewest bytes that an end may have.
#[tactic(auto, unfolding(crate::specs::Lengths::least_bytes))]
fn least_bytes(bytes: &[u8]) -> usize
    ensures { result ≡ least_bytes bytes.now }
{
    if bytes.len() < 12 {
        12
    } else {
        least_end_of(bytes[8])
    }
}

/// Appends a length, and what is asked for.
#[tactic(auto, unfolding(crate::specs::Lengths::lengths_text))]
fn put_lengths<A: Allocator>(
    text: &mut Vec<u8, A>,
    length: usize,
    least: usize,
) -> Result<(), AllocError>
    ensures { OnOk result (text.new.items ≡ text.old.items ++ lengths_text length least) }
{
    put_field(text, "length: ", length)?;
    put_field(text, ", asked for ", least)?;
    put(text, " at least\n")
}

/// Appends the line of the length of an end.
pub(crate) fn put_length<A: Allocator>(
    text: &mut Vec<u8, A>,
    bytes: &[u8],
) -> Result<(), AllocError>
    ensures { OnOk result (text.new.items ≡ text.old.items ++ length_text bytes.now) }
{
    put_lengths(text, bytes.len(), least_bytes(bytes))
}
