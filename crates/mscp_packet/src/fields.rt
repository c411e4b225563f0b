//! Numbers in bytes at their places, and bytes that grow at their end. All numbers are little-endian.

ghost use Rattle.std.specs.Prelude.{◌≡◌, ◌+◌, ◌≤◌, ◌++◌, length};
ghost use Rattle.mscp_packet.specs.Common.{little_bytes, array_vec_len, num};

use arrayvec::ArrayVec;
use byteorder::{ByteOrder, LittleEndian};

/// The number in the two bytes from a place on.
pub fn two_at(b: &[u8], at: usize) -> u16
    requires { at + 2 ≤ length b.now }
    ensures { result ≡ num b.now at 2 }
{
    LittleEndian::read_u16(&b[at..])
}

/// The number in the four bytes from a place on.
pub fn four_at(b: &[u8], at: usize) -> u32
    requires { at + 4 ≤ length b.now }
    ensures { result ≡ num b.now at 4 }
{
    LittleEndian::read_u32(&b[at..])
}

/// The number in the eight bytes from a place on.
pub fn eight_at(b: &[u8], at: usize) -> u64
    requires { at + 8 ≤ length b.now }
    ensures { result ≡ num b.now at 8 }
{
    LittleEndian::read_u64(&b[at..])
}

/// Appends bytes.
pub fn put<const N: usize>(out: &mut ArrayVec<u8, N>, bytes: &[u8])
    requires { array_vec_len out.old + length bytes.now ≤ N }
    ensures items { out.new.items ≡ out.old.items ++ bytes.now }
    ensures len { array_vec_len out.new ≡ array_vec_len out.old + length bytes.now }
{
    // There is room, so nothing is refused.
    let _ = out.try_extend_from_slice(bytes);
}

/// Appends a number of two bytes.
pub fn put_two<const N: usize>(out: &mut ArrayVec<u8, N>, x: u16)
    requires { array_vec_len out.old + 2 ≤ N }
    ensures items { out.new.items ≡ out.old.items ++ little_bytes 2 x }
    ensures len { array_vec_len out.new ≡ array_vec_len out.old + 2 }
{
    let mut bytes = [0u8; 2];
    LittleEndian::write_u16(&mut bytes, x);
    put(out, &bytes);
}

/// Appends a number of four bytes.
pub fn put_four<const N: usize>(out: &mut ArrayVec<u8, N>, x: u32)
    requires { array_vec_len out.old + 4 ≤ N }
    ensures items { out.new.items ≡ out.old.items ++ little_bytes 4 x }
    ensures len { array_vec_len out.new ≡ array_vec_len out.old + 4 }
{
    let mut bytes = [0u8; 4];
    LittleEndian::write_u32(&mut bytes, x);
    put(out, &bytes);
}

/// Appends a number of eight bytes.
pub fn put_eight<const N: usize>(out: &mut ArrayVec<u8, N>, x: u64)
    requires { array_vec_len out.old + 8 ≤ N }
    ensures items { out.new.items ≡ out.old.items ++ little_bytes 8 x }
    ensures len { array_vec_len out.new ≡ array_vec_len out.old + 8 }
{
    let mut bytes = [0u8; 8];
    LittleEndian::write_u64(&mut bytes, x);
    put(out, &bytes);
}
