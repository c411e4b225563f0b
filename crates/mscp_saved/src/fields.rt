// Bytes that grow at their end, up to a saved controller.

ghost use Rattle.std.specs.Prelude.{◌≡◌, ◌+◌, ◌≤◌, ◌++◌, ◌∷◌, [], length, replicate};
ghost use Rattle.mscp_saved.specs.Common.{array_vec_len, padded};

use arrayvec::ArrayVec;
use mscp_packet::fields::put;

/// The most bytes that a controller is saved as: a head, 16 drives and 64 ends.
pub const ROOM: usize = 3664;

/// Appends a byte.
pub(crate) fn put_one(out: &mut ArrayVec<u8, ROOM>, x: u8)
    requires { array_vec_len out.old + 1 ≤ 3664 }
    ensures items { out.new.items ≡ out.old.items ++ (x ∷ []) }
    ensures len { array_vec_len out.new ≡ array_vec_len out.old + 1 }
{
    out.push(x);
}

/// Appends so many zeros, 48 at the most.
fn put_zeros(out: &mut ArrayVec<u8, ROOM>, count: usize)
    requires few { count ≤ 48 }
    requires room { array_vec_len out.old + count ≤ 3664 }
    ensures items { out.new.items ≡ out.old.items ++ replicate count 0 }
    ensures len { array_vec_len out.new ≡ array_vec_len out.old + count }
{
    put(out, &[0u8; 48][..count]);
}

/// Appends bytes, and zeros up to a size.
pub(crate) fn put_padded(out: &mut ArrayVec<u8, ROOM>, bytes: &[u8], size: usize)
    requires few { size ≤ 48 }
    requires fits { length bytes.now ≤ size }
    requires room { array_vec_len out.old + size ≤ 3664 }
    ensures items { out.new.items ≡ out.old.items ++ padded size bytes.now }
    ensures len { array_vec_len out.new ≡ array_vec_len out.old + size }
{
    put(out, bytes);
    put_zeros(out, size - bytes.len());
}
