// Dues, lowered where the bits of a mask are set: one by one where few are, and else eight lanes at a time.
//
// Only an end or an abort that leaves blocks unserved lowers dues, of those that counted what was left of it. Mostly
// that is nobody, so few bits are the case to be fast in.

ghost use Rattle.std.specs.Prelude.{◌≡◌, ◌<◌, ◌≤◌, ℕ, slice_index};
ghost use Rattle.mscp_queue.specs.Common.{bit_at, lowered};

use crate::lanes;
use crate::masks::{lowest_set, with_bit};

/// Lowers the dues whose bits are set by `by`, which is no more than any of them, and leaves the others: bit by bit.
fn lower_each(dues: &mut [u64; 64], mask: u64, by: u64)
    requires { (k : ℕ) → k < 64 → bit_at mask k ≡ 1 → by ≤ slice_index dues.old k }
    ensures { (k : ℕ) → k < 64 → slice_index dues.new k ≡ lowered mask by k (slice_index dues.old k) }
{
    let mut left = mask;
    while let Some(slot) = lowest_set(left) {
        left = with_bit(left, slot, false);
        dues[slot] -= by;
    }
}

/// The same. A mask of more than eight bits has one behind the first eight slots, and those take the lanes. So do a few
/// commands in late slots, which is rare: a command takes the lowest free slot.
pub(crate) fn lower(dues: &mut [u64; 64], mask: u64, by: u64)
    requires { (k : ℕ) → k < 64 → bit_at mask k ≡ 1 → by ≤ slice_index dues.old k }
    ensures { (k : ℕ) → k < 64 → slice_index dues.new k ≡ lowered mask by k (slice_index dues.old k) }
{
    if by == 0 {
        return;
    }
    if mask < 1 << 8 {
        lower_each(dues, mask, by);
    } else {
        lanes::lower(dues, mask, by);
    }
}
