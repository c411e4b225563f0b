//! Sixty-four numbers, eight lanes at a time. Bit i of a mask stands for place i.

ghost use Rattle.std.specs.Prelude.{◌^◌, ◌≡◌, ◌≢◌, ◌≤◌, ◌<◌, ◌+◌, ◌-◌, ◌*◌, ◌==◌, if◌then◌else◌, min, ℕ, length, slice_index, IfSome, IfNone};
ghost use Rattle.mscp_queue.specs.Common.{bit_at, HasLanes, IsCost, IsFirst, IsLane, IsLeast, lowered};

use std::simd::prelude::*;

/// The lanes whose bits are set, each less by `by`, and the others as they are.
#[inline(always)]
fn lower_eight(v: u64x8, bits: u64, by: u64) -> u64x8
    requires { (k : ℕ) → k < 8 → bit_at bits k ≡ 1 → by ≤ slice_index v k }
    ensures { HasLanes result (λ k. lowered bits by k (slice_index v k)) }
{
    let places = u64x8::from_array([1, 2, 4, 8, 16, 32, 64, 128]);
    (u64x8::splat(bits) & places)
        .simd_eq(places)
        .select(v - u64x8::splat(by), v)
}

/// The same of eight numbers in memory.
#[inline(always)]
fn lower_part(part: &mut [u64], bits: u64, by: u64)
    requires eight { length part.old ≡ 8 }
    requires enough { (k : ℕ) → k < 8 → bit_at bits k ≡ 1 → by ≤ slice_index part.old k }
    ensures { HasLanes part.new (λ k. lowered bits by k (slice_index part.old k)) }
{
    let lanes = u64x8::from_slice(part);
    lower_eight(lanes, bits, by).copy_to_slice(part);
}

/// Lowers the numbers whose bits are set by `by`, which is no more than any of them, and leaves the others. It looks at
/// no number behind the last of these but for those of its eight.
pub fn lower(dues: &mut [u64; 64], mask: u64, by: u64)
    requires { (k : ℕ) → k < 64 → bit_at mask k ≡ 1 → by ≤ slice_index dues.old k }
    ensures { (k : ℕ) → k < 64 → slice_index dues.new k ≡ lowered mask by k (slice_index dues.old k) }
{
    if by == 0 {
        return;
    }
    for block in 0..8usize {
        let at = 8 * block;
        let bits = mask >> at;
        if bits == 0 {
            return;
        }
        lower_part(&mut dues[at..at + 8], bits, by);
    }
}

/// The lanes whose bits are set, and the greatest number in the others.
#[inline(always)]
fn masked_eight(v: u64x8, bits: u64) -> u64x8
    ensures { HasLanes result (λ k. if bit_at bits k == 1 then slice_index v k else 2 ^ 64 - 1) }
{
    if bits & 255 == 255 {
        return v;
    }
    let places = u64x8::from_array([1, 2, 4, 8, 16, 32, 64, 128]);
    (u64x8::splat(bits) & places)
        .simd_eq(places)
        .select(v, u64x8::splat(u64::MAX))
}

/// The lesser of each two lanes.
#[inline(always)]
fn lesser_eight(a: u64x8, b: u64x8) -> u64x8
    ensures { HasLanes result (λ k. min (slice_index a k) (slice_index b k)) }
{
    a.simd_min(b)
}

/// The least of the lanes.
#[inline(always)]
fn least_lane(lanes: u64x8) -> u64
    requires { length lanes ≡ 8 }
    ensures { IsLane lanes 8 result }
{
    let cells = lanes.to_array();
    let mut least = u64::MAX;
    for place in 0..8usize {
        least = least.min(cells[place]);
    }
    least
}

/// The eight numbers of a block.
#[inline(always)]
fn block_of(numbers: &[u64; 64], block: usize) -> u64x8
    requires { block < 8 }
    ensures { HasLanes result (λ k. slice_index numbers.now (8 * block + k)) }
{
    let at = 8 * block;
    u64x8::from_slice(&numbers[at..at + 8])
}

/// The least of the masked numbers, and the greatest number of all where none is masked.
fn least_cost(costs: &[u64; 64], mask: u64) -> u64
    ensures { IsCost costs.now mask result }
{
    let mut low = u64x8::splat(u64::MAX);
    for block in 0..8usize {
        let bits = mask >> (8 * block);
        if bits == 0 {
            return least_lane(low);
        }
        let lanes = masked_eight(block_of(costs, block), bits);
        low = lesser_eight(low, lanes);
    }
    least_lane(low)
}

/// The lanes that hold the number, as bits.
#[inline(always)]
fn equal_eight(lanes: u64x8, number: u64) -> u64
    requires { length lanes ≡ 8 }
    ensures only { (k : ℕ) → bit_at result k ≡ 1 → k < 8 }
    ensures equal { (k : ℕ) → bit_at result k ≡ 1 → slice_index lanes k ≡ number }
    ensures each { (k : ℕ) → k < 8 → slice_index lanes k ≡ number → bit_at result k ≡ 1 }
{
    lanes.simd_eq(u64x8::splat(number)).to_bitmask()
}

/// The first masked place that holds the number.
fn first_place(costs: &[u64; 64], mask: u64, number: u64) -> Option<usize>
    ensures some { IfSome result (λ p. IsFirst costs.now mask number p) }
    ensures none { IfNone result ((k : ℕ) → k < 64 → bit_at mask k ≡ 1 → slice_index costs.now k ≢ number) }
{
    for block in 0..8usize {
        let at = 8 * block;
        let hits = equal_eight(block_of(costs, block), number) & (mask >> at);
        if hits != 0 {
            return Some(at + hits.trailing_zeros() as usize);
        }
    }
    None
}

/// The first masked place whose cost is least, none where the mask is empty.
pub fn least(costs: &[u64; 64], mask: u64) -> Option<usize>
    ensures some { IfSome result (λ p. IsLeast costs.now mask p) }
    ensures none { IfNone result (mask ≡ 0) }
{
    first_place(costs, mask, least_cost(costs, mask))
}
