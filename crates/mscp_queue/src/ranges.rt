// Where first blocks lie.
//
// Each unit has 64 ranges of cylinders, and of each range it is known which slots' commands begin there. So a search
// for the nearest one looks at a range at a time, and at few commands. An exact order by cylinder would move bytes
// each time that a command comes or leaves; a range is one bit.

ghost use Rattle.std.specs.Prelude.{◌≡◌, ◌≢◌, ℕ, ◌<◌, ◌^◌, ◌-◌, true, false, cond, length, nat_eq, slice_index_or, slice_set};
ghost use Rattle.mscp_queue.specs.Common.{bit_at, range_of, IsAbove, IsBelow, IsNearest};

use crate::masks::with_bit;
use mscp_drive::Unit;
use std::marker::Model;

/// The range of a cylinder of a unit.
pub(crate) fn range_of(unit: &Unit, cylinder: u32) -> u8
    ensures value { result ≡ range_of unit.now cylinder }
    ensures small { result < 64 }
{
    let width = unit.last_cylinder() / 64 + 1;
    (cylinder / width).min(63) as u8
}

/// The masks of the ranges where all slots are in the first.
fn all_first() -> [u64; 64]
    ensures first { slice_index_or result 0 0 ≡ 2 ^ 64 - 1 }
    ensures others { (range : ℕ) → range ≢ 0 → slice_index_or result range 0 ≡ 0 }
{
    let mut slots = [0; 64];
    slots[0] = u64::MAX;
    slots
}

/// The range of each slot, and the slots of each range.
#[derive(Drop)]
pub(crate) struct Ranges {
    of: [u8; 64],
    slots: [u64; 64],
}

// A clause sees the range of each slot.
impl Model for Ranges {
    ghost use Rattle.std.specs.Prelude.{ℕ};
    ghost use Rattle.mscp_queue.specs.Common.{List, AreRanged};

    ghost Value = { List ℕ };

    ghost view = { λ r. r.of };

    ghost invariant = { λ r. AreRanged r.of r.slots };
}

impl Ranges {
    /// Each slot is in the first range.
    pub fn new() -> Ranges
        ensures long { length result ≡ 64 }
        ensures first { (k : ℕ) → slice_index_or result k 0 ≡ 0 }
    {
        let slots = all_first();
        Ranges { of: [0; 64], slots }
    }

    /// A slot is in a range from now on.
    pub fn set(&mut self, slot: usize, range: u8)
        requires slot { slot < 64 }
        requires range { range < 64 }
        ensures { self.new ≡ slice_set self.old slot range }
    {
        let old = usize::from(self.of[slot]);
        self.slots[old] = with_bit(self.slots[old], slot, false);
        let new = usize::from(range);
        self.slots[new] = with_bit(self.slots[new], slot, true);
        self.of[slot] = range;
    }

    /// Of these slots those in a range.
    fn here(&self, mask: u64, range: usize) -> u64
        requires range { range < 64 }
        ensures { (k : ℕ) → k < 64
            → bit_at result k ≡ cond (nat_eq (slice_index_or self.now k 0) range) (bit_at mask k) 0 }
    {
        mask & self.slots[range]
    }

    /// Of these slots those in the first range above one in which some are: none if there is no such range.
    fn above(&self, mask: u64, range: usize) -> u64
        requires range { range < 64 }
        ensures { IsAbove self.now mask range result }
    {
        let _ = &self.of;
        for other in range + 1..64 {
            let there = self.here(mask, other);
            if there != 0 {
                return there;
            }
        }
        0
    }

    /// Of these slots those in the last range below one in which some are: none if there is no such range.
    fn below(&self, mask: u64, range: usize) -> u64
        requires range { range < 64 }
        ensures { IsBelow self.now mask range result }
    {
        for down in 0..range {
            let there = self.here(mask, range - 1 - down);
            if there != 0 {
                return there;
            }
        }
        0
    }

    /// Of these slots those to which a head in a range, which goes up, comes first: those in its range and in the next
    /// above in which some are, or else those in the last below.
    fn nearest_up(&self, mask: u64, range: usize) -> u64
        requires range { range < 64 }
        ensures { IsNearest true self.now mask range result }
    {
        let ahead = self.here(mask, range) | self.above(mask, range);
        if ahead == 0 {
            self.below(mask, range)
        } else {
            ahead
        }
    }

    /// The same of a head that goes down.
    fn nearest_down(&self, mask: u64, range: usize) -> u64
        requires range { range < 64 }
        ensures { IsNearest false self.now mask range result }
    {
        let ahead = self.here(mask, range) | self.below(mask, range);
        if ahead == 0 {
            self.above(mask, range)
        } else {
            ahead
        }
    }

    /// Of these slots those to which a head in a range, which goes up or down, comes first: some, if there are some.
    pub fn nearest(&self, mask: u64, range: usize, up: bool) -> u64
        requires range { range < 64 }
        ensures { IsNearest up self.now mask range result }
    {
        if up {
            self.nearest_up(mask, range)
        } else {
            self.nearest_down(mask, range)
        }
    }
}
