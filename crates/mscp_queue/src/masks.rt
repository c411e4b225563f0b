// Masks of slots. Bit k of a mask stands for slot k.
//
// Who came before a command, who is of its unit, and who is sequential are words of 64 bits. So who may start of a
// unit is a few operations on words: those before its oldest sequential command, or that command alone if none is. A
// look at each record, one after the other, took over a third of all instructions of a long script.

ghost use Rattle.std.specs.Prelude.{◌≡◌, ◌≢◌, ◌<◌, ◌≤◌, ◌^◌, ◌-◌, ◌&&◌, ◌||◌, ℕ, count_ones, min, true, false, length, nat_eq, nat_lt, slice_index_or, IfNone, IfSome};
ghost use Rattle.mscp_queue.specs.Common.{bit_at, HasCome, HasLeft, IsBehind, IsFront, IsLowestFree, IsNarrowed, IsSet};
ghost use Rattle.mscp_queue.specs.Masks.{fences};

/// Which slots are taken, and what is known of their commands: one bit a slot.
#[derive(Clone, Copy)]
pub(crate) struct Masks {
    /// Those that are taken.
    pub waiting: u64,
    /// Those of sequential commands.
    pub sequential: u64,
    /// Those of each drive's unit, by the place of the drive.
    pub units: [u64; 16],
    /// For each slot those whose commands came earlier.
    pub earlier: [u64; 64],
}

/// The mask with the bit of a slot set or cleared.
pub(crate) fn with_bit(mask: u64, slot: usize, on: bool) -> u64
    requires { slot < 64 }
    ensures set { IsSet on slot mask result }
    ensures fewer { on ≡ false → result ≤ mask }
{
    if on {
        mask | (1 << slot)
    } else {
        mask & !(1 << slot)
    }
}

/// Whether the bit of a slot is set.
pub(crate) fn has_bit(mask: u64, slot: usize) -> bool
    requires { slot < 64 }
    ensures { result ≡ nat_eq (bit_at mask slot) 1 }
{
    (mask >> slot) & 1 == 1
}

/// The mask without the bits of another.
fn without(mask: u64, other: u64) -> u64
    ensures { (k : ℕ) → k < 64 → bit_at result k ≡ min (bit_at mask k) (1 - bit_at other k) }
{
    mask & !other
}

/// Clears the bit of a slot in the masks of all slots that are taken, sixteen at a time up to the last of them: few
/// commands have the first slots. What the masks of the other slots are then doesn't matter.
fn clear_in_taken(masks: &mut [u64; 64], slot: usize, taken: u64)
    requires { slot < 64 }
    ensures { (k : ℕ) → bit_at taken k ≡ 1
        → IsSet false slot (slice_index_or masks.old k 0) (slice_index_or masks.new k 0) }
{
    for part in 0..4 {
        if taken >> (16 * part) == 0 {
            return;
        }
        for other in 16 * part..16 * part + 16 {
            masks[other] = with_bit(masks[other], slot, false);
        }
    }
}

/// The lowest slot whose bit isn't set.
pub(crate) fn lowest_free(mask: u64) -> usize
    requires { mask ≢ 2 ^ 64 - 1 }
    ensures { IsLowestFree mask result }
{
    mask.trailing_ones() as usize
}

/// A slot whose bit is set, the lowest one, if there is one.
#[inline(always)]
pub(crate) fn lowest_set(mask: u64) -> Option<usize>
    ensures some { IfSome result (λ k. (k < 64) × (bit_at mask k ≡ 1)) }
    ensures none { IfNone result ((k : ℕ) → k < 64 → bit_at mask k ≡ 0) }
{
    let lowest = mask.trailing_zeros() as usize;
    if lowest < 64 { Some(lowest) } else { None }
}

impl Masks {
    /// No slot is taken.
    pub fn new() -> Masks
        ensures waiting { result.waiting ≡ 0 }
        ensures sequential { result.sequential ≡ 0 }
        ensures units { (u : ℕ) → slice_index_or result.units u 0 ≡ 0 }
    {
        Masks {
            waiting: 0,
            sequential: 0,
            units: [0; 16],
            earlier: [0; 64],
        }
    }

    /// A command comes to a slot, whose unit's drive stands at this place, and which is sequential or not.
    pub fn come(&mut self, slot: usize, drive: usize, sequential: bool)
        requires slot { slot < 64 }
        requires drive { drive < 16 }
        ensures { HasCome slot drive sequential self.old self.new }
    {
        self.earlier[slot] = self.waiting;
        self.units[drive] = with_bit(self.units[drive], slot, true);
        self.sequential = with_bit(self.sequential, slot, sequential);
        self.waiting = with_bit(self.waiting, slot, true);
    }

    /// How many commands came earlier than that of the slot: its place.
    pub fn place(&self, slot: usize) -> usize
        requires { slot < 64 }
        ensures value { result ≡ count_ones (slice_index_or self.now.earlier slot 0) }
        ensures small { slice_index_or self.now.earlier slot 0 < 2 ^ 64 }
    {
        self.earlier[slot].count_ones() as usize
    }

    /// Whether no command that came earlier keeps that of the slot back, whose unit's drive stands at this place, and
    /// which is sequential or not: of its unit none is in front of a sequential one, and no sequential one in front of
    /// a transfer.
    pub fn is_free(&self, slot: usize, drive: usize, sequential: bool) -> bool
        requires slot { slot < 64 }
        requires drive { drive < 16 }
        ensures value { result ≡ nat_eq (fences self.now slot drive sequential) 0 }
        ensures small { slice_index_or self.now.earlier slot 0 < 2 ^ 64 }
    {
        let fences = self.earlier[slot] & self.units[drive];
        if sequential {
            fences == 0
        } else {
            fences & self.sequential == 0
        }
    }

    /// Of the slots of a drive's unit those whose commands came before each sequential one of the unit, or are that.
    fn narrowed(&self, drive: usize) -> u64
        requires { drive < 16 }
        ensures { IsNarrowed drive self.now result }
    {
        let unit = self.units[drive];
        let mut left = unit & self.sequential;
        let mut narrowed = unit;
        while let Some(slot) = lowest_set(left) {
            left = with_bit(left, slot, false);
            narrowed &= with_bit(self.earlier[slot], slot, true);
        }
        narrowed
    }

    /// Of the slots of a drive's unit those whose commands no command that came earlier keeps back: the transfers in
    /// front of its oldest sequential one, or that one alone if there is none.
    pub fn front(&self, drive: usize) -> u64
        requires { drive < 16 }
        ensures { IsFront drive self.now result }
    {
        let narrowed = self.narrowed(drive);
        let transfers = without(narrowed, self.sequential);
        if transfers == 0 { narrowed } else { transfers }
    }

    /// Whether the start of a slot's command, at this cost, costs less than that of the other, or as much, where the
    /// other came later.
    #[inline(always)]
    pub fn starts_before(&self, slot: usize, cost: u64, other: usize, least: u64) -> bool
        requires slot { slot < 64 }
        requires other { other < 64 }
        ensures { result ≡ nat_lt cost least
            || (nat_eq cost least && nat_eq (bit_at (slice_index_or self.now.earlier other 0) slot) 1) }
    {
        cost < least || (cost == least && has_bit(self.earlier[other], slot))
    }

    /// Whether each command that came later than that of the slot is to the unit of this drive.
    pub fn is_last_unit(&self, slot: usize, drive: usize) -> bool
        requires slot { slot < 64 }
        requires drive { drive < 16 }
        ensures { result ≡ true → (k : ℕ) → k < 64 → bit_at self.now.waiting k ≡ 1
            → bit_at (slice_index_or self.now.earlier slot 0) k ≡ 0 → k ≢ slot
            → bit_at (slice_index_or self.now.units drive 0) k ≡ 1 }
    {
        let later = without(self.waiting, self.earlier[slot]);
        with_bit(without(later, self.units[drive]), slot, false) == 0
    }

    /// The slots whose commands came later than that of the slot.
    pub fn behind(&self, slot: usize) -> u64
        requires { slot < 64 }
        ensures { IsBehind slot self.now result }
    {
        let later = without(self.waiting, self.earlier[slot]);
        with_bit(later, slot, false)
    }

    /// The command of a slot leaves it, whose unit's drive stands at this place. In `earlier` the masks of free slots
    /// may stay as they are: `come` writes a slot's mask there, and nobody reads the mask before.
    pub fn leave(&mut self, slot: usize, drive: usize)
        requires slot { slot < 64 }
        requires drive { drive < 16 }
        ensures { HasLeft slot drive self.old self.new }
    {
        self.waiting = with_bit(self.waiting, slot, false);
        self.sequential = with_bit(self.sequential, slot, false);
        self.units[drive] = with_bit(self.units[drive], slot, false);
        clear_in_taken(&mut self.earlier, slot, self.waiting);
    }
}
