// How many of the commands that are outstanding have something in common, by small numbers of it: most questions have
// their answer in one count.

ghost use Rattle.std.specs.Prelude.{◌≡◌, ℕ, ◌<◌, if◌then◌else◌, get_or, length, nat_eq, set};
ghost use Rattle.mscp_wire.specs.Wire.{is_it};
ghost use Rattle.mscp_wire.specs.Kept.{fewer, more, slot_of};

use mscp_drive::Connection;
use std::alloc::{AllocError, Allocator};

/// How many numbers there are.
pub(crate) const SLOTS: usize = 131_072;

/// A count that stays: so many or more, or nobody knows how many.
const MANY: u16 = 65_535;

/// How many commands fall to each number.
#[derive(Drop)]
pub struct Tally<A: Allocator> {
    /// That of each number, from 0 on. Of a number behind them nobody knows how many.
    pub counts: Vec<u16, A>,
}

/// The number for a number of a connection. Two may have the same.
pub(crate) fn slot_of(connection: Connection, number: u32) -> usize
    ensures { result ≡ slot_of connection number }
{
    let key = match connection {
        Connection::First => 2 * u64::from(number),
        Connection::Second => 2 * u64::from(number) + 1,
    };
    // By all digits, so that numbers which end in the same ones don't all fall to one.
    ((key + key / SLOTS as u64 * 2) % SLOTS as u64) as usize
}

/// A count, once one more is counted.
fn more(count: u16) -> u16
    ensures { result ≡ more count }
{
    if count >= MANY { MANY } else { count + 1 }
}

/// A count, once one fewer is.
fn fewer(count: u16) -> u16
    ensures { result ≡ fewer count }
{
    if count >= MANY {
        MANY
    } else {
        count.saturating_sub(1)
    }
}

impl<A: Allocator> Tally<A> {
    /// Nothing is known.
    pub(crate) fn unknown(alloc: A) -> Tally<A>
        ensures { (i : ℕ) → get_or result.counts.items i 65535 ≡ 65535 }
    {
        Tally {
            counts: Vec::new(alloc),
        }
    }

    /// Whether nothing is known.
    pub(crate) fn is_unknown(&self) -> bool
        ensures { result ≡ nat_eq (length self.now.counts.items) 0 }
    {
        self.counts.is_empty()
    }

    /// No command falls to any number. Without memory some aren't known.
    pub(crate) fn begin(&mut self) -> Result<(), AllocError>
        ensures { (i : ℕ) → get_or self.new.counts.items i 65535 < 65535 → get_or self.new.counts.items i 65535 ≡ 0 }
    {
        self.counts.clear();
        self.counts.reserve(SLOTS)?;
        for _ in 0..SLOTS {
            self.counts.push(0)?;
        }
        Ok(())
    }

    /// How many fall to a number, or 65,535 if that isn't known.
    pub(crate) fn at(&self, slot: usize) -> u16
        ensures { result ≡ get_or self.now.counts.items slot 65535 }
    {
        if slot < self.counts.len() {
            self.counts[slot]
        } else {
            MANY
        }
    }

    /// So many fall to a number, if that is counted.
    fn put(&mut self, slot: usize, count: u16)
        ensures { self.new.counts.items ≡ set self.old.counts.items slot count }
    {
        if slot < self.counts.len() {
            self.counts[slot] = count;
        }
    }

    /// One more does, if it is counted.
    pub(crate) fn add(&mut self, slot: Option<usize>)
        ensures { (i : ℕ) → get_or self.new.counts.items i 65535 ≡ (if is_it slot i
            then more (get_or self.old.counts.items i 65535) else get_or self.old.counts.items i 65535) }
    {
        if let Some(slot) = slot {
            self.put(slot, more(self.at(slot)));
        }
    }

    /// One fewer does, if it was counted.
    pub(crate) fn subtract(&mut self, slot: Option<usize>)
        ensures { (i : ℕ) → get_or self.new.counts.items i 65535 ≡ (if is_it slot i
            then fewer (get_or self.old.counts.items i 65535) else get_or self.old.counts.items i 65535) }
    {
        if let Some(slot) = slot {
            self.put(slot, fewer(self.at(slot)));
        }
    }
}
