// A small hash of reference numbers, by which a waiting command is looked up.
//
// Drivers number their commands by counting or by addresses, which differ in few bits, and not always in the low ones.
// So the low eighteen bits all count, six at a time, and a search goes over the few commands that may be it. A list of
// names had to be searched from its front, and its names moved at each end.

ghost use Rattle.std.specs.Prelude.{◌≡◌, ℕ, ◌<◌, true, false, slice_index_or};
ghost use Rattle.mscp_queue.specs.Common.{IsPut, bucket_of};

use crate::masks::with_bit;

/// Of each bucket the slots of the waiting commands whose reference numbers are of it: bit k is that of slot k.
#[derive(Clone, Copy)]
pub(crate) struct Buckets {
    pub slots: [u64; 64],
}

/// The bucket of a reference number, by its low eighteen bits: many a driver numbers a command by the address of what
/// it keeps of it, and the lowest bits of these are the same.
fn bucket_of(reference: u32) -> usize
    ensures value { result ≡ bucket_of reference }
    ensures small { result < 64 }
{
    ((reference % 64 + reference / 64 + reference / 4096) % 64) as usize
}

impl Buckets {
    /// No command waits.
    pub fn new() -> Buckets
        ensures { (b : ℕ) → slice_index_or result.slots b 0 ≡ 0 }
    {
        Buckets { slots: [0; 64] }
    }

    /// A command of this number comes to a slot.
    pub fn come(&mut self, slot: usize, reference: u32)
        requires { slot < 64 }
        ensures { IsPut true slot reference self.old.slots self.new.slots }
    {
        let bucket = bucket_of(reference);
        self.slots[bucket] = with_bit(self.slots[bucket], slot, true);
    }

    /// The command of this number leaves its slot.
    pub fn leave(&mut self, slot: usize, reference: u32)
        requires { slot < 64 }
        ensures { IsPut false slot reference self.old.slots self.new.slots }
    {
        let bucket = bucket_of(reference);
        self.slots[bucket] = with_bit(self.slots[bucket], slot, false);
    }

    /// The slots of the commands whose numbers are of the bucket of this one.
    pub fn slots_of(&self, reference: u32) -> u64
        ensures { result ≡ slice_index_or self.now.slots (bucket_of reference) 0 }
    {
        self.slots[bucket_of(reference)]
    }
}
