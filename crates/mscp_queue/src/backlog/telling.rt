// What is told of each waiting command: by how many blocks it was passed, and how long it may still wait. Its due, the
// clock and what it waits for tell both.

ghost use Rattle.std.specs.Prelude.{◌≡◌, ◌+◌, ◌-◌, ◌*◌, ◌<◌, ◌≤◌, ◌^◌, true, length, map, take, drop, sum_by, All};
ghost use Rattle.mscp_queue.specs.Common.{figure_at, figures, left_if_serving, left_of, record_at};

use crate::backlog::Backlog;
use crate::record::Record;
use arrayvec::ArrayVec;
use mscp_drive::Connection;

/// How many steps are left of the record, if it is in service.
pub fn left_if_serving(record: &Record) -> u64
    ensures value { result ≡ left_if_serving «record».now }
    ensures small { result < 2 ^ 32 }
{
    if record.is_unstarted() {
        0
    } else {
        u64::from(record.left())
    }
}

impl Backlog {
    /// How many steps are left of a command in service behind the place.
    fn left_behind(&self, place: usize) -> u64
        requires few { length self.now.waiting ≤ 64 }
        requires place { place < length self.now.waiting }
        ensures value { result ≡ sum_by left_if_serving (drop (place + 1) self.now.waiting) }
        ensures small { result ≤ 64 * 2 ^ 32 }
    {
        let mut left = 0;
        for behind in 0..self.len() - (place + 1) {
            left += left_if_serving(self.record(place + 1 + behind));
        }
        left
    }

    /// How many steps are left of all up to the place.
    fn left_up_to(&self, place: usize) -> u64
        requires few { length self.now.waiting ≤ 64 }
        requires place { place < length self.now.waiting }
        ensures value { result ≡ sum_by left_of (take (place + 1) self.now.waiting) }
        ensures small { result ≤ 64 * 2 ^ 32 }
    {
        let mut left = 0;
        for earlier in 0..place + 1 {
            left += u64::from(self.record(earlier).left());
        }
        left
    }

    /// By how many blocks the command at the place was passed.
    pub fn passed(&self, place: usize) -> u32
        requires few { length self.now.waiting ≤ 64 }
        requires place { place < length self.now.waiting }
        ensures { result ≡ (record_at self.now.waiting place).passed }
    {
        let most = self.clock
            + self.left_up_to(place)
            + self.left_behind(place)
            + u64::from(self.budget);
        (most - self.slots.due(place)) as u32
    }

    /// The record at the place, whole.
    pub fn told(&self, place: usize) -> Record
        requires few { length self.now.waiting ≤ 64 }
        requires place { place < length self.now.waiting }
        ensures { result ≡ record_at self.now.waiting place }
    {
        let record = self.record(place);
        record.resumed(record.done(), self.passed(place))
    }

    /// The figure of the command at the place.
    pub fn figure(&self, place: usize) -> u32
        requires place { place < length self.now.waiting }
        requires small { sum_by left_of self.now.waiting + self.now.budget < 2 ^ 32 }
        ensures { result ≡ figure_at self.now.budget self.now.waiting place }
    {
        let record = self.slots.item(place);
        if record.is_unstarted() {
            (self.slots.due(place) - self.clock) as u32
        } else {
            record.left()
        }
    }

    /// What the oldest command has left of the budget, where none is in service: by so many blocks may it still be
    /// passed. Who came earlier was passed at least as often, so that this tells it for all.
    pub fn unspent(&self) -> u32
        requires some { 0 < length self.now.waiting }
        requires idle { All (λ r. r.done ≡ 0) self.now.waiting }
        ensures { result ≡ self.now.budget - (record_at self.now.waiting 0).passed }
    {
        (self.slots.due(0) - self.clock - u64::from(self.slots.item(0).left())) as u32
    }

    /// Connection, reference number and figure of each command, in order of arrival. It isn't made part of its caller,
    /// since the caller's caller would then have room for a list more than once on its stack.
    #[inline(never)]
    pub fn look(&self) -> ArrayVec<(Connection, u32, u32), 64>
        requires few { length self.now.waiting ≤ 64 }
        requires small { sum_by left_of self.now.waiting + self.now.budget < 2 ^ 32 }
        ensures { result.items ≡ figures self.now.budget self.now.waiting }
    {
        let mut list = ArrayVec::new();
        for place in 0..self.len() {
            let record = self.record(place);
            list.push((
                record.connection(),
                record.command().reference,
                self.figure(place),
            ));
        }
        list
    }
}
