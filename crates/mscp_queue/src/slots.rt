// The slots of the waiting commands.
//
// A command keeps its slot as long as it waits. So its bit of a mask stays its bit if others leave, and only its place
// in the order of arrival changes. Records, targets, dues and masks are arrays, with an entry for every slot from the
// start. A list without gaps, in which what stands behind a command moves up, took twice the instructions.

ghost use Rattle.std.specs.Prelude.{◌≡◌, ◌+◌, ◌<◌, ◌≤◌, ◌^◌, ◌++◌, ◌∷◌, true, false, [], List, length, map, take, drop, slice_set, All, IfNone, IfSome};
ghost use Rattle.mscp_queue.specs.Common.{list_any, is_sequential, advanced, has_name, IsOnUnit, AreOnDrive, IsBest, IsLowestUntaken, IsNearOf, IsOpenOn, cost_there, kinds, targets, dues, filled, is_unfenced, items, lowered_by, shown, slot_at, with_item};

use crate::buckets::Buckets;
use crate::drive::Drive;
use crate::lowering::lower;
use crate::masks::{Masks, has_bit, lowest_free, lowest_set, with_bit};
use crate::name::Name;
use crate::ranges::{Ranges, range_of};
use crate::record::Record;
use crate::start_key::Start;
use crate::target::Target;
use arrayvec::ArrayVec;
use std::marker::Model;

/// What a slot holds: the record of a waiting command, its target, and its due.
#[derive(Clone, Copy)]
pub(crate) struct Content {
    pub item: Record,
    pub target: Target,
    pub due: u64,
}

/// The slots of the waiting commands.
#[derive(Drop)]
pub(crate) struct Slots {
    records: [Record; 64],
    targets: [Target; 64],
    dues: [u64; 64],
    // The slots that are taken, in order of arrival.
    order: ArrayVec<u8, 64>,
    masks: Masks,
    ranges: Ranges,
    buckets: Buckets,
}

// A clause sees the slots that are taken, with their numbers, in order of arrival.
impl Model for Slots {
    ghost use Rattle.mscp_queue.specs.Common.{List, AreSlotted, shown};
    ghost use Rattle.mscp_queue.specs.Slots.{Slot as Shown};

    ghost Value = { List Shown };

    ghost view = { λ s. shown s.records s.targets s.dues s.order.items };

    ghost invariant = { λ s. AreSlotted s.records s.targets s.order.items s.masks s.ranges s.buckets.slots };
}

/// From so many commands on a look at ranges is quicker than a look at each.
const MANY: u32 = 6;

/// Of the slots in front those among which the best start on this drive is.
fn near_of(masks: &Masks, ranges: &Ranges, front: u64, drive: &Drive) -> u64
    ensures { IsNearOf masks.now.sequential drive.now ranges.now front result }
{
    if front & masks.sequential != 0 || front.count_ones() < MANY {
        return front;
    }
    let range = range_of(&drive.unit, drive.head.cylinder);
    ranges.nearest(front, usize::from(range), drive.head.up)
}

impl Slots {
    /// No slot is taken.
    pub fn new() -> Slots
        ensures { result ≡ [] }
    {
        Slots {
            records: [Record::default(); 64],
            targets: [Target::default(); 64],
            dues: [0; 64],
            order: ArrayVec::new(),
            masks: Masks::new(),
            ranges: Ranges::new(),
            buckets: Buckets::new(),
        }
    }

    /// Each slot is free again.
    pub fn clear(&mut self)
        ensures { self.new ≡ [] }
    {
        self.order.clear();
        self.masks = Masks::new();
        self.buckets = Buckets::new();
    }

    /// How many slots are taken.
    pub fn len(&self) -> usize
        ensures { result ≡ length self.now }
    {
        self.order.len()
    }

    /// Takes the lowest free slot for a command that came last, and gives its number.
    pub fn push(&mut self, new: Content) -> usize
        requires room { length self.old < 64 }
        requires drive { new.target.drive < 16 }
        requires range { new.target.range < 64 }
        ensures lowest { IsLowestUntaken result self.old }
        ensures after { self.new ≡ self.old ++ filled result new ∷ [] }
    {
        let slot = lowest_free(self.masks.waiting);
        self.records[slot] = new.item;
        self.targets[slot] = new.target;
        self.ranges.set(slot, new.target.range);
        self.dues[slot] = new.due;
        self.buckets.come(slot, new.item.command().reference);
        self.masks.come(
            slot,
            usize::from(new.target.drive),
            new.item.is_sequential(),
        );
        self.order.push(slot as u8);
        slot
    }

    /// The command at the place leaves its slot.
    #[inline(always)]
    pub fn remove(&mut self, place: usize)
        requires { place < length self.old }
        ensures { self.new ≡ take place self.old ++ drop (place + 1) self.old }
    {
        let slot = usize::from(self.order[place]);
        self.order.remove(place);
        let reference = self.records[slot].command().reference;
        self.buckets.leave(slot, reference);
        self.masks
            .leave(slot, usize::from(self.targets[slot].drive));
    }

    /// The command at the place had a step.
    pub fn advance(&mut self, place: usize)
        requires place { place < length self.old }
        requires unfinished { (slot_at self.old place).item.done + 1 < 2 ^ 32 }
        ensures { self.new ≡ slice_set self.old place (with_item advanced (slot_at self.old place)) }
    {
        let slot = usize::from(self.order[place]);
        self.records[slot].advance();
    }

    /// Lowers each due by so much, which is no more than any of them.
    pub fn lower_all(&mut self, by: u64)
        requires { All (λ s. by ≤ s.due) self.old }
        ensures { self.new ≡ map (lowered_by by) self.old }
    {
        if by > 0 {
            lower(&mut self.dues, self.masks.waiting, by);
        }
    }

    /// Lowers the dues behind the place by so much, which is no more than any of them.
    pub fn lower_behind(&mut self, place: usize, by: u64)
        requires place { place < length self.old }
        requires enough { All (λ s. by ≤ s.due) (drop (place + 1) self.old) }
        ensures { self.new ≡ take (place + 1) self.old ++ map (lowered_by by) (drop (place + 1) self.old) }
    {
        let slot = usize::from(self.order[place]);
        lower(&mut self.dues, self.masks.behind(slot), by);
    }

    /// The record at the place.
    pub fn item(&self, place: usize) -> &Record
        requires { place < length self.now }
        ensures { result.now ≡ (slot_at self.now place).item }
    {
        &self.records[usize::from(self.order[place])]
    }

    /// The place of a command of this name, if one waits.
    pub fn place_of(&self, name: Name) -> Option<usize>
        ensures some { IfSome result (λ place.
            (place < length self.now) × (has_name name (slot_at self.now place).item ≡ true)) }
        ensures none { IfNone result (list_any (has_name name) (items self.now) ≡ false) }
    {
        let mut left = self.buckets.slots_of(name.reference);
        while let Some(slot) = lowest_set(left) {
            left = with_bit(left, slot, false);
            if self.records[slot].has_name(name) {
                return Some(self.masks.place(slot));
            }
        }
        None
    }

    /// The target of the command at the place.
    pub fn target(&self, place: usize) -> Target
        requires { place < length self.now }
        ensures { result ≡ (slot_at self.now place).target }
    {
        self.targets[usize::from(self.order[place])]
    }

    /// The due of the command at the place.
    pub fn due(&self, place: usize) -> u64
        requires { place < length self.now }
        ensures { result ≡ (slot_at self.now place).due }
    {
        self.dues[usize::from(self.order[place])]
    }

    /// The best start on the drive at a place: of the commands to its unit that nobody in front keeps back, the first
    /// of the cheapest.
    pub fn favorite(&self, drive: &Drive, at: usize) -> Start
        requires few { length self.now ≤ 64 }
        requires drive { at < 16 }
        requires head { IsOnUnit drive.now }
        requires to { AreOnDrive at drive.now (targets self.now) }
        ensures { IsBest (IsOpenOn (kinds self.now) at) (cost_there drive.now (kinds self.now)
            (targets self.now)) result }
    {
        let drive = *drive;
        let near = near_of(&self.masks, &self.ranges, self.masks.front(at), &drive);
        let Some(first) = lowest_set(near) else {
            return Start::none();
        };
        let mut best = first;
        let mut least = drive.cost(
            has_bit(self.masks.sequential, first),
            self.targets[first].cylinder,
        );
        let mut left = with_bit(near, first, false);
        while let Some(slot) = lowest_set(left) {
            left = with_bit(left, slot, false);
            let cost = drive.cost(
                has_bit(self.masks.sequential, slot),
                self.targets[slot].cylinder,
            );
            if self.masks.starts_before(slot, cost, best, least) {
                best = slot;
                least = cost;
            }
        }
        Start::of(least, self.masks.place(best))
    }

    /// Whether no command that came earlier keeps the one at the place back.
    pub fn is_free(&self, place: usize) -> bool
        requires { place < length self.now }
        ensures { result ≡ is_unfenced (slot_at self.now place) (take place self.now) }
    {
        let slot = usize::from(self.order[place]);
        let drive = usize::from(self.targets[slot].drive);
        self.masks
            .is_free(slot, drive, self.records[slot].is_sequential())
    }

    /// Whether each command behind the place is of the unit of the one there.
    pub fn are_of_its_unit(&self, place: usize) -> bool
        requires { place < length self.now }
        ensures { result ≡ true
            → All (λ s. s.target.drive ≡ (slot_at self.now place).target.drive) (drop (place + 1) self.now) }
    {
        let slot = usize::from(self.order[place]);
        let drive = usize::from(self.targets[slot].drive);
        self.masks.is_last_unit(slot, drive)
    }
}

#[cfg(test)]
mod tests;
