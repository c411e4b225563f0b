// The waiting commands, and how long each may still wait.
//
// A step takes the same from the figure of every command that isn't in service. So no figure is kept: a command has a
// due, from which the clock is taken off. Then a step changes one number for all, a poll is one subtraction, and a
// look one pass. By how many blocks a command was passed isn't counted either: due, clock and what stands in front of
// it tell that. When it was counted, a start wrote to every command in front of the one that started: 480 of the 2,160
// instructions of a finish on a Cortex-M3.

ghost use Rattle.std.specs.Prelude.{◌≡◌, ◌+◌, ◌-◌, ◌<◌, ◌≤◌, ◌^◌, ◌++◌, ◌∷◌, [], true, false, cond, length, map, take, drop, slice_index_or, sum_by, All};
ghost use Rattle.mscp_queue.specs.Common.{position, AreApart, bare, has_name, names, clock_end, advanced, is_in_service, is_unstarted, left_of, passed_by, record_at, step_charge, no_target, IsOnUnit, AreOnDrive, IsBest, IsOpenOn, cost_there, is_unfenced_at, kinds_of, lowered_by};

mod restoring;
mod telling;

use crate::drive::Drive;
use crate::name::Name;
use crate::record::Record;
use crate::slots::{Content, Slots};
use crate::start_key::Start;
use crate::target::Target;
use std::marker::Model;

/// Where the clock is set back to 0, so that no due outgrows its number.
const CLOCK_END: u64 = 1 << 40;

/// The waiting commands in their slots. The figure of each that isn't in service is its due less the clock: so a step,
/// which lets each figure fall by one, changes one number. By how many blocks each was passed is counted nowhere, but
/// told by its due, so that a start changes nothing of those that it passes.
#[derive(Drop)]
pub(crate) struct Backlog {
    slots: Slots,
    budget: u32,
    // How many steps were served since it was set back.
    clock: u64,
    // How many steps are left of all.
    total: u64,
}

// A clause sees the budget, the waiting commands in order of arrival, and the target of each.
impl Model for Backlog {
    ghost use Rattle.mscp_queue.specs.Common.{AreTimed, Waiters, targets, told};

    ghost Value = { Waiters };

    ghost view = { λ b.
        record {
          budget = b.budget;
          waiting = told b.budget b.clock b.slots;
          targets = targets b.slots;
        } };

    ghost invariant = { λ b. AreTimed b.budget b.clock b.total b.slots };
}

/// Sets the clock back, if it is at its end: each due falls with it.
fn set_back(slots: &mut Slots, clock: u64) -> u64
    requires end { clock ≤ clock_end }
    requires due { All (λ s. clock ≤ s.due) slots.old }
    ensures early { result < clock_end }
    ensures below { result ≤ clock }
    ensures dues { slots.new ≡ map (lowered_by (clock - result)) slots.old }
{
    if clock < CLOCK_END {
        return clock;
    }
    slots.lower_all(CLOCK_END);
    0
}

impl Backlog {
    /// No command waits. Each that comes may be passed by `budget` blocks.
    pub fn new(budget: u32) -> Backlog
        ensures { result ≡ record { budget = budget; waiting = []; targets = [] } }
    {
        Backlog {
            slots: Slots::new(),
            budget,
            clock: 0,
            total: 0,
        }
    }

    /// The same, but for the clock: so a test comes to its end.
    #[cfg(test)]
    pub fn at_clock(budget: u32, clock: u64) -> Backlog
        requires early { clock < clock_end }
        ensures { result ≡ record { budget = budget; waiting = []; targets = [] } }
    {
        Backlog {
            slots: Slots::new(),
            budget,
            clock,
            total: 0,
        }
    }

    /// No command waits any more.
    pub fn clear(&mut self)
        ensures { self.new ≡ record { budget = self.old.budget; waiting = []; targets = [] } }
    {
        self.slots.clear();
        self.total = 0;
    }

    /// How many commands wait.
    pub fn len(&self) -> usize
        ensures waiting { result ≡ length self.now.waiting }
        ensures targets { result ≡ length self.now.targets }
    {
        self.slots.len()
    }

    /// By how many blocks each command may be passed.
    pub fn budget(&self) -> u32
        ensures { result ≡ self.now.budget }
    {
        self.budget
    }

    /// The record at the place, but for the blocks by which its command was passed.
    pub fn record(&self, place: usize) -> &Record
        requires { place < length self.now.waiting }
        ensures { result.now ≡ bare (record_at self.now.waiting place) }
    {
        self.slots.item(place)
    }

    /// The place of the command of this name, in order of arrival, if it waits.
    pub fn place_of(&self, name: Name) -> Option<usize>
        requires apart { AreApart (names self.now.waiting) }
        ensures { result ≡ position (has_name name) self.now.waiting }
    {
        self.slots.place_of(name)
    }

    /// The target of the command at the place.
    pub fn target(&self, place: usize) -> Target
        requires { place < length self.now.waiting }
        ensures { result ≡ slice_index_or self.now.targets place no_target }
    {
        self.slots.target(place)
    }

    /// The best start on the drive at a place: of the commands to its unit that nobody in front keeps back, the first
    /// of the cheapest.
    pub fn favorite(&self, drive: &Drive, at: usize) -> Start
        requires few { length self.now.waiting ≤ 64 }
        requires drive { at < 16 }
        requires head { IsOnUnit drive.now }
        requires to { AreOnDrive at drive.now self.now.targets }
        ensures { IsBest (IsOpenOn (kinds_of self.now.waiting self.now.targets) at)
            (cost_there drive.now (kinds_of self.now.waiting self.now.targets) self.now.targets) result }
    {
        self.slots.favorite(drive, at)
    }

    /// Whether no command that came earlier keeps the one at the place back.
    pub fn is_free(&self, place: usize) -> bool
        requires { place < length self.now.waiting }
        ensures { result ≡ is_unfenced_at (kinds_of self.now.waiting self.now.targets) place }
    {
        self.slots.is_free(place)
    }

    /// Whether each command takes so many steps at the most.
    pub fn are_light(&self, most: u32) -> bool
        ensures { result ≡ true → All (λ r. r.weight ≤ most) self.now.waiting }
    {
        for place in 0..self.len() {
            if self.record(place).weight() > most {
                return false;
            }
        }
        true
    }

    /// Whether each command behind the place is of the unit of the one there.
    pub fn are_of_its_unit(&self, place: usize) -> bool
        requires { place < length self.now.waiting }
        ensures { result ≡ true
            → All (λ a. a.drive ≡ (slice_index_or self.now.targets place no_target).drive)
            (drop (place + 1) self.now.targets) }
    {
        self.slots.are_of_its_unit(place)
    }

    /// Lets a command wait, behind all that wait.
    pub fn push(&mut self, new: Record, target: Target)
        requires room { length self.old.waiting < 64 }
        requires drive { target.drive < 16 }
        requires range { target.range < 64 }
        requires fresh { new.done ≡ 0 }
        requires unpassed { new.passed ≡ 0 }
        requires small { sum_by left_of self.old.waiting + self.old.budget < 2 ^ 32 }
        ensures waiting { self.new.waiting ≡ self.old.waiting ++ new ∷ [] }
        ensures targets { self.new.targets ≡ self.old.targets ++ target ∷ [] }
        ensures budget { self.new.budget ≡ self.old.budget }
    {
        let left = u64::from(new.left());
        let due = self.clock + self.total + u64::from(self.budget) + left;
        self.slots.push(Content {
            item: new,
            target,
            due,
        });
        self.total += left;
    }

    /// The command at the place has a step: a start, with which it passes each in front of it, or another. Since it is
    /// in service then, all that is left of it stands before those in front: that is their pass.
    #[inline(always)]
    fn advance(&mut self, place: usize)
        requires place { place < length self.old.waiting }
        requires unfinished { (record_at self.old.waiting place).done < (record_at self.old.waiting place).weight }
        requires short { (record_at self.old.waiting place).weight < 2 ^ 32 }
        requires front { All (λ r. r.done ≡ 0) (take place self.old.waiting) }
        requires back { All (λ r. r.done ≡ 0) (drop (place + 1) self.old.waiting) }
        requires affordable { is_unstarted (record_at self.old.waiting place) ≡ true → All
            (λ r. r.passed + (record_at self.old.waiting place).weight ≤ self.old.budget)
            (take place self.old.waiting) }
        ensures waiting { self.new.waiting
            ≡ map (passed_by (step_charge (record_at self.old.waiting place))) (take place self.old.waiting)
            ++ advanced (record_at self.old.waiting place) ∷ drop (place + 1) self.old.waiting }
        ensures targets { self.new.targets ≡ self.old.targets }
        ensures budget { self.new.budget ≡ self.old.budget }
    {
        self.slots.advance(place);
        self.total -= 1;
        self.clock = set_back(&mut self.slots, self.clock + 1);
    }

    /// The command in service at the place leaves: nobody waits any more for what is left of it. A step that ends no
    /// command is quicker if this function isn't built into it.
    #[inline(never)]
    fn leave(&mut self, place: usize)
        requires place { place < length self.old.waiting }
        requires serving { is_in_service (record_at self.old.waiting place) ≡ true }
        requires front { All (λ r. r.done ≡ 0) (take place self.old.waiting) }
        requires back { All (λ r. r.done ≡ 0) (drop (place + 1) self.old.waiting) }
        ensures waiting { self.new.waiting ≡ take place self.old.waiting ++ drop (place + 1) self.old.waiting }
        ensures targets { self.new.targets ≡ take place self.old.targets ++ drop (place + 1) self.old.targets }
        ensures budget { self.new.budget ≡ self.old.budget }
    {
        let left = u64::from(self.slots.item(place).left());
        self.total -= left;
        self.slots.remove(place);
        self.slots.lower_all(left);
    }

    /// The command at the place leaves, which was never served: those behind it wait no more for it.
    fn leave_unstarted(&mut self, place: usize)
        requires place { place < length self.old.waiting }
        requires unstarted { is_in_service (record_at self.old.waiting place) ≡ false }
        ensures waiting { self.new.waiting ≡ take place self.old.waiting ++ drop (place + 1) self.old.waiting }
        ensures targets { self.new.targets ≡ take place self.old.targets ++ drop (place + 1) self.old.targets }
        ensures budget { self.new.budget ≡ self.old.budget }
    {
        let left = u64::from(self.slots.item(place).left());
        self.total -= left;
        self.slots.lower_behind(place, left);
        self.slots.remove(place);
    }

    /// A step of the command at the place: it ends with it, or not.
    #[inline(always)]
    pub fn serve(&mut self, place: usize, ends: bool)
        requires place { place < length self.old.waiting }
        requires unfinished { (record_at self.old.waiting place).done < (record_at self.old.waiting place).weight }
        requires short { (record_at self.old.waiting place).weight < 2 ^ 32 }
        requires front { All (λ r. r.done ≡ 0) (take place self.old.waiting) }
        requires back { All (λ r. r.done ≡ 0) (drop (place + 1) self.old.waiting) }
        requires affordable { is_unstarted (record_at self.old.waiting place) ≡ true → All
            (λ r. r.passed + (record_at self.old.waiting place).weight ≤ self.old.budget)
            (take place self.old.waiting) }
        ensures waiting { self.new.waiting
            ≡ map (passed_by (step_charge (record_at self.old.waiting place))) (take place self.old.waiting)
            ++ (cond ends [] (advanced (record_at self.old.waiting place) ∷ []) ++ drop (place + 1) self.old.waiting) }
        ensures targets { self.new.targets
            ≡ cond ends (take place self.old.targets ++ drop (place + 1) self.old.targets) self.old.targets }
        ensures budget { self.new.budget ≡ self.old.budget }
    {
        self.advance(place);
        if ends {
            self.leave(place);
        }
    }

    /// Takes the command at the place out, in service or not.
    pub fn take_out(&mut self, place: usize)
        requires place { place < length self.old.waiting }
        requires front { is_in_service (record_at self.old.waiting place) ≡ true
            → All (λ r. r.done ≡ 0) (take place self.old.waiting) }
        requires back { is_in_service (record_at self.old.waiting place) ≡ true
            → All (λ r. r.done ≡ 0) (drop (place + 1) self.old.waiting) }
        ensures waiting { self.new.waiting ≡ take place self.old.waiting ++ drop (place + 1) self.old.waiting }
        ensures targets { self.new.targets ≡ take place self.old.targets ++ drop (place + 1) self.old.targets }
        ensures budget { self.new.budget ≡ self.old.budget }
    {
        if self.record(place).is_unstarted() {
            self.leave_unstarted(place);
        } else {
            self.leave(place);
        }
    }
}
