// How what the port wanted done went.
//
// A report by serial counts only while the block is in hand. If that was put aside something else may be wanted
// meanwhile, whose report comes first: so its holder asks `next` again once the disk is done. A serial is that of the
// step which the controller has begun, and stays while that is begun, also if its block is put aside, or its volume is
// protected for a while: so a disk that is at the block needn't begin anew. A reset leaves the count, and a save has
// it.

ghost use Rattle.std.specs.Prelude.{◌≡◌, ◌⊎◌, ◌↔◌, ◌+◌, ◌%◌, if◌then◌else◌, ◌==◌, Contains, IfSome, IsOk, IsTrue, MatchOption, None};
ghost use Rattle.mscp_port.specs.Common.{ChangesByWord, Responses, Clears, GivesBack, counted, vector_in, Dies, Goes, GoesBy, TakesStep, IsAsNew, IsOutcomeOf, in_hand};
ghost use Rattle.mscp_port.specs.declared.action.Outcome.TheVariants as outcomes;
ghost use Rattle.mscp_port.specs.declared.buffers.Buffer.{Buffer as Kept};
ghost use Rattle.mscp_port.specs.declared.stage.Stage.TheVariants as stages;
ghost use Rattle.mscp_port.specs.declared.task.Task.TheVariants as tasks;

use crate::action::{Outcome, Unasked};
use crate::port::Port;
use crate::rings::Side;
use crate::sizes::{CLEARED, ClearSize};
use crate::slot::Descriptor;
use crate::stage::Stage;
use crate::task::Task;
use mscp_queue::Picker;

impl<K: Picker> Port<K> {
    /// An action that isn't a read went so; or a read failed so.
    ///
    /// # Errors
    ///
    /// `Unasked`, and nothing changes, if nothing was wanted, or if a read is told to be done without its bytes.
    #[inline(always)]
    pub fn went(&mut self, outcome: Outcome) -> Result<(), Unasked>
        ensures { Goes (K.picks self.old.controller.picker) outcome self.old result self.new }
    {
        if self.is_dead() || !self.may_go(&outcome) {
            return Err(Unasked);
        }
        let task = self.task;
        match task {
            Task::Free => {}
            Task::Slot(_) | Task::Neighbour(_) => self.die(6),
            Task::Header(_) | Task::Text { .. } => self.die(1),
            Task::Settle => self.settled(),
            Task::Clear(done) => self.cleared(done, outcome),
            Task::Packet(slot) => self.written_out(slot, outcome),
            Task::Return(side, slot) => self.returned(side, slot, outcome),
            // A fault at the interrupt word is ignored.
            Task::Word(_) => self.interrupt(),
            Task::Interrupt => self.task = Task::Free,
            Task::Step(verdict) => self.finish(verdict),
            Task::Transfer => self.finish(self.block_served(outcome)),
        }
        Ok(())
    }

    /// The block of this serial went so, which `next` told: for a disk that takes its time. One that was put aside is
    /// in hand again once `next` has told it.
    ///
    /// # Errors
    ///
    /// `Unasked`, and nothing changes, if the port doesn't want that block now: its command was aborted, say, and
    /// another one has its number.
    pub fn went_by(&mut self, serial: u64, outcome: Outcome) -> Result<(), Unasked>
        ensures { GoesBy (K.picks self.old.controller.picker) serial outcome self.old result self.new }
    {
        match self.task {
            Task::Transfer if self.serial == serial => self.went(outcome),
            _ => Err(Unasked),
        }
    }

    /// Whether what is in hand may have gone so. A read that was done is told by its bytes.
    fn may_go(&self, outcome: &Outcome) -> bool
        ensures { IsTrue result ↔ IsOutcomeOf self.now.task outcome.now }
    {
        match self.task {
            Task::Free => false,
            Task::Slot(_) | Task::Header(_) | Task::Text { .. } | Task::Neighbour(_) => {
                !matches!(*outcome, Outcome::Done)
            }
            _ => true,
        }
    }

    /// The machine went on a little since the host answered a step.
    fn settled(&mut self)
        ensures steps { IfSome self.old.written (λ word. TakesStep word self.old self.new) }
        ensures none { self.old.written ≡ None → self.new ≡ record self.old { task = tasks.Free } }
        ensures settings { self.new.controller.settings ≡ self.old.controller.settings }
        ensures frame { ChangesByWord self.old self.new ⊎ Dies self.old self.new }
        ensures buffers { (b : Kept) → Contains self.new.buffers.items b → Contains self.old.buffers.items b }
        ensures packet { in_hand self.new.task ≡ None }
    {
        self.task = Task::Free;
        if let Some(word) = self.written.take() {
            self.take_step(word);
        }
    }

    /// A part of the communication area was cleared, behind so many bytes.
    fn cleared(&mut self, done: ClearSize, outcome: Outcome)
        ensures clears { MatchOption self.old.rings (IsAsNew (stages.Dead 7) self.old self.new)
            (λ r. Clears outcome r done self.old self.new) }
        ensures frame { (self.new ≡ record self.old { stage = self.new.stage; task = self.new.task })
            ⊎ Dies self.old self.new }
        ensures stage { (self.new.stage ≡ self.old.stage) ⊎ (self.new.stage ≡ stages.Last) ⊎ Dies self.old self.new }
        ensures packet { in_hand self.new.task ≡ None }
    {
        let Some(rings) = self.rings else {
            return self.die(7);
        };
        if !matches!(outcome, Outcome::Done) {
            return self.die(7);
        }
        if rings.start(self.has_purge_word()) + done.get() + CLEARED < rings.end() {
            self.task = Task::Clear(done.next());
        } else {
            self.task = Task::Free;
            self.enter(Stage::Last);
        }
    }

    /// The next slot of a ring was given back.
    fn returned(&mut self, side: Side, slot: Descriptor, outcome: Outcome)
        ensures gives_back { MatchOption self.old.rings (IsAsNew (stages.Dead 7) self.old self.new)
            (λ r. GivesBack outcome r side slot self.old self.new) }
        ensures frame { (self.new ≡ record self.old {
          responses = self.new.responses;
          commands = self.new.commands;
          task = self.new.task;
          outgoing = self.new.outgoing;
          is_stalled = self.new.is_stalled;
        }) ⊎ Dies self.old self.new }
        ensures packet { in_hand self.new.task ≡ None }
        ensures out { (self.new.outgoing ≡ self.old.outgoing) ⊎ Dies self.old self.new
            ⊎ ((side ≡ Responses) × (outcome ≡ outcomes.Done) × (self.new.outgoing ≡ None)
            × (self.new.responses ≡ (self.old.responses + 1) % 256)) }
    {
        let Some(rings) = self.rings else {
            return self.die(7);
        };
        if !matches!(outcome, Outcome::Done) {
            return self.die(7);
        }
        self.count(side);
        self.task = if !slot.is_flagged() {
            Task::Free
        } else if rings.slots(side) == 1 {
            Task::Word(side)
        } else {
            Task::Neighbour(side)
        };
    }

    /// Counts a slot of a ring that was given back. What went out is gone.
    fn count(&mut self, side: Side)
        ensures { self.new ≡ counted side self.old }
    {
        match side {
            Side::Responses => {
                self.responses = self.responses.wrapping_add(1);
                self.outgoing = None;
                self.is_stalled = false;
            }
            Side::Commands => self.commands = self.commands.wrapping_add(1),
        }
    }

    /// The interrupt word was written: the host is interrupted, if it wants that.
    fn interrupt(&mut self)
        ensures value { self.new ≡ record self.old {
          task = if vector_in self.old.words.first == 0 then tasks.Free else tasks.Interrupt;
        } }
        ensures packet { in_hand self.new.task ≡ None }
    {
        self.task = if self.vector() == 0 {
            Task::Free
        } else {
            Task::Interrupt
        };
    }
}
