// What the port wants done.

ghost use Rattle.std.specs.Prelude.{◌≡◌, ◌≢◌, ◌≤◌, ◌<◌, ◌⊎◌, ◌+◌, ◌-◌, ◌*◌, ◌^◌, ℕ, true, false, length, IfSome, min, replicate, None, Some};
ghost use Rattle.mscp_port.specs.Common.{ChangesBySaying, little_bytes, Responses, Commands, IsInArea, end_of, slot_in, slots_of, Wants, asked, asks_blocks, block_is_due, HasNothingToHear, HasNothingToSay, IsAlive, IsDue, IsIdleUp, IsOfBlock, IsMovedFor, IsWithin, in_hand, BeginsBlock, MayMoveOn, block_begun, move_wanted, serial_after, KeepsSaying, Says, TakesEnd, TellsNews, credits_told, packet_of, text_of, IsWanted, clear_count, clear_from, given_in, packet_out};
ghost use Rattle.mscp_port.specs.declared.action.Action.TheVariants as actions;
ghost use Rattle.mscp_port.specs.declared.stage.Stage.TheVariants as stages;
ghost use Rattle.mscp_port.specs.declared.task.Task.TheVariants as tasks;
ghost use Rattle.mscp_packet.specs.declared.command.MoveKind.{MoveKind as Kind};

use crate::action::{Action, Ask};
use crate::port::Port;
use crate::port::serving::move_to;
use crate::rings::{Rings, Side};
use crate::sizes::ClearSize;
use crate::slot::Descriptor;
use crate::stage::Stage;
use crate::task::Task;
use mscp_queue::Picker;

/// The bytes of a packet's header, which stands in front of its text.
const HEADER: u32 = 4;

/// A slot of a ring is to be read.
fn slot_wanted(rings: &Rings, side: Side, number: u32) -> Action
    requires { number < 2 ^ 31 }
    ensures value { result ≡ actions.Read (slot_in rings.now side number) 4 }
    ensures inside { IsInArea rings.now (slot_in rings.now side number) 4 }
{
    Action::Read {
        address: rings.slot(side, number),
        count: 4,
    }
}

/// The number of the slot in front of the one that was given back last, behind which so many were given back.
fn number_before(rings: &Rings, side: Side, number: u32) -> u32
    requires { number < 256 }
    ensures value { result ≡ number + 2 * slots_of rings.now side - 2 }
    ensures small { result < 2 ^ 31 }
{
    number + 2 * rings.slots(side) - 2
}

impl<K: Picker> Port<K> {
    /// What the port wants done next. Until it is told how that went it answers the same, unless a register is touched.
    /// If messages alone are asked for, a block that is in hand is put aside.
    pub fn next(&mut self, ask: Ask) -> Action
        ensures { Wants (K.picks (asked ask self.old).controller.picker) (asks_blocks ask) (asked ask self.old) result
            self.new }
    {
        self.put_aside(ask);
        self.want(ask)
    }

    /// A block that is in hand is put aside, if messages alone are asked for.
    fn put_aside(&mut self, ask: Ask)
        ensures { self.new ≡ asked ask self.old }
    {
        if let (Ask::Messages, Task::Transfer) = (ask, self.task) {
            self.task = Task::Free;
        }
    }

    /// What is wanted next, if nothing is to be put aside.
    fn want(&mut self, ask: Ask) -> Action
        ensures { Wants (K.picks self.old.controller.picker) (asks_blocks ask) self.old result self.new }
    {
        if self.is_dead() {
            return Action::Rest;
        }
        let mut moved = None;
        if let Task::Free = self.task {
            let (task, action) = self.choose(ask);
            self.task = task;
            moved = action;
        }
        self.action_beside(moved)
    }

    /// What is wanted for what it has in hand, where this move is known to be, if one is.
    fn action_beside(&self, moved: Option<Action>) -> Action
        requires { IfSome moved (IsMovedFor self.now self.now.task) }
        ensures within { IsWithin self.now result }
        ensures wanted { IsWanted self.now self.now.task result }
        ensures moves { (kind : Kind) (unit block address count : ℕ)
            → result ≡ actions.Transfer kind unit block address count → MayMoveOn kind unit block self.now }
        ensures rests { result ≡ actions.Rest → self.now.task ≡ tasks.Free }
    {
        match moved {
            Some(action) => action,
            None => self.action(),
        }
    }

    /// What it takes in hand, and the move of its block, if it moves one.
    fn choose(&mut self, ask: Ask) -> (Task, Option<Action>)
        requires { self.old.task ≡ tasks.Free }
        ensures frame { ChangesBySaying self.old self.new }
        ensures packet { in_hand result.0 ≡ None }
        ensures moves { IfSome result.1 (IsMovedFor self.new result.0) }
        ensures due { IsDue (asks_blocks ask) self.new result.0 }
        ensures says { Says self.old self.new }
        ensures begun { (IsOfBlock result.0 → ⊥) → self.new.controller.begun ≡ self.old.controller.begun }
        ensures serial { self.new.serial
            ≡ serial_after self.old.controller.begun self.new.controller.begun self.old.serial }
        ensures settings { self.new.controller.settings ≡ self.old.controller.settings }
        ensures step { result.0 ≡ tasks.Free → self.new.written ≡ None }
        ensures begins { IsOfBlock result.0
            → BeginsBlock (K.picks self.old.controller.picker) result.0 self.old self.new }
        ensures up { result.0 ≡ tasks.Free → self.new.stage ≡ stages.Up → IsIdleUp (asks_blocks ask) self.new }
    {
        if self.written.is_some() {
            return (Task::Settle, None);
        }
        match self.stage {
            Stage::Up => self.choose_work(ask),
            _ => (Task::Free, None),
        }
    }

    /// What it takes in hand while the rings are in use: what goes out, what comes in, and then a block, if not
    /// messages alone are asked for. Behind a poll comes a block first.
    fn choose_work(&mut self, ask: Ask) -> (Task, Option<Action>)
        ensures frame { ChangesBySaying self.old self.new }
        ensures packet { in_hand result.0 ≡ None }
        ensures moves { IfSome result.1 (IsMovedFor self.new result.0) }
        ensures goes_out { self.new.outgoing ≢ None → self.new.is_full ≡ false → result.0 ≡ tasks.Slot Responses }
        ensures comes_in { HasNothingToSay self.new → self.new.is_polled ≡ true → self.new.is_stalled ≡ false
            → block_is_due (asks_blocks ask) self.new ≡ false → result.0 ≡ tasks.Slot Commands }
        ensures first { HasNothingToSay self.new → block_is_due (asks_blocks ask) self.new ≡ true → IsOfBlock result.0 }
        ensures block { HasNothingToSay self.new → HasNothingToHear self.new
            → (result.0 ≡ tasks.Free) ⊎ IsOfBlock result.0 }
        ensures message { asks_blocks ask ≡ false → IsOfBlock result.0 → ⊥ }
        ensures idle { result.0 ≡ tasks.Free → IsIdleUp (asks_blocks ask) self.new }
        ensures begins { IsOfBlock result.0
            → BeginsBlock (K.picks self.old.controller.picker) result.0 self.old self.new }
        ensures looks { self.old.outgoing ≡ None → TakesEnd self.old self.new ⊎ TellsNews self.old self.new }
        ensures keeps { self.old.outgoing ≢ None → KeepsSaying self.old self.new }
        ensures begun { (IsOfBlock result.0 → ⊥) → self.new.controller.begun ≡ self.old.controller.begun }
        ensures serial { self.new.serial
            ≡ serial_after self.old.controller.begun self.new.controller.begun self.old.serial }
        ensures settings { self.new.controller.settings ≡ self.old.controller.settings }
    {
        if self.outgoing.is_none() {
            self.find_outgoing();
        }
        if self.outgoing.is_some() && !self.is_full {
            return (Task::Slot(Side::Responses), None);
        }
        if self.is_polled && !self.is_stalled && !self.block_is_due(ask) {
            return (Task::Slot(Side::Commands), None);
        }
        if let Ask::Messages = ask {
            return (Task::Free, None);
        }
        self.choose_block()
    }

    /// Whether a block comes before the next message: a poll was heard and no block was told since, one may be served,
    /// and blocks are asked for. So a host that polls at once again can't keep its own commands back.
    fn block_is_due(&self, ask: Ask) -> bool
        ensures { result ≡ block_is_due (asks_blocks ask) self.now }
    {
        self.owes_block && matches!(ask, Ask::All) && self.controller.len() > 0
    }

    /// What is wanted for what it has in hand.
    fn action(&self) -> Action
        ensures within { IsWithin self.now result }
        ensures wanted { IsWanted self.now self.now.task result }
        ensures moves { (kind : Kind) (unit block address count : ℕ)
            → result ≡ actions.Transfer kind unit block address count → MayMoveOn kind unit block self.now }
        ensures rests { result ≡ actions.Rest → self.now.task ≡ tasks.Free }
    {
        match (self.task, self.rings) {
            (Task::Free, _) => Action::Rest,
            (Task::Interrupt, _) => Action::Interrupt(self.vector()),
            (Task::Header(slot), _) => self.header_wanted(slot),
            (Task::Text { slot, .. }, _) => Action::Read {
                address: slot.text(),
                count: self.task.text_size(),
            },
            (Task::Packet(slot), _) => self.packet_wanted(slot),
            (Task::Clear(_), Some(rings)) => self.clearing(&rings, self.task.clear_size()),
            (Task::Slot(side), Some(rings)) => {
                slot_wanted(&rings, side, u32::from(self.number(side)))
            }
            (Task::Neighbour(side), Some(rings)) => {
                let number = number_before(&rings, side, u32::from(self.number(side)));
                slot_wanted(&rings, side, number)
            }
            (Task::Return(side, _), Some(rings)) => Action::Write {
                address: rings.slot(side, u32::from(self.number(side))),
                count: 4,
            },
            (Task::Word(side), Some(rings)) => Action::Write {
                address: rings.word(side),
                count: 2,
            },
            (Task::Transfer, _) => self.moving(),
            _ => Action::Pause,
        }
    }

    /// How many slots of a ring were given back, modulo 256.
    fn number(&self, side: Side) -> u8
        ensures { result ≡ given_in self.now side }
    {
        match side {
            Side::Responses => self.responses,
            Side::Commands => self.commands,
        }
    }

    /// The header of a command is to be read.
    fn header_wanted(&self, slot: Descriptor) -> Action
        requires { in_hand self.now.task ≡ Some slot.word }
        ensures within { IsWithin self.now result }
        ensures value { result ≡ actions.Read (text_of slot.word - 4) 4 }
    {
        Action::Read {
            address: slot.text().saturating_sub(HEADER),
            count: HEADER,
        }
    }

    /// The packet of what goes out is to be written.
    fn packet_wanted(&self, slot: Descriptor) -> Action
        requires { in_hand self.now.task ≡ Some slot.word }
        ensures within { IsWithin self.now result }
        ensures value { result
            ≡ actions.Write (text_of slot.word - 4) (length (packet_out self.now self.now.outgoing)) }
    {
        Action::Write {
            address: slot.text().saturating_sub(HEADER),
            count: self.packet_size(),
        }
    }

    /// The next bytes of the communication area are to be cleared.
    fn clearing(&self, rings: &Rings, done: ClearSize) -> Action
        requires { self.now.rings ≡ Some rings.now }
        ensures within { IsWithin self.now result }
        ensures value { result
            ≡ actions.Write (clear_from self.now rings.now done) (clear_count self.now rings.now done) }
    {
        Action::Write {
            address: self.clear_from(rings, done),
            count: self.clear_count(rings, done),
        }
    }

    /// The block is to be moved that is in hand, if its step may go on.
    fn moving(&self) -> Action
        ensures within { IsWithin self.now result }
        ensures value { result ≡ move_wanted self.now (block_begun self.now) }
        ensures moves { (kind : Kind) (unit block address count : ℕ)
            → result ≡ actions.Transfer kind unit block address count → MayMoveOn kind unit block self.now }
        ensures some { result ≢ actions.Rest }
    {
        let Some((upcoming, kind, block)) = self.block_begun() else {
            return Action::Pause;
        };
        match self.part(&upcoming, kind, block) {
            Ok(part) => move_to(&upcoming, kind, block, part),
            Err(_) => Action::Pause,
        }
    }
}
