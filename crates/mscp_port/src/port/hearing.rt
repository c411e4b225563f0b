// What the port reads in host memory.
//
// A command's packet whose envelope tells fewer than 12 bytes is a fatal error: no command message is so short, and
// what follows the text is nothing that the host sent. (SIMH's own disk reads 60 bytes whatever the envelope tells.) A
// message becomes a value at once: an end, if the port answers it itself, or a command, which the controller gets as
// such. It stays in its slot, and is read again later, while a credit or its number isn't free, or another end goes
// out.

ghost use Rattle.std.specs.Prelude.{◌≡◌, ◌≢◌, ◌≤◌, ◌⊎◌, ℕ, true, length, Contains, IfSome, Option, None, Ok, Err};
ghost use Rattle.mscp_port.specs.Common.{First, after_message, num, kept_beside, without_aborted, handed, ChangesByReading, Dies, Hears, AnswersItself, end_kind, in_hand, SeesHeader, SeesText, answered_to, changes_at, decided_after, heeded, neighbour_seen, settings_heeded, slot_seen, is_owned, place_in};
ghost use Rattle.mscp_controller.specs.declared.entry.SendFault.{SendFault as Refused};
ghost use Rattle.mscp_controller.specs.declared.entry.Sent.{Sent as Told};
ghost use Rattle.mscp_controller.specs.declared.entry.Sent.TheVariants as sents;
ghost use Rattle.mscp_port.specs.declared.buffers.Buffer.{Buffer as Kept};
ghost use Rattle.mscp_port.specs.declared.task.Task.TheVariants as tasks;
ghost use Rattle.mscp_port.specs.Buffers.{buffer_in};
ghost use Rattle.mscp_port.specs.Messages.{own_end_of};

use crate::action::Unasked;
use crate::buffers::{Buffer, forget_aborted, keep};
use crate::message::{command_for_controller, own_end};
use crate::port::{Outgoing, OutgoingKind, Port};
use crate::rings::Side;
use crate::sizes::{LONGEST_TEXT, TextSize};
use crate::slot::Descriptor;
use crate::task::Task;
use arrayvec::ArrayVec;
use mscp_controller::{SendFault, Sent};
use mscp_packet::fields::{four_at, two_at};
use mscp_packet::{End, opcodes, write_end};
use mscp_queue::{Connection, Picker};

/// The connection of commands that the diagnostic and utilities protocol has.
pub(super) const UTILITIES: u8 = 2;

/// What the port's own end of a message is.
fn end_kind(is_foreign: bool) -> OutgoingKind
    ensures { result ≡ end_kind is_foreign }
{
    if is_foreign {
        OutgoingKind::UtilitiesEnd
    } else {
        OutgoingKind::End
    }
}

impl<K: Picker> Port<K> {
    /// These bytes were read in host memory, as the port wanted.
    ///
    /// # Errors
    ///
    /// `Unasked`, and nothing changes, if it wanted no bytes, or not as many.
    pub fn was_read(&mut self, bytes: &[u8]) -> Result<(), Unasked>
        ensures { Hears bytes.now self.old result self.new }
    {
        if self.is_dead() {
            return Err(Unasked);
        }
        let task = self.task;
        match task {
            Task::Slot(side) if bytes.len() == 4 => {
                let word = four_at(bytes, 0);
                self.see_slot(side, Descriptor { word });
            }
            Task::Neighbour(side) if bytes.len() == 4 => {
                self.see_neighbour(side, four_at(bytes, 0));
            }
            Task::Header(slot) if bytes.len() == 4 => self.see_header(slot, four_at(bytes, 0)),
            Task::Text {
                slot,
                length,
                is_foreign,
            } if bytes.len() == length.get() as usize => {
                self.see_text(slot, is_foreign, bytes);
            }
            _ => return Err(Unasked),
        }
        Ok(())
    }

    /// The next slot of a ring. If it is the host's, there is nothing to do with the ring for now.
    fn see_slot(&mut self, side: Side, slot: Descriptor)
        ensures value { self.new ≡ slot_seen side slot self.old }
        ensures frame { self.new ≡ record self.old {
          task = self.new.task;
          is_full = self.new.is_full;
          is_polled = self.new.is_polled;
        } }
        ensures packet { IfSome (in_hand self.new.task) (λ word. (word ≡ slot.word) × (is_owned word ≡ true)) }
    {
        match side {
            Side::Responses if slot.is_owned() => self.task = Task::Packet(slot),
            Side::Commands if slot.is_owned() => self.task = Task::Header(slot),
            Side::Responses => {
                self.is_full = true;
                self.task = Task::Free;
            }
            Side::Commands => {
                self.is_polled = false;
                self.task = Task::Free;
            }
        }
    }

    /// The slot in front of the one that was given back. If it is the port's, the ring of commands was full, or that of
    /// responses was empty, and the host hears of it.
    fn see_neighbour(&mut self, side: Side, word: u32)
        ensures value { self.new ≡ record self.old { task = neighbour_seen side word } }
        ensures packet { in_hand self.new.task ≡ None }
    {
        let slot = Descriptor { word };
        self.task = if slot.is_owned() {
            Task::Word(side)
        } else {
            Task::Free
        };
    }

    /// The header of a command's packet: the length of its text in the low half, its type in bits 20 to 23, and its
    /// connection in the high byte. Of a text that is longer than any command's its first bytes are read.
    fn see_header(&mut self, slot: Descriptor, header: u32)
        ensures value { SeesHeader slot header self.old self.new }
        ensures frame { (self.new ≡ record self.old { task = self.new.task }) ⊎ Dies self.old self.new }
        ensures packet { IfSome (in_hand self.new.task) (λ word. word ≡ slot.word) }
    {
        let connection = header / 0x100_0000;
        if header / 0x10_0000 % 0x10 != 0 {
            return self.die(20);
        }
        if connection != 0 && connection != u32::from(UTILITIES) {
            return self.die(14);
        }
        let Some(length) = TextSize::of((header % 0x1_0000).min(LONGEST_TEXT)) else {
            return self.die(1);
        };
        self.task = Task::Text {
            slot,
            length,
            is_foreign: connection == u32::from(UTILITIES),
        };
    }

    /// The text of a command: the port answers it itself, or the controller gets it.
    fn see_text(&mut self, slot: Descriptor, is_foreign: bool, message: &[u8])
        requires short { 12 ≤ length message.now }
        requires long { length message.now ≤ 64 }
        ensures sees { SeesText slot is_foreign message.now self.old self.new }
        // What goes out stays so; where nothing did, it may be the port's own end.
        ensures out { (self.new.outgoing ≡ self.old.outgoing) ⊎ AnswersItself is_foreign message.now self.old self.new }
        ensures settings { self.new.controller.settings ≡ self.old.controller.settings }
        ensures own { own_end_of self.old is_foreign message.now ≢ None → self.new.controller ≡ self.old.controller }
        ensures handed { own_end_of self.old is_foreign message.now ≡ None → self.new.controller
            ≡ after_message First self.old.controller (handed self.old.controller.settings.units message.now) }
        ensures frame { ChangesByReading self.old self.new }
        ensures packet { IfSome (in_hand self.new.task) (λ word. word ≡ slot.word) }
        ensures kept { (b : Kept) → Contains self.new.buffers.items b → Contains self.old.buffers.items b
            ⊎ ((changes : ℕ) × (b ≡ buffer_in message.now changes)) }
    {
        self.timeout = self.seconds();
        self.left = self.timeout;
        self.task = Task::Return(Side::Commands, slot);
        match self.own_end(message, is_foreign) {
            Some(_) if self.outgoing.is_some() => self.stall(),
            Some(end) => {
                self.outgoing = Some(Outgoing {
                    bytes: write_end(&end),
                    kind: end_kind(is_foreign),
                });
            }
            None => self.send(message),
        }
    }

    /// The end of a message that the port answers itself, if it does.
    fn own_end(&self, message: &[u8], is_foreign: bool) -> Option<End>
        requires { 12 ≤ length message.now }
        ensures { result ≡ own_end_of self.now is_foreign message.now }
    {
        own_end(message, is_foreign, self.volume(two_at(message, 4)))
    }

    /// The command stays in its slot until a credit or its number is free, or what goes out has gone.
    fn stall(&mut self)
        ensures { self.new ≡ record self.old { is_stalled = true; task = tasks.Free } }
    {
        self.is_stalled = true;
        self.task = Task::Free;
    }

    /// The controller gets a message.
    fn send(&mut self, message: &[u8])
        requires short { 12 ≤ length message.now }
        requires long { length message.now ≤ 64 }
        ensures settings { self.new.controller.settings ≡ self.old.controller.settings }
        ensures handed { self.new.controller
            ≡ after_message First self.old.controller (handed self.old.controller.settings.units message.now) }
        ensures frame { self.new ≡ record self.old {
          controller = self.new.controller;
          task = self.new.task;
          is_stalled = self.new.is_stalled;
          owes_block = self.new.owes_block;
          buffers = self.new.buffers;
          decided = self.new.decided;
          flags = self.new.flags;
          timeout = self.new.timeout;
          left = self.new.left;
        } }
        ensures task { (self.new.task ≡ self.old.task) ⊎ (self.new.task ≡ tasks.Free) }
        ensures sent { (s : Told) → answered_to self.old message.now ≡ Ok s
            → self.new ≡ record (heeded s message.now self.old) {
              controller = self.new.controller;
              buffers = self.new.buffers;
              decided = self.new.decided;
            } }
        ensures decides { (s : Told) → answered_to self.old message.now ≡ Ok s
            → self.new.decided.items ≡ decided_after s self.old self.new }
        ensures queued { (reference : ℕ) → answered_to self.old message.now ≡ Ok (sents.Queued reference)
            → self.new.buffers.items ≡ kept_beside (buffer_in message.now (changes_at self.old.volumes
            (place_in self.old.controller.settings.units (num message.now 4 2)))) self.old.buffers.items }
        ensures answered { (reference : ℕ) (aborted : Option ℕ)
            → answered_to self.old message.now ≡ Ok (sents.Answered reference aborted)
            → self.new.buffers.items ≡ without_aborted aborted self.old.buffers.items }
        ensures waits { (fault : Refused) → answered_to self.old message.now ≡ Err fault
            → self.new ≡ record self.old { controller = self.new.controller; is_stalled = true; task = tasks.Free } }
        ensures among { (b : Kept) → Contains self.new.buffers.items b → Contains self.old.buffers.items b
            ⊎ ((changes : ℕ) × (b ≡ buffer_in message.now changes)) }
    {
        match self.hand_over(message) {
            Ok(Sent::Queued(_)) => self.keep(message),
            Ok(Sent::Answered { aborted, .. }) => {
                self.heed(message);
                self.decide_answers();
                forget_aborted(&mut self.buffers, aborted);
            }
            // Its length was judged by its header, so a credit is wanting, or its number is in use.
            Err(_) => self.stall(),
        }
    }

    /// The controller gets a message, or what stands for it.
    fn hand_over(&mut self, message: &[u8]) -> Result<Sent, SendFault>
        requires short { 12 ≤ length message.now }
        requires long { length message.now ≤ 64 }
        ensures answer { result ≡ answered_to self.old message.now }
        ensures frame { self.new ≡ record self.old { controller = self.new.controller } }
        ensures after { self.new.controller
            ≡ after_message First self.old.controller (handed self.old.controller.settings.units message.now) }
        ensures settings { self.new.controller.settings ≡ self.old.controller.settings }
    {
        let command = command_for_controller(message, self.controller.config().units());
        self.controller.send_command(Connection::First, command)
    }

    /// Keeps what a message says that the controller doesn't read.
    fn keep(&mut self, message: &[u8])
        requires short { 12 ≤ length message.now }
        ensures frame { self.new ≡ record self.old { buffers = self.new.buffers } }
        ensures value { self.new.buffers.items ≡ kept_beside (buffer_in message.now (changes_at self.old.volumes
            (place_in self.old.controller.settings.units (num message.now 4 2)))) self.old.buffers.items }
        ensures kept { (b : Kept) → Contains self.new.buffers.items b → Contains self.old.buffers.items b
            ⊎ ((changes : ℕ) × (b ≡ buffer_in message.now changes)) }
    {
        let changes = match self.place_of(two_at(message, 4)) {
            Some(place) => self.volumes[place].changes,
            None => 0,
        };
        keep(&mut self.buffers, Buffer::of(message, changes));
    }

    /// Heeds a message that was answered: a poll, and what the host sets of its controller: flags, and its own timeout.
    fn heed(&mut self, message: &[u8])
        requires short { 12 ≤ length message.now }
        ensures value { self.new ≡ settings_heeded message.now self.old }
        ensures frame { self.new ≡ record self.old {
          owes_block = self.new.owes_block;
          flags = self.new.flags;
          timeout = self.new.timeout;
          left = self.new.left;
        } }
    {
        if message[8] == opcodes::GET_COMMAND_STATUS {
            self.owes_block = true;
        }
        if message[8] == opcodes::SET_CONTROLLER_CHARACTERISTICS
            && message.len() >= 18
            && two_at(message, 12) == 0
        {
            self.flags = two_at(message, 14);
            self.timeout = two_at(message, 16);
            self.left = self.timeout;
        }
    }
}
