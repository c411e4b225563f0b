// A controller: its queue, and the account of each connection's host.
//
// What waits and what is served next is the queue's affair, and who has how many credits and ends is the accounts'.
// The controller never looks at a record. Queue and accounts take no memory: their lists have a fixed room, which the
// credits bound, so nothing is ever refused for want of memory.

ghost use Rattle.std.specs.Prelude.{◌≡◌, ◌+◌, ◌≤◌, ◌^◌, ℕ, List, true, false, slice_get, IfErr, IfSome, None, Some};
ghost use Rattle.mscp_controller.specs.Common.{IsCommand, IsEnd, IsOfKind, first_block, order_weight, name_on, IsCoded, credit_fault, fault_of, holds, is_queued, CanEnd, reported, of, IsValid, Answers, Finishes, Foretells, IsBalanced, Steps, aborting, after_message, after_take, answer_to_message, answered_end, arrives, balance_of, begun_step, end_taken, with_end, outstanding_of, queued, reference_aborted, taken_as};
ghost use Rattle.mscp_controller.specs.Holdings.{fresh};

mod restoring;
mod seeing;

use crate::account::Accounts;
use crate::answer::{controller_end, refused_end, unit_status_end};
use crate::arrival::judge;
use crate::entry::{Entry, NotBegun, SendFault, Sent};
use arrayvec::ArrayVec;
use mscp_drive::{Block, Config, Connection, Event};
use mscp_packet::status::SUCCESS;
use mscp_packet::{Command, End, EndBody, Order, is_immediate, read_command, write_end};
use mscp_queue::{Picker, Queue, Report, Upcoming, Waiting, end_with};
use std::marker::Model;

/// Gives the end that a report brings, if it brings one, to the host of its command's connection.
fn keep_end(accounts: &mut Accounts, report: &Report)
    requires { CanEnd report.now accounts.old }
    ensures { accounts.new ≡ reported report.now accounts.old }
{
    if let Report::Served {
        connection,
        ended: Some(end),
        ..
    } = report
    {
        accounts.leave(*connection, *end);
    }
}

/// A command queue with credits, whose picker picks the commands that start.
#[derive(Drop)]
pub struct Controller<K> {
    config: Config,
    queue: Queue<K>,
    accounts: Accounts,
}

// A clause sees the settings, the waiting commands and each connection's ends that weren't taken, all oldest first, the
// drives in the order of their units, what was begun, and the picker.
impl<K> Model for Controller<K> {
    ghost use Rattle.mscp_controller.specs.Common.{Holdings, untaken_in, IsHeld};

    ghost Value = { Holdings K };

    ghost view = { λ h.
        record {
          settings = h.config;
          waiting = h.queue.waiting;
          untaken = untaken_in h.accounts;
          drives = h.queue.drives;
          begun = h.queue.begun;
          picker = h.queue.picker;
        } };

    ghost invariant = { λ h. IsHeld h.config h.queue h.accounts };
}

impl<K: Picker> Controller<K> {
    /// A controller to which nothing came so far. It is built into its caller: each call on the way would have room for
    /// a controller of its own on the stack.
    #[inline(always)]
    pub fn new(config: Config, picker: K) -> Controller<K>
        ensures fresh { result ≡ fresh config picker }
        ensures account { IsBalanced result }
        ensures valid { IsValid config }
    {
        let queue = Queue::new(
            config.units(),
            config.room(),
            config.budget(),
            config.longest(),
            picker,
        );
        Controller {
            config,
            queue,
            accounts: Accounts::new(),
        }
    }

    /// Forgets all that came to it, as a reset of its port makes it: it is as new, with the same settings and picker.
    /// Ends that weren't taken are gone.
    pub fn reset(&mut self)
        ensures fresh { self.new ≡ fresh self.old.settings self.old.picker }
        ensures account { IsBalanced self.new }
    {
        self.queue.reset();
        self.accounts.clear();
    }

    /// Lets this picker pick from now on, and gives back the one that picked. What was begun stays begun.
    pub fn replace_picker(&mut self, picker: K) -> K
        ensures before { result ≡ self.old.picker }
        ensures after { self.new ≡ record self.old { picker = picker } }
        ensures account { IsBalanced self.new }
    {
        self.queue.replace_picker(picker)
    }

    /// Its settings.
    pub fn config(&self) -> &Config
        ensures value { result.now ≡ self.now.settings }
        ensures account { IsBalanced self.now }
    {
        &self.config
    }

    /// Whether a command of the connection with the reference number waits, or has an end that wasn't taken.
    #[tactic(auto, using(crate::proofs::Bridge::Judging::holds_either))]
    fn is_outstanding(&self, connection: Connection, reference: u32) -> bool
        ensures { result ≡ holds (outstanding_of connection self.now) reference }
    {
        let waits = self.queue.contains(connection, reference);
        let ended = self.accounts.is_untaken(connection, reference);
        waits || ended
    }

    /// Why a command of the connection with this opcode byte and reference number is refused, if it is.
    fn credit_fault(&self, connection: Connection, opcode: u8, reference: u32) -> Option<SendFault>
        ensures fault { result
            ≡ credit_fault (balance_of connection self.now) (outstanding_of connection self.now) opcode reference }
        ensures account { IsBalanced self.now }
    {
        match self.balance(connection) {
            0 => Some(SendFault::NoCredit),
            1 if !is_immediate(opcode) => Some(SendFault::LastCredit),
            _ if self.is_outstanding(connection, reference) => Some(SendFault::Doubled),
            _ => None,
        }
    }

    /// Lets a command of this weight wait, which came by the connection.
    fn queue(&mut self, connection: Connection, command: &Command, weight: u32)
        requires queued { is_queued self.old.settings command.now ≡ true }
        requires weight { weight ≡ order_weight command.now.order }
        requires small { first_block command.now.order + weight ≤ 2 ^ 32 }
        requires new { holds (outstanding_of connection self.old) command.now.reference ≡ false }
        requires free { 2 ≤ balance_of connection self.old }
        ensures after { self.new ≡ queued connection self.old command.now }
        ensures account { IsBalanced self.new }
    {
        self.queue.push(Waiting {
            connection,
            reference: command.reference,
            unit: command.unit,
            order: command.order,
            weight,
        });
        self.accounts.come(connection);
    }

    /// Makes an end for the connection.
    fn end(&mut self, connection: Connection, end: End)
        requires free { 1 ≤ balance_of connection self.old }
        requires shaped { IsOfKind end }
        ensures after { self.new ≡ with_end connection self.old end }
        ensures account { IsBalanced self.new }
    {
        self.accounts.end(connection, end);
    }

    /// The end of a GET UNIT STATUS to a unit that is configured.
    fn unit_status_end(&self, connection: Connection, command: &Command) -> End
        requires order { command.now.order ≡ Order.UnitStatus }
        requires sound { fault_of self.now.settings command.now ≡ None }
        ensures { result ≡ answered_end connection self.now command.now }
    {
        match self.config.units().find(command.unit) {
            Some(unit) => unit_status_end(command, unit, self.queue.is_online(command.unit)),
            None => unreachable!(),
        }
    }

    /// The end of an answered command of the connection that isn't refused.
    fn answered_end(&self, connection: Connection, command: &Command) -> End
        requires { fault_of self.now.settings command.now ≡ None }
        ensures { result ≡ answered_end connection self.now command.now }
    {
        match command.order {
            Order::Abort(other) => end_with(command, SUCCESS, EndBody::Abort(other)),
            Order::Status(other) => {
                let figure = self.figure(connection, other);
                end_with(command, SUCCESS, EndBody::Status { other, figure })
            }
            Order::UnitStatus => self.unit_status_end(connection, command),
            Order::SetController(_) => controller_end(command, &self.config),
            _ => refused_end(command, SUCCESS),
        }
    }

    /// Ends the waiting command that an order of the connection names to be aborted, if there is one, and tells its
    /// reference number.
    fn abort(&mut self, connection: Connection, order: &Order) -> Option<u32>
        ensures reference { result ≡ reference_aborted connection self.old.waiting order.now }
        ensures after { self.new ≡ aborting connection self.old order.now }
        ensures balance { balance_of connection self.new ≡ balance_of connection self.old }
    {
        let Order::Abort(other) = order else {
            return None;
        };
        let end = self.queue.abort(connection, *other)?;
        self.accounts.leave(connection, end);
        Some(end.reference)
    }

    /// Answers a command of the connection at once that isn't refused: the end of one that it aborts stands before its
    /// own. Tells the reference number of that one.
    fn answer_now(&mut self, connection: Connection, command: &Command) -> Option<u32>
        requires sound { fault_of self.old.settings command.now ≡ None }
        requires free { 1 ≤ balance_of connection self.old }
        requires coded { IsCoded command.now.order }
        ensures aborted { result ≡ reference_aborted connection self.old.waiting command.now.order }
        ensures after { self.new ≡ with_end connection (aborting connection self.old command.now.order)
            (answered_end connection self.old command.now) }
        ensures account { IsBalanced self.new }
    {
        let own = self.answered_end(connection, command);
        let aborted = self.abort(connection, &command.order);
        self.end(connection, own);
        aborted
    }

    /// Queues a command of the connection that isn't refused for want of credit, or answers it at once.
    fn arrive(&mut self, connection: Connection, command: Command) -> Sent
        requires free { 1 ≤ balance_of connection self.old }
        requires spare { is_queued self.old.settings command ≡ true → 2 ≤ balance_of connection self.old }
        requires new { holds (outstanding_of connection self.old) command.reference ≡ false }
        requires coded { IsCoded command.order }
        ensures sent { result ≡ taken_as connection self.old command }
        ensures after { self.new ≡ arrives connection self.old command }
        ensures account { IsBalanced self.new }
    {
        let aborted = match judge(&self.config, &command) {
            Ok(weight) if !command.order.class().is_immediate() => {
                self.queue(connection, &command, weight);
                return Sent::Queued(command.reference);
            }
            Ok(_) => self.answer_now(connection, &command),
            Err(status) => {
                self.end(connection, refused_end(&command, status));
                None
            }
        };
        Sent::Answered {
            reference: command.reference,
            aborted,
        }
    }

    /// Takes a message of the connection's host in. If there is no second connection, each of its messages that is
    /// neither too short nor too long has no credit.
    ///
    /// # Errors
    ///
    /// The first that holds of `Short`, `Long`, `NoCredit`, `LastCredit` and `Doubled`; then nothing changes.
    pub fn send(&mut self, connection: Connection, b: &[u8]) -> Result<Sent, SendFault>
        ensures answer { result ≡ answer_to_message connection self.old b.now }
        ensures after { self.new ≡ after_message connection self.old b.now }
        ensures unchanged { IfErr result (λ fault. self.new ≡ self.old) }
        ensures account { IsBalanced self.new }
    {
        // The account is known only where a field is used, and a message may be refused for its size before that.
        let _ = &self.config;
        let command = read_command(b)?;
        self.send_command(connection, command)
    }

    /// Takes a command of the connection's host in, as `send` takes each message that is this command: who has the
    /// command needs no bytes of it.
    ///
    /// # Errors
    ///
    /// The first that holds of `NoCredit`, `LastCredit` and `Doubled`; then nothing changes.
    #[inline(always)]
    pub fn send_command(
        &mut self,
        connection: Connection,
        command: Command,
    ) -> Result<Sent, SendFault>
        requires coded { IsCoded command.order }
        ensures answer { (b : List ℕ) → IsCommand b command → result ≡ answer_to_message connection self.old b }
        ensures after { (b : List ℕ) → IsCommand b command → self.new ≡ after_message connection self.old b }
        ensures unchanged { IfErr result (λ fault. self.new ≡ self.old) }
        ensures account { IsBalanced self.new }
    {
        match self.credit_fault(connection, command.opcode(), command.reference) {
            Some(fault) => Err(fault),
            None => Ok(self.arrive(connection, command)),
        }
    }

    /// Takes the oldest end of the connection that wasn't taken, as bytes, if there is one. They are a message of that
    /// end.
    pub fn take(&mut self, connection: Connection) -> Option<ArrayVec<u8, 48>>
        ensures answer { result ≡ end_taken connection self.old }
        ensures reads_back { (end : End) → slice_get (of connection self.old.untaken) 0 ≡ Some end
            → IfSome result (λ b. IsEnd b.items end) }
        ensures after { self.new ≡ after_take connection self.old }
        ensures account { IsBalanced self.new }
    {
        let end = self.accounts.take(connection)?;
        Some(write_end(&end))
    }

    /// What the next step serves, if a command waits: the command, the block that it touches, how many steps it had,
    /// and how many it takes in all. Where nothing is in service and nothing was begun the picker picks it, and its
    /// choice is kept. Until a step, a reset, or an ABORT of that command, this answers the same; and it changes
    /// nothing that `look`, `figure`, `balance`, `config`, `send` and `take` tell. It is built into its caller, which
    /// reads it where it is made.
    #[inline(always)]
    pub fn begin(&mut self) -> Option<Upcoming>
        ensures begin { Foretells (K.picks self.old.picker) self.old result self.new }
        ensures again { begun_step self.new ≡ result }
        ensures account { IsBalanced self.new }
    {
        self.queue.begin()
    }

    /// The step of the connection's command with this reference number, if it is begun: its block had this outcome. If
    /// no such command is begun, nothing changes, and the block counts for nothing. A command is known by its
    /// connection and its number alone. So who begins anew after a step, an ABORT or a reset must let no finish of an
    /// older begin come any more: the number may be the same.
    ///
    /// # Errors
    ///
    /// `NotBegun` if no command of this connection and reference number is begun.
    pub fn finish(
        &mut self,
        connection: Connection,
        reference: u32,
        block: Block,
    ) -> Result<Report, NotBegun>
        ensures finish { Finishes (K.picks self.old.picker)
            (name_on connection reference) block self.old result self.new }
        ensures account { IsBalanced self.new }
    {
        if self.queue.is_begun(connection, reference) {
            Ok(self.step(block))
        } else {
            Err(NotBegun)
        }
    }

    /// Serves one block, with this outcome, if a command waits: to the command that was begun, or else to that in
    /// service, or to one that the picker picks of those that may start. It is built into its caller, which reads the
    /// report where it is made.
    #[inline(always)]
    pub fn step(&mut self, block: Block) -> Report
        ensures step { Steps (K.picks self.old.picker) block self.old result self.new }
        ensures account { IsBalanced self.new }
    {
        let report = self.queue.serve(block);
        keep_end(&mut self.accounts, &report);
        report
    }

    /// What is answered to an event.
    pub(crate) fn answer(&mut self, event: &Event) -> Entry
        ensures { Answers (K.picks self.old.picker) self.old event.now result self.new }
    {
        match event {
            Event::Send(connection, message) => {
                Entry::Sent(*connection, self.send(*connection, message.as_slice()))
            }
            Event::Take(connection) => Entry::Taken(*connection, self.take(*connection)),
            Event::Step(block) => Entry::Stepped(self.step(*block)),
            Event::Look => Entry::Looked(self.look()),
        }
    }
}
