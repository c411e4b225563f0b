// A host of a port: its credits come in envelopes.
//
// It has a host of 64 credits in it, beside the credits that envelopes grant. So what is proved of the one holds of
// the other, and what a port adds is said once. It is saved as what it has beside that host, and then the host.

ghost use Rattle.std.specs.Prelude.{◌≡◌, ◌≤◌, find, length, true};
ghost use Rattle.mscp_host.specs.Common.{answered, is_about_polled};
ghost use Rattle.mscp_host.specs.Watching.{is_owed, is_polled, is_waiting};
ghost use Rattle.mscp_host.specs.PortAccounts.{as_read, credit_fault, end_says, ended, ends_of, fresh_of_port, granted, hears, is_of, port_polls, port_submits};

use crate::asked::{Asked, find_asked, remove_asked};
use crate::envelope::Envelope;
use crate::heard::{Heard, as_read, attention_of, news_said};
use crate::host::Host;
use crate::message::{HearFault, Message, message_in};
use crate::news::{HostFault, Poll, is_code_of};
use arrayvec::ArrayVec;
use mscp_packet::{Command, End, is_immediate, opcodes};
use std::marker::Model;

/// The most commands that are outstanding at once.
const MOST: u32 = 64;

/// The host's end of a port: the credits that the port told, the commands whose ends weren't heard, and the poll in
/// flight. It takes no memory beside its own.
#[derive(Drop)]
pub struct PortHost {
    pub(crate) host: Host,
    pub(crate) asked: ArrayVec<Asked, 64>,
    pub(crate) credits: u16,
    pub(crate) is_over: bool,
}

// A clause sees what a host of 64 credits keeps, what is outstanding in the order of sending, the credits that are
// free, and whether more were told than are kept.
impl Model for PortHost {
    ghost use Rattle.mscp_host.specs.PortAccounts.{PortAccount};
    ghost use Rattle.mscp_host.specs.Ported.{IsPorted};

    ghost Value = { PortAccount };

    ghost view = { λ h. record {
      account = h.host;
      asked = h.asked.items;
      credits = h.credits;
      is_over = h.is_over;
    } };

    ghost invariant = { λ h. IsPorted h.host h.asked.items };
}

impl Host {
    /// A host of a port, which has one credit before the port tells any.
    pub fn of_port() -> PortHost
        ensures { result ≡ fresh_of_port }
    {
        PortHost {
            host: Host::of_credits(MOST),
            asked: ArrayVec::new(),
            credits: 1,
            is_over: false,
        }
    }
}

/// Why the credits that were told are too few for a command of this opcode byte, if they are.
fn credit_fault(credits: u16, opcode: u8) -> Option<HostFault>
    ensures { result ≡ credit_fault credits opcode }
{
    match credits {
        0 => Some(HostFault::NoCredit),
        1 if !is_immediate(opcode) => Some(HostFault::LastCredit),
        _ => None,
    }
}

impl PortHost {
    /// The credits that are free.
    pub fn credits(&self) -> u16
        ensures { result ≡ self.now.credits }
    {
        self.credits
    }

    /// Whether more credits were told than are kept, at some time: at most 65535 are.
    pub fn is_over(&self) -> bool
        ensures { result ≡ self.now.is_over }
    {
        self.is_over
    }

    /// The commands whose ends weren't heard, in the order in which they were sent: at most 64.
    pub fn outstanding(&self) -> &[Asked]
        ensures all { result.now ≡ self.now.asked }
        ensures few { length result.now ≤ 64 }
    {
        self.asked.as_slice()
    }

    /// Whether a command is outstanding that isn't answered when it arrives.
    pub fn is_waiting(&self) -> bool
        ensures { result ≡ is_waiting self.now }
    {
        self.host.oldest().is_some()
    }

    /// Whether the end of a poll is still to come.
    pub fn is_polled(&self) -> bool
        ensures { result ≡ is_polled self.now }
    {
        self.host.is_polled()
    }

    /// Whether a command is outstanding that is answered when it arrives.
    pub(crate) fn is_owed(&self) -> bool
        ensures { result ≡ is_owed self.now }
    {
        self.asked
            .as_slice()
            .iter()
            .any(|asked| is_immediate(asked.opcode))
    }

    /// The message of a command, which is outstanding from now on, and takes a credit.
    ///
    /// # Errors
    ///
    /// The first that holds of `NoCredit`, `LastCredit` and `Doubled`; then it may not be sent, and nothing changes.
    pub fn submit(&mut self, command: &Command) -> Result<ArrayVec<u8, 48>, HostFault>
        ensures { (result, self.new) ≡ port_submits self.old command.now }
    {
        if let Some(fault) = credit_fault(self.credits, command.opcode()) {
            return Err(fault);
        }
        if let Some(fault) = self.host.refusal(command.opcode(), command.reference) {
            return Err(fault);
        }
        let message = self.host.send(command);
        self.asked.push(Asked::of(command));
        self.credits -= 1;
        Ok(message)
    }

    /// What there is to do to poll the oldest command that isn't answered when it arrives, under this reference number:
    /// nothing while the end of a poll is still to come, or if there is no such command. Else a GET COMMAND STATUS is
    /// outstanding from now on, and takes a credit.
    ///
    /// # Errors
    ///
    /// The first that holds of `NoCredit` and `Doubled`; then it may not be sent, and nothing changes.
    pub fn poll(&mut self, reference: u32) -> Result<Poll, HostFault>
        ensures { (result, self.new) ≡ port_polls self.old reference }
    {
        if self.credits == 0 && self.host.is_to_poll() {
            return Err(HostFault::NoCredit);
        }
        let oldest = self.host.oldest();
        let poll = self.host.poll(reference)?;
        if let (Poll::Ask(_), Some(polled)) = (&poll, oldest) {
            self.asked.push(Asked {
                reference,
                unit: polled.unit,
                opcode: opcodes::GET_COMMAND_STATUS,
                bytes: 0,
            });
            self.credits -= 1;
        }
        Ok(poll)
    }

    /// What a message from the port says: its envelope, and the bytes behind that. The credits that it tells are free.
    ///
    /// # Errors
    ///
    /// The first that holds of `Cut`, `Connection`, `Kind`, `Unreadable` and `Unknown`; then nothing changes.
    pub fn hear(&mut self, envelope: &Envelope, b: &[u8]) -> Result<Heard, HearFault>
        ensures { (result, self.new) ≡ hears self.old envelope.now b.now }
    {
        let credits = envelope.credits;
        match message_in(envelope, b)? {
            Message::End(end) => self.hear_end(&end, credits),
            Message::Attention(code, unit) => Ok(self.grant(credits, attention_of(code, unit))),
            Message::Datagram => Ok(self.grant(credits, Heard::Logged)),
            Message::Credits => Ok(self.grant(credits, Heard::Credits(credits))),
        }
    }

    /// Keeps the credits that were told with what is heard.
    fn grant(&mut self, credits: u8, heard: Heard) -> Heard
        ensures heard { result ≡ heard }
        ensures after { self.new ≡ granted credits self.old }
    {
        let told = u32::from(self.credits) + u32::from(credits);
        self.is_over = self.is_over || told > u32::from(u16::MAX);
        self.credits = self.credits.saturating_add(u16::from(credits));
        heard
    }

    /// What an end says that tells these credits, or that it is none of ours.
    fn hear_end(&mut self, end: &End, credits: u8) -> Result<Heard, HearFault>
        ensures { (result, self.new)
            ≡ ends_of self.old credits end.now (find (is_of end.now.reference) self.old.asked) }
    {
        let Some(asked) = find_asked(self.asked.as_slice(), end.reference).copied() else {
            return Err(HearFault::Unknown);
        };
        let answer = self.host.answer_in(&as_read(end));
        if !is_code_of(end.code, asked.opcode) || !self.host.is_asked(&answer) {
            return Err(HearFault::Unknown);
        }
        let heard = self.settle(end, &asked, &answer);
        Ok(self.grant(credits, heard))
    }

    /// Takes the end of a command, and says what it says.
    fn settle(&mut self, end: &End, asked: &Asked, answer: &Option<(u32, u32)>) -> Heard
        requires answer { answer.now ≡ answered self.old.account.watch (as_read end.now) }
        requires about { is_about_polled self.old.account.watch answer.now ≡ true }
        ensures heard { result ≡ end_says self.old end.now asked.now }
        ensures after { self.new ≡ ended self.old end.now }
    {
        let is_poll = self.host.is_poll_of(end.reference);
        let news = self.host.hear(&as_read(end), answer);
        remove_asked(&mut self.asked, end.reference);
        news_said(is_poll, end, asked, &news)
    }
}
