// A host: what it sent and hasn't heard of.
//
// It has one poll in flight at most, about the oldest command that isn't answered when it arrives. It knows those by
// the raw opcode byte, as the controller does. A poll that comes back with the endcode of an unknown opcode was
// refused, so it is an end as any other. A figure that doesn't fall means `Reset`, even if it would be `Lost`, too.

ghost use Rattle.std.specs.Prelude.{◌≡◌, ◌↔◌, ◌≤◌, true, false, find, IsOk, IfErr, IfOk};
ghost use Rattle.mscp_host.specs.Common.{list_any, command_bytes, opcode_byte, answered, balance, end_in, fresh, has_reference, heard, news_with, oldest, or_unreadable, outstanding_with, polls_oldest, received, refusal, submits, submitted};
ghost use Rattle.mscp_host.specs.Accounts.{is_about_polled as about_polled, is_immediate as immediate};

use crate::news::{HostFault, News, Poll, is_code_of, news_of_figure};
use crate::outstanding::{find_oldest, find_reference, has_any, last_told, remove, set_told};
use crate::submission::Submission;
use crate::watch::{Watch, answered, is_about_polled, polled_is_outstanding, watch_after};
use arrayvec::ArrayVec;
use mscp_packet::{Command, End, Order, is_immediate, read_end, write_command};
use std::marker::Model;

/// The host's end of a controller: its credits, the commands whose ends it hasn't received, and the poll in flight. It
/// takes no memory beside its own.
#[derive(Drop)]
pub struct Host {
    pub(crate) credits: u32,
    pub(crate) outstanding: ArrayVec<Submission, 64>,
    pub(crate) watch: Option<Watch>,
}

// A clause sees the credits, the outstanding submissions, oldest first, and the poll in flight.
impl Model for Host {
    ghost use Rattle.mscp_host.specs.Common.{Account, IsSound};

    ghost Value = { Account };

    ghost view = { λ h. record { credits = h.credits; outstanding = h.outstanding.items; watch = h.watch } };

    ghost invariant = { λ h.
        IsSound (record { credits = h.credits; outstanding = h.outstanding.items; watch = h.watch }) };
}

impl Host {
    /// A host that sent nothing so far, with so many credits: 2 to 64.
    ///
    /// # Errors
    ///
    /// `Credits` for any other number.
    pub fn new(credits: u32) -> Result<Host, HostFault>
        ensures taken { IsOk result ↔ ((2 ≤ credits) × (credits ≤ 64)) }
        ensures fault { IfErr result (λ fault. fault ≡ HostFault.Credits) }
        ensures new { IfOk result (λ host. host ≡ fresh credits) }
    {
        if !(2..=64).contains(&credits) {
            return Err(HostFault::Credits);
        }
        Ok(Host::of_credits(credits))
    }

    /// A host that sent nothing so far.
    pub(crate) fn of_credits(credits: u32) -> Host
        requires some { 2 ≤ credits }
        requires few { credits ≤ 64 }
        ensures { result ≡ fresh credits }
    {
        Host {
            credits,
            outstanding: ArrayVec::new(),
            watch: None,
        }
    }

    /// How many credits are free: each command whose end wasn't received holds one (manual, "Flow Control").
    pub fn balance(&self) -> u32
        ensures { result ≡ balance self.now }
    {
        self.credits - self.outstanding.len() as u32
    }

    /// Whether a command of the reference number is outstanding.
    fn is_outstanding(&self, reference: u32) -> bool
        ensures { result ≡ list_any (has_reference reference) self.now.outstanding }
    {
        has_any(self.outstanding.as_slice(), reference)
    }

    /// Why a command of this opcode byte and reference number may not be sent, if it may not.
    pub(crate) fn refusal(&self, opcode: u8, reference: u32) -> Option<HostFault>
        ensures { result ≡ refusal self.now opcode reference }
    {
        match self.balance() {
            0 => Some(HostFault::NoCredit),
            1 if !is_immediate(opcode) => Some(HostFault::LastCredit),
            _ if self.is_outstanding(reference) => Some(HostFault::Doubled),
            _ => None,
        }
    }

    /// The message of a command, which is outstanding from now on.
    ///
    /// # Errors
    ///
    /// The first that holds of `NoCredit`, `LastCredit` and `Doubled`; then it may not be sent, and nothing changes.
    pub fn submit(&mut self, command: &Command) -> Result<ArrayVec<u8, 48>, HostFault>
        ensures { (result, self.new) ≡ submits self.old command.now }
    {
        match self.refusal(command.opcode(), command.reference) {
            Some(fault) => Err(fault),
            None => Ok(self.send(command)),
        }
    }

    /// Makes a command outstanding, and gives its message.
    pub(crate) fn send(&mut self, command: &Command) -> ArrayVec<u8, 48>
        requires free { 1 ≤ balance self.old }
        requires spare { immediate (opcode_byte command.now.order) ≡ false → 2 ≤ balance self.old }
        requires new { list_any (has_reference command.now.reference) self.old.outstanding ≡ false }
        ensures bytes { result.items ≡ command_bytes command.now }
        ensures after { self.new ≡ submitted self.old command.now }
    {
        self.outstanding.push(Submission::of(command));
        write_command(command)
    }

    /// The oldest command that isn't answered when it arrives.
    pub fn oldest(&self) -> Option<Submission>
        ensures { result ≡ oldest self.now }
    {
        find_oldest(self.outstanding.as_slice()).copied()
    }

    /// What there is to do to poll the oldest command that isn't answered when it arrives, under this reference number:
    /// nothing while the end of a poll is still to come, or if there is no such command. Else a GET COMMAND STATUS is
    /// outstanding from now on.
    ///
    /// # Errors
    ///
    /// The first that holds of `NoCredit` and `Doubled`; then it may not be sent, and nothing changes.
    pub fn poll(&mut self, reference: u32) -> Result<Poll, HostFault>
        ensures { (result, self.new) ≡ polls_oldest self.old reference }
    {
        if self.watch.is_some() {
            return Ok(Poll::Busy);
        }
        let Some(polled) = self.oldest() else {
            return Ok(Poll::Nothing);
        };
        let poll = Command {
            reference,
            unit: polled.unit,
            order: Order::Status(polled.reference),
        };
        let message = self.submit(&poll)?;
        self.watch = Some(Watch {
            reference,
            polled: polled.reference,
            is_outstanding: true,
        });
        Ok(Poll::Ask(message))
    }

    /// What an end says that was received; its command's credit is free again.
    ///
    /// # Errors
    ///
    /// `Unreadable` if the bytes are no end, and else `Unknown` if no outstanding command has the reference number, the
    /// endcode is neither that of its opcode nor that of an unknown one, or it is the answer to the poll in flight and
    /// tells of another command. Then nothing changes.
    pub fn receive(&mut self, b: &[u8]) -> Result<News, HostFault>
        ensures { (result, self.new) ≡ heard self.old b.now }
    {
        let end = end_in(b)?;
        let Some(submission) = self.submission(end.reference) else {
            return Err(HostFault::Unknown);
        };
        let answer = answered(&self.watch, &end);
        if !is_code_of(end.code, submission.opcode) || !is_about_polled(&self.watch, &answer) {
            return Err(HostFault::Unknown);
        }
        Ok(self.hear(&end, &answer))
    }

    /// The submission of this reference number, if it is outstanding.
    fn submission(&self, reference: u32) -> Option<Submission>
        ensures { result ≡ find (has_reference reference) self.now.outstanding }
    {
        find_reference(self.outstanding.as_slice(), reference).copied()
    }

    /// What an end says that may be that of an outstanding command, and tells this of the polled one.
    pub(crate) fn hear(&mut self, end: &End, answer: &Option<(u32, u32)>) -> News
        requires answer { answer.now ≡ answered self.old.watch end.now }
        requires about { about_polled self.old.watch answer.now ≡ true }
        ensures news { result ≡ news_with self.old end.now (answered self.old.watch end.now) }
        ensures after { self.new ≡ received self.old end.now }
    {
        let news = self.news(end, answer);
        self.keep_told(answer);
        remove(&mut self.outstanding, end.reference);
        self.watch = watch_after(self.watch, end.reference);
        news
    }

    /// What an end says that tells this of the polled command.
    fn news(&self, end: &End, answer: &Option<(u32, u32)>) -> News
        ensures { result ≡ news_with self.now end.now answer.now }
    {
        match answer {
            None => News::Ended(*end),
            Some(_) if !polled_is_outstanding(&self.watch) => News::Late,
            Some((number, figure)) => {
                news_of_figure(last_told(self.outstanding.as_slice(), *number), *figure)
            }
        }
    }

    /// Keeps what was told of the polled command, if that is still outstanding.
    fn keep_told(&mut self, answer: &Option<(u32, u32)>)
        requires { about_polled self.old.watch answer.now ≡ true }
        ensures { self.new ≡ record self.old { outstanding = outstanding_with self.old answer.now } }
    {
        if let Some((number, figure)) = answer
            && polled_is_outstanding(&self.watch)
        {
            set_told(self.outstanding.as_mut_slice(), *number, *figure);
        }
    }
}

/// The end that bytes are.
fn end_in(b: &[u8]) -> Result<End, HostFault>
    ensures { result ≡ or_unreadable (end_in b.now) }
{
    match read_end(b) {
        Ok(end) => Ok(end),
        Err(_) => Err(HostFault::Unreadable),
    }
}
