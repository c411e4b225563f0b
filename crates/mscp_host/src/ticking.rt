// When a driver is to poll, and when it is to reset.

ghost use Rattle.std.specs.Prelude.{◌≡◌};
ghost use Rattle.mscp_host.specs.Watching.{advice, advised, counted, heard_by, is_answer, is_owed, is_waiting, ticked, ticks};

use crate::heard::Heard;
use crate::port_host::PortHost;
use mscp_packet::is_immediate;

/// What a driver is to do at a tick of its timer.
#[derive(Clone, Copy)]
pub enum Advice {
    /// Nothing.
    Nothing,
    /// Poll the oldest command.
    Poll,
    /// Reset the controller: an answer is owed for over a whole timeout.
    Reset,
}

/// Counts the ticks of a driver's timer between polls, and those for which an answer is owed. It lies in memory as C
/// has it.
#[repr(C)]
#[derive(Clone, Copy)]
pub struct Watch {
    /// How many ticks the controller timeout has.
    pub timeout: u32,
    /// For how many ticks something waits that wasn't polled.
    pub waited: u32,
    /// For how many ticks an answer is owed, and none came.
    pub silent: u32,
}

/// One tick more, if something goes on.
fn counted(goes_on: bool, ticks: u32) -> u32
    ensures { result ≡ counted goes_on ticks }
{
    if goes_on { ticks.saturating_add(1) } else { 0 }
}

/// Whether what is heard is the end of a command that is answered when it arrives.
fn is_answer(heard: &Heard) -> bool
    ensures { result ≡ is_answer heard.now }
{
    match heard {
        Heard::Ended(_, asked) | Heard::MovedTooMuch(_, asked) => is_immediate(asked.opcode),
        Heard::Available(_) | Heard::Attention(..) | Heard::Logged | Heard::Credits(_) => false,
        Heard::First(_) | Heard::Progress(_) | Heard::Late => true,
        Heard::Reset | Heard::Lost | Heard::Refused(_) => true,
    }
}

impl Watch {
    /// A watch of a controller whose timeout has so many ticks.
    pub fn new(timeout: u32) -> Watch
        ensures { result ≡ record { timeout = timeout; waited = 0; silent = 0 } }
    {
        Watch {
            timeout,
            waited: 0,
            silent: 0,
        }
    }

    /// A tick of the timer: what is to be done with this host.
    pub fn tick(&mut self, host: &PortHost) -> Advice
        ensures { (result, self.new) ≡ ticks self.old host.now }
    {
        *self = self.ticked(host);
        let advice = self.advice(host);
        self.follow(&advice);
        advice
    }

    /// This was heard.
    pub fn heard(&mut self, heard: &Heard)
        ensures { self.new ≡ heard_by self.old heard.now }
    {
        if is_answer(heard) {
            self.silent = 0;
        }
    }

    /// One tick later.
    fn ticked(&self, host: &PortHost) -> Watch
        ensures { result ≡ ticked self.now host.now }
    {
        Watch {
            timeout: self.timeout,
            waited: counted(host.is_waiting(), self.waited),
            silent: counted(host.is_owed(), self.silent),
        }
    }

    /// What is to be done.
    fn advice(&self, host: &PortHost) -> Advice
        ensures { result ≡ advice self.now host.now }
    {
        if host.is_owed() && self.timeout < self.silent {
            Advice::Reset
        } else if host.is_waiting() && !host.is_polled() && self.timeout <= self.waited {
            Advice::Poll
        } else {
            Advice::Nothing
        }
    }

    /// Begins to count anew.
    fn follow(&mut self, advice: &Advice)
        ensures { self.new ≡ advised self.old advice.now }
    {
        match advice {
            Advice::Nothing => {}
            Advice::Poll => self.waited = 0,
            Advice::Reset => {
                self.waited = 0;
                self.silent = 0;
            }
        }
    }
}
