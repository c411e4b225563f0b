// The totals of a log.

ghost use Rattle.std.specs.Prelude.{◌≡◌, ◌+◌, ◌-◌, ◌<◌, ◌^◌, ◌++◌, ◌∷◌, [], length, IfSome, if◌then◌else◌};
ghost use Rattle.mscp_wire.specs.Wire.{History, outstanding};
ghost use Rattle.mscp_wire.specs.Totals as total;

use crate::falls::Falls;
use crate::moment::Moment;
use mscp_packet::fields::two_at;
use mscp_packet::opcodes;
use mscp_packet::status::code_of;

/// How many moments a log has, and how many of each kind.
#[derive(Clone, Copy, Default)]
pub struct Counts {
    /// How many moments it has.
    pub moments: u32,
    /// How many messages were sent.
    pub messages: u32,
    /// How many of them are polls: each a GET COMMAND STATUS.
    pub polls: u32,
    /// How many ends came.
    pub ends: u32,
    /// How often the controller was initialised, or a connection closed.
    pub resets: u32,
}

/// The totals of a log.
#[derive(Clone, Copy)]
pub struct Totals {
    pub counts: Counts,
    /// How many commands were sent of each opcode.
    pub commands: [u32; 256],
    /// How many ends had a status of each code.
    pub statuses: [u32; 32],
    /// The most commands that were outstanding at any time.
    pub queue: usize,
    pub falls: Falls,
}

/// A count, once one more is counted or not.
fn counted(count: u32, does: bool) -> u32
    requires { count < 2 ^ 32 - 1 }
    ensures { result ≡ (if does then count + 1 else count) }
{
    if does { count + 1 } else { count }
}

/// Whether a host sends a message.
fn is_sent(moment: &Moment) -> bool
    ensures { result ≡ total.is_sent moment.now }
{
    matches!(moment, Moment::Message(..))
}

/// Whether a moment is a poll.
fn is_poll(moment: &Moment) -> bool
    ensures { result ≡ total.is_poll moment.now }
{
    match moment {
        Moment::Message(_, message, _) => message.len() > 8
            && message.as_slice()[8] == opcodes::GET_COMMAND_STATUS,
        _ => false,
    }
}

/// Whether the controller answers.
fn is_end(moment: &Moment) -> bool
    ensures { result ≡ total.is_end moment.now }
{
    matches!(moment, Moment::End(..))
}

/// Whether the controller is initialised, or a connection closes.
fn is_reset(moment: &Moment) -> bool
    ensures { result ≡ total.is_reset moment.now }
{
    matches!(moment, Moment::Reset | Moment::Closed(_))
}

impl Counts {
    /// Those of one moment more, the one in the line of this number.
    fn with(&self, number: u32, moment: &Moment) -> Counts
        requires few { total.AreFew self.now number }
        ensures counts { (h : History) → self.now ≡ total.counts_of h
            → result ≡ total.counts_of (h ++ moment.now ∷ []) }
        ensures few { total.AreFew result (number + 1) }
    {
        Counts {
            moments: self.moments + 1,
            messages: counted(self.messages, is_sent(moment)),
            polls: counted(self.polls, is_poll(moment)),
            ends: counted(self.ends, is_end(moment)),
            resets: counted(self.resets, is_reset(moment)),
        }
    }
}

/// The opcode of the command that a host sends.
fn opcode_sent(moment: &Moment) -> Option<usize>
    ensures value { result ≡ total.opcode_sent moment.now }
    ensures bound { IfSome result (λ opcode. opcode < 256) }
{
    match moment {
        Moment::Message(_, message, _) if message.len() >= 12 => {
            Some(usize::from(message.as_slice()[8]))
        }
        _ => None,
    }
}

/// The code of the status that the controller ends a command with.
fn code_told(moment: &Moment) -> Option<usize>
    ensures value { result ≡ total.code_told moment.now }
    ensures bound { IfSome result (λ code. code < 32) }
{
    match moment {
        Moment::End(_, message) if message.len() >= 12 => {
            Some(usize::from(code_of(two_at(message.as_slice(), 10))))
        }
        _ => None,
    }
}

/// One more is counted at a place, if there is one. So far each count is below a number.
fn count_at(counts: &mut [u32], place: Option<usize>, number: u32)
    requires place { IfSome place (λ i. i < length counts.old) }
    requires few { total.AreBelow counts.old number }
    ensures counted { counts.new ≡ total.counted_at counts.old place }
    ensures few { total.AreBelow counts.new (number + 1) }
{
    if let Some(place) = place {
        counts[place] += 1;
    }
}

impl Totals {
    /// Those of no moment.
    pub fn none() -> Totals
        ensures totals { result ≡ total.totals_of [] }
        ensures few { total.IsFew result 1 }
    {
        Totals {
            counts: Counts {
                moments: 0,
                messages: 0,
                polls: 0,
                ends: 0,
                resets: 0,
            },
            commands: [0; 256],
            statuses: [0; 32],
            queue: 0,
            falls: Falls {
                least: 0,
                greatest: 0,
            },
        }
    }

    /// A moment more came, in the line of this number. So many commands are outstanding then, and a figure fell so far.
    pub fn add(&mut self, number: u32, moment: &Moment, queue: usize, fall: u32)
        requires few { total.IsFew self.old number }
        ensures totals { (h : History) → self.old ≡ total.totals_of h
            → queue ≡ length (outstanding (h ++ moment.now ∷ []))
            → fall ≡ total.fall_after (outstanding h) moment.now → self.new ≡ total.totals_of (h ++ moment.now ∷ []) }
        ensures few { total.IsFew self.new (number + 1) }
    {
        self.counts = self.counts.with(number, moment);
        self.queue = self.queue.max(queue);
        self.falls = self.falls.with(fall);
        count_at(&mut self.commands, opcode_sent(moment), number);
        count_at(&mut self.statuses, code_told(moment), number);
    }
}
