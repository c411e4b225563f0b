// How far the figure of a command falls from poll to poll.

ghost use Rattle.std.specs.Prelude.{◌≡◌, ◌++◌, ◌∷◌, []};
ghost use Rattle.mscp_wire.specs.Wire.{History, outstanding};
ghost use Rattle.mscp_wire.specs.declared.moment.Moment as moments;
ghost use Rattle.mscp_wire.specs.Totals as total;

use crate::answer::Answer;
use crate::sent::{Asked, Sent};

/// How far the figure of a command fell from poll to poll (manual, "Host Command Timeouts").
#[derive(Clone, Copy, Default)]
pub struct Falls {
    /// The least fall, or 0 if no figure fell.
    pub least: u32,
    /// The greatest fall, or 0 if no figure fell.
    pub greatest: u32,
}

/// How far a figure is below the last one, if both are there. 0 is no fall.
fn fall_below(last: Option<u32>, figure: Option<u32>) -> u32
    ensures { result ≡ total.fall_below last figure }
{
    match (last, figure) {
        (Some(last), Some(figure)) if figure != 0 => last.saturating_sub(figure),
        _ => 0,
    }
}

/// How far the figure of the oldest command fell.
fn fall_of(asked: Asked, figure: Option<u32>) -> u32
    ensures { result ≡ total.fall_of asked figure }
{
    match asked {
        Asked::Oldest(last) => fall_below(last, figure),
        _ => 0,
    }
}

/// The same by the end of this command, if it is a poll.
fn fall_polled(command: &Sent, answer: &Answer, polled: Option<u32>) -> u32
    ensures { result ≡ total.fall_polled command.now answer.now polled }
{
    match polled {
        Some(_) => fall_of(command.asked, answer.figure),
        None => 0,
    }
}

/// The same by the end of this command, if there is one.
pub(crate) fn fall_found(answer: &Answer, command: Option<Sent>) -> u32
    ensures { result ≡ total.fall_found answer.now command }
{
    match command {
        Some(command) => fall_polled(&command, answer, answer.polled_by(&command)),
        None => 0,
    }
}

/// The lesser of two falls, of which 0 is none.
fn lesser(least: u32, fall: u32) -> u32
    ensures { result ≡ total.lesser least fall }
{
    if least == 0 || (fall != 0 && fall < least) {
        fall
    } else {
        least
    }
}

impl Falls {
    /// Those of one moment more, by which a figure fell so far.
    pub fn with(&self, fall: u32) -> Falls
        ensures { (h : History) (m : moments.Moment) → self.now ≡ total.falls_of h
            → fall ≡ total.fall_after (outstanding h) m → result ≡ total.falls_of (h ++ m ∷ []) }
    {
        Falls {
            least: lesser(self.least, fall),
            greatest: self.greatest.max(fall),
        }
    }
}
