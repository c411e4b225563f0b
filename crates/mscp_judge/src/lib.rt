//! The judge: whether what another controller answered is legal. A log is a script in which each event's line is
//! followed by the lines that were answered. And what hosts would have heard in it.
#![tactic(auto)]

mod answers;
mod hearing;
mod hosts;
mod judge;
mod judging;
mod log;
mod naming;
mod rules;
mod starting;
mod told;
mod totals;

pub use crate::hearing::{Hearing, hear_log};
pub use crate::judge::Right;
pub use crate::judging::{Verdict, judge_lines};
pub use crate::log::judge_log;
pub use crate::rules::Rule;
pub use crate::starting::Starts;
pub use crate::totals::Totals;
