//! A disk controller that tells, beside what it tells, whose each command is, by 64 bits that its holder gave, and
//! which beginning of a block each finish is of.
#![tactic(auto)]

mod cookies;
mod law;
mod saving;
mod tracked;

pub use crate::law::{cookies_are_kept, serials_are_kept};
pub use crate::saving::{ROOM, restore, save};
pub use crate::tracked::{Beginning, Ended, Finished, Taken, Tracked};
