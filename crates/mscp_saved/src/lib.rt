//! A controller as bytes, and from them.
#![tactic(auto)]

mod checking;
mod fault;
mod fields;
mod framing;
mod law;
mod reading;
mod restoring;
mod writing;

pub use crate::fault::RestoreFault;
pub use crate::law::restoring_is_faithful;
pub use crate::reading::{connection_in, part};
pub use crate::restoring::{restore, restore_fault, resume, saved_settings};
pub use crate::writing::{ROOM, connection_byte, save};
