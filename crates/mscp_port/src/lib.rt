//! A port between a host's bus and a disk controller: its registers, its rings, and what comes through them. It does no
//! input or output itself: it says what it wants done, and is told how that went.
#![tactic(auto)]

mod action;
mod buffers;
mod codes;
mod decided;
mod formality;
mod hardware;
mod leaving;
mod message;
mod port;
mod rings;
mod sizes;
mod slot;
mod stage;
mod task;
mod verdict;
mod volumes;

pub use crate::action::{Action, Ask, Outcome, Unasked};
pub use crate::hardware::{Bus, Hardware};
pub use crate::port::{NoUnit, Port, PortFault, ROOM, RestoreFault, restore_fault, saved_settings};
pub use crate::stage::Stage;
pub use crate::volumes::{Medium, Volume, VolumeFault};
