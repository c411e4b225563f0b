//! The units of a controller with their geometry and heads; its limits, its two connections, and what comes to it.
#![tactic(auto)]

mod block;
mod config;
mod connection;
mod event;
mod head;
mod memory;
mod unit;
mod units;

pub use crate::block::{Block, FaultStatus};
pub use crate::config::{Config, ConfigFault};
pub use crate::connection::Connection;
pub use crate::event::Event;
pub use crate::head::Head;
pub use crate::memory::OutOfMemory;
pub use crate::unit::{INVALID_BLOCK, INVALID_BYTE_COUNT, Unit, UnitFault};
pub use crate::units::{Units, UnitsFault};
