//! A controller, a host, a port, and a driver's account of its port, in memory that the caller owns.
#![tactic(auto)]

pub mod controller;
pub mod driver;
mod fault;
pub mod host;
mod law;
mod policy;
pub mod port;

pub use crate::fault::RoomFault;
pub use crate::law::marks_differ;
pub use crate::policy::Policy;
