//! The calls of the C library: a controller, a host, a port, and a driver's account of one, in memory that a program in
//! C owns, and messages by their fields.
#![tactic(auto)]

mod command_writing;
mod controller_saving;
mod driver_saving;
mod driving;
mod end_reading;
mod hearing;
mod heeding;
mod host_saving;
mod hosting;
mod law;
mod making;
mod outs;
mod port_given;
mod port_making;
mod port_registers;
mod port_saving;
mod port_seeing;
mod port_telling;
mod port_turning;
mod port_watching;
mod restore_status;
mod running;
mod saving;
mod seeing;
mod sending;
mod serving;
mod status;
mod telling;
mod units;

pub use crate::law::{
    driver_handles_keep_their_history, handles_keep_the_promise, host_handles_keep_their_history,
    made_handles_are_valid, port_handles_keep_the_promise, statuses_are_these,
};
