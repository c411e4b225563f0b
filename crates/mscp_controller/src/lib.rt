//! A disk controller: its credits, its ends, and whole runs of it, over a queue that any picker may pick from.
#![tactic(auto)]

mod account;
mod answer;
mod arrival;
mod controller;
mod entry;
mod law;
mod running;

pub use crate::controller::Controller;
pub use crate::entry::{Entry, NotBegun, SendFault, Sent};
pub use crate::law::{
    controllers_keep_the_promise, legal_traces_make_progress, replaced_pickers_keep_the_promise,
    runs_keep_the_promise,
};
pub use crate::running::{run, run_in, run_into};
pub use mscp_drive::{Block, Config, ConfigFault, Connection, Event, FaultStatus, OutOfMemory};
pub use mscp_queue::{
    Choice, Drive, Holder, Name, Oldest, Picker, Record, Report, Sweep, Upcoming, View,
};
