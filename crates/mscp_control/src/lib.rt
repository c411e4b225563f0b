//! A disk controller, and how long a command of it may have to wait at most. What `mscp_controller` has is passed on.
#![tactic(auto)]

mod law;
mod worst_case;

pub use crate::law::the_bound_is_the_least;
pub use crate::worst_case::{worst, worst_in};
pub use mscp_controller::{
    Block, Choice, Config, ConfigFault, Connection, Controller, Drive, Entry, Event, FaultStatus,
    Holder, Name, NotBegun, Oldest, OutOfMemory, Picker, Record, Report, SendFault, Sent, Sweep,
    Upcoming, View, controllers_keep_the_promise, legal_traces_make_progress,
    replaced_pickers_keep_the_promise, run, run_in, run_into, runs_keep_the_promise,
};
