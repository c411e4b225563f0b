//! Which rules of the wire a port keeps towards its host.
#![tactic(auto)]

mod law;

pub use crate::law::{ports_answer_what_is_outstanding, ports_are_right, ports_send_long_ends};
