//! What a legal trace shows on the wire, and that it is right by the rules for any controller.
#![tactic(auto)]

mod law;

pub use crate::law::legal_traces_are_right;
