//! Trials of all libraries by their public calls, as the crate's tests; and memory that is refused once, for them.
#![tactic(auto)]

mod scarce;
#[cfg(test)]
mod tests;

pub use crate::scarce::Scarce;
