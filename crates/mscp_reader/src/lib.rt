//! Scripts: what their bytes ask for, line by line, and their first fault.
#![tactic(auto)]

mod events;
mod fault;
mod header;
mod law;
mod lines;
mod numbers;
mod pieces;
mod plain;
mod request;
mod script;
mod words;

pub use crate::events::{MOST_EVENTS, request_after};
pub use crate::fault::{Cause, ReadFault, ScriptFault};
pub use crate::header::read_header;
pub use crate::law::scripts_have_one_meaning;
pub use crate::lines::{LONGEST_LINE, Line, Lines, MOST_LINES, words_of};
pub use crate::numbers::{bytes_in, wide};
pub use crate::request::{Request, ValidCommand};
pub use crate::script::{MOST_BYTES, lines_of};
pub use crate::words::Words;
