//! Command and end messages of the Mass Storage Control Protocol, as values and as bytes.
#![tactic(auto)]

mod asking;
mod class;
pub mod codes;
mod command;
mod decoding;
mod end;
pub mod endcodes;
pub mod fields;
mod law;
pub mod opcodes;
mod reading;
pub mod status;
mod writing;

pub use crate::asking::{
    has_row, least_of, may_have_status, modifiers_of, opcode_name, port_answers, scheduled_as,
};
pub use crate::class::{Class, class_of, is_immediate};
pub use crate::command::{Command, MoveKind, Order};
pub use crate::decoding::{MOST_MESSAGE_BYTES, decode};
pub use crate::end::{End, EndBody};
pub use crate::law::{
    command_bytes_are_messages, end_bytes_are_messages, read_written_command, read_written_end,
    statuses_agree, tables_agree,
};
pub use crate::reading::{EndFault, PacketFault, least_end_of, read_command, read_end};
pub use crate::writing::{write_command, write_end};
