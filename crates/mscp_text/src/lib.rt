//! Text of messages: the line of a packet, and what such lines are made of.
#![tactic(auto)]

mod digits;
mod lent;
mod out;
mod packet;
mod past;
mod words;

pub use crate::digits::write_hex;
pub use crate::lent::{Lent, Room};
pub use crate::out::Out;
pub use crate::packet::{ShowFault, show_packet, show_packet_to};
pub use crate::words::{put, put_field};
