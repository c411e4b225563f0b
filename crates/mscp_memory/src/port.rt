//! A port in memory.

mod calls;
mod handle;
mod marks;

pub use crate::port::calls::{is_made, lend, memory_fault, place, replace, room_fault};
pub use crate::port::handle::Handle;
pub use crate::port::marks::{ALIGN, MADE, ROOM, SIZE};
