//! A controller in memory.

mod calls;
mod handle;
mod marks;

pub use crate::controller::calls::{is_made, lend, memory_fault, place, replace, room_fault};
pub use crate::controller::handle::Handle;
pub use crate::controller::marks::{ALIGN, MADE, ROOM, SIZE};
