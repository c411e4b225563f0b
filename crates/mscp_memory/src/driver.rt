//! A driver's account of its port in memory.

mod calls;
mod handle;
mod marks;

pub use crate::driver::calls::{is_made, lend, memory_fault, place, replace, room_fault};
pub use crate::driver::handle::Handle;
pub use crate::driver::marks::{ALIGN, MADE, ROOM, SIZE};
