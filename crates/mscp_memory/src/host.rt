//! A host in memory.

mod calls;
mod handle;
mod marks;

pub use crate::host::calls::{is_made, lend, memory_fault, place, replace, room_fault};
pub use crate::host::handle::Handle;
pub use crate::host::marks::{ALIGN, MADE, ROOM, SIZE};
