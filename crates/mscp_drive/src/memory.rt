// The want of memory.

use std::alloc::{AllocError, AllocFailed};

/// No memory was left. Nothing else is wrong.
#[derive(Clone, Copy)]
pub struct OutOfMemory;

impl From<AllocError> for OutOfMemory {
    fn from(_refusal: AllocError) -> OutOfMemory {
        OutOfMemory
    }
}

impl<T: Drop> From<AllocFailed<T>> for OutOfMemory {
    fn from(_refusal: AllocFailed<T>) -> OutOfMemory {
        OutOfMemory
    }
}
