// Memory that is refused once. What is counted stands in a cell, and no clause can say what a cell holds: the trials
// show it.

ghost use Rattle.std.specs.Prelude.{◌≤◌};

use std::alloc::{AllocError, Allocator};
use std::cell::Cell;

/// How many requests come until one is refused, and how many blocks were handed out and not given back.
#[derive(Clone, Copy)]
struct Counts {
    until: u64,
    held: u64,
}

/// An allocator that refuses one request, and else hands on to another.
pub struct Scarce<A: Allocator> {
    inner: A,
    counts: Cell<Counts>,
}

impl<A: Allocator> Scarce<A> {
    /// The request of this number is refused, counted from 1.
    pub fn new(inner: A, refused: u64) -> Scarce<A>
        requires { 1 ≤ refused }
    {
        Scarce {
            inner,
            counts: Cell::new(Counts {
                until: refused,
                held: 0,
            }),
        }
    }

    /// Whether a request was refused.
    pub fn has_refused(&self) -> bool {
        self.counts.get().until == 0
    }

    /// How many blocks were handed out and not given back.
    pub fn held(&self) -> u64 {
        self.counts.get().held
    }
}

impl<A: Allocator> Drop for Scarce<A> {
    fn drop(self) {
        let Self {
            inner: _,
            counts: _,
        } = self;
    }
}

/// Counts a request, and says whether it is the one that is refused.
fn refuses(counts: &Cell<Counts>) -> bool {
    let Counts { until, held } = counts.get();
    let refused = until == 1;
    counts.set(Counts {
        until: until.saturating_sub(1),
        held: if refused { held } else { held.wrapping_add(1) },
    });
    refused
}

/// Counts a block that is given back.
fn frees(counts: &Cell<Counts>) {
    let Counts { until, held } = counts.get();
    counts.set(Counts {
        until,
        held: held.wrapping_sub(1),
    });
}

unsafe impl<A: Allocator> Allocator for Scarce<A> {
    ghost dealloc_token = { λ heap ty ptr. A.dealloc_token heap.inner ty ptr };

    fn allocate(&self, size: usize, align: usize) -> Result<*mut u8, AllocError> {
        if refuses(&self.counts) {
            return Err(AllocError);
        }
        self.inner.allocate(size, align)
    }

    unsafe fn deallocate(&self, ptr: *mut u8, size: usize, align: usize) {
        frees(&self.counts);
        self.inner.deallocate(ptr, size, align);
    }
}
