// What text is written to, piece by piece.

use std::alloc::{AllocError, Allocator};

/// What bytes are appended to.
pub trait Out: Drop {
    ghost use Rattle.std.specs.Prelude.{◌≡◌, ◌++◌, ℕ, List, OnErr, OnOk};

    // What was appended.
    ghost text: { Self → List ℕ };

    // It may refuse bytes. Memory that is asked for may: nothing is known of it.
    ghost refuses: { Type 0 } = { Unit {0} };

    /// Appends bytes, or says that there is no room for them, and then appends nothing.
    fn append(&mut self, bytes: &[u8]) -> Result<(), AllocError>
        ensures appended { OnOk result (text self.new ≡ text self.old ++ bytes.now) }
        ensures unchanged { OnErr result (text self.new ≡ text self.old) }
        ensures refused { OnErr result refuses };
}

impl<A: Allocator> Out for Vec<u8, A> {
    ghost text = { λ v. v.items };

    #[inline(always)]
    fn append(&mut self, bytes: &[u8]) -> Result<(), AllocError> {
        self.extend_from_slice(bytes)
    }
}
