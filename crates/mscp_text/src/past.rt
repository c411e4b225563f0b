// What was appended. It exists only in proofs.

ghost use Rattle.std.specs.Prelude.{◌≡◌, ◌++◌, ℕ, List, []};
ghost use Rattle.std.specs.Borrow.{ftrue};
ghost use Rattle.std.specs.Coded.{coded_list, coded_ℕ};

use std::marker::Model;

/// It has no bytes, and its methods do nothing.
#[derive(Drop)]
pub struct Past {
    pub ghost text: { List ℕ } by { coded_list coded_ℕ },
}

impl Model for Past {
    ghost also_owns = { λ _. ftrue };
}

impl Past {
    /// Nothing was appended.
    pub(crate) fn new() -> Past
        ensures { result.text ≡ [] }
    {
        Past {}
    }

    /// And then these bytes were.
    #[inline(always)]
    pub(crate) fn and(&self, _bytes: &[u8]) -> Past
        ensures { result.text ≡ self.now.text ++ _bytes.now }
    {
        Past {}
    }
}
