//! A list of numbers for proofs.
ghost use Rattle.std.specs.Prelude.{◌≡◌, ℕ, List, [], ◌∷◌, ◌++◌};
ghost use Rattle.std.specs.Borrow.{ftrue};
ghost use Rattle.std.specs.Coded.{coded_list, coded_ℕ};

use std::marker::Model;

/// The numbers recorded so far, in order. It takes no bytes, and its methods do nothing at run time.
#[derive(Drop)]
pub struct Trail {
    pub ghost numbers: { List ℕ } by { coded_list coded_ℕ },
}

impl Model for Trail {
    ghost also_owns = { λ _. ftrue };
}

impl Trail {
    /// Makes an empty list.
    pub fn new() -> Trail
        ensures { result.numbers ≡ [] }
    {
        Trail {}
    }

    /// Returns the list with one more number at its end.
    pub fn and(&self, _number: &u64) -> Trail
        ensures { result.numbers ≡ self.now.numbers ++ _number.now ∷ [] }
    {
        Trail {}
    }
}
