//! A counter of steps and a list of numbers. Only proofs read them, and they cost nothing at run time.
#![tactic(auto)]

mod trail;

ghost use Rattle.std.specs.Prelude.{◌≡◌, ◌+◌};

use std::marker::{Model, PhantomData};
pub use trail::Trail;

/// A counter of steps. It takes no bytes, and only `tick` and `add` change it.
///
/// A function that is generic in `L` cannot make another counter of that type, so it cannot restart the count.
#[derive(Drop)]
pub struct Steps<L> {
    taken: Trail,
    of: PhantomData<L>,
}

/// The type parameter of counters that nobody reads.
#[derive(Drop)]
pub struct Uncounted;

impl<L> Model for Steps<L> {
    ghost use Rattle.std.specs.Prelude.{ℕ};
    ghost use Rattle.std.specs.List.{sum};

    ghost Value = { ℕ };

    ghost view = { λ s. sum s.taken.numbers };
}

impl Steps<Uncounted> {
    /// Makes a counter at 0.
    pub fn new() -> Steps<Uncounted>
        ensures { result ≡ 0 }
    {
        Steps {
            taken: Trail::new(),
            of: PhantomData,
        }
    }
}

impl<L> Steps<L> {
    /// Counts one step.
    pub fn tick(&mut self)
        ensures { self.new ≡ self.old + 1 }
    {
        self.add(1);
    }

    /// Counts `steps` steps.
    pub fn add(&mut self, steps: u64)
        ensures { self.new ≡ self.old + steps }
    {
        self.taken = self.taken.and(&steps);
    }
}
