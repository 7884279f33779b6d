// Sets of kinds.
ghost use Rattle.std.specs.Prelude.{◌≡◌, ◌<◌, ◌^◌, ◌↔◌, ℕ, true, false, IsTrue, bit_or};
ghost use Rattle.bracket_tree_rules.specs.Told.{has_kind, with_kind};

use bracket_rules::MOST_PAIRS;
use std::marker::Model;

/// A set of kinds of brackets.
#[derive(Clone, Copy, PartialEq, Eq, Debug)]
pub struct Kinds {
    // Bit k is set if kind k is in the set.
    bits: u64,
}

impl Model for Kinds {
    ghost use Rattle.std.specs.Prelude.{ℕ};

    ghost Value = { ℕ };

    ghost view = { λ kinds. kinds.bits };

    ghost inverse = { λ n. record { bits = n } };
}

impl Kinds {
    /// Returns the empty set.
    pub fn none() -> Kinds
        ensures { result ≡ 0 }
    {
        Kinds { bits: 0 }
    }

    /// Returns the set of this kind alone.
    pub fn one(kind: u64) -> Kinds
        requires { kind < MOST_PAIRS }
        ensures { result ≡ 2 ^ kind }
    {
        Kinds { bits: 1 << kind }
    }

    pub fn has(&self, kind: u64) -> bool
        ensures { result ≡ has_kind self.now kind }
    {
        let bits = self.bits;
        kind < u64::BITS as u64 && (bits >> kind) & 1 == 1
    }

    /// Returns the set with this kind added.
    pub fn with(self, kind: u64) -> Kinds
        requires { kind < MOST_PAIRS }
        ensures { result ≡ with_kind self kind }
    {
        self.union(Kinds::one(kind))
    }

    /// Returns the union of both sets.
    pub fn union(self, other: Kinds) -> Kinds
        ensures { result ≡ bit_or self other }
    {
        Kinds {
            bits: self.bits | other.bits,
        }
    }
    /// Whether the two sets are disjoint.
    pub(crate) fn is_apart_from(self, other: Kinds) -> bool
        ensures { IsTrue result
            ↔ ((k : ℕ) → has_kind self k ≡ true → has_kind other k ≡ false) }
    {
        self.bits & other.bits == 0
    }
}
