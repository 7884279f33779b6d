//! Names of the values in an arena.
ghost use Rattle.std.specs.Prelude.{◌≡◌, ◌+◌, ◌^◌, ◌<◌, ◌==◌};

use std::marker::Model;

/// The name of a value in an arena. A contract sees it as a number.
#[derive(Clone, Copy, PartialEq, Eq, PartialOrd, Ord, Hash, Debug)]
pub struct NodeId {
    /// Number of the slot plus one, so that 0 in a `Link` means no name.
    next: u32,
}

impl Model for NodeId {
    ghost use Rattle.std.specs.Prelude.{ℕ, ◌+◌, ◌-◌, ◌<◌};
    ghost use Rattle.std.proofs.Math.Nat.{sub-add_cancel};

    ghost Value = { ℕ };

    ghost view = { λ a. a.next - 1 };

    ghost invariant = { λ a. 0 < a.next };

    ghost inverse = { λ n. record { next = n + 1 } };

    ghost inverse_ok = { λ a some i. record { next = sub-add_cancel some i } };
}

impl NodeId {
    /// Returns true if the two names are equal.
    pub fn is(self, other: NodeId) -> bool
        ensures { result ≡ (self == other) }
    {
        self.slot() == other.slot()
    }

    pub(crate) fn new(slot: u32) -> NodeId
        requires { slot + 1 < 2 ^ 32 }
        ensures { result ≡ slot }
    {
        NodeId { next: slot + 1 }
    }

    pub(crate) fn slot(self) -> u32
        ensures { result ≡ self }
    {
        self.next - 1
    }
}

/// An optional name in four bytes. A contract sees it as an `Option`.
#[derive(Clone, Copy)]
pub struct Link {
    /// Number of the slot plus one, or 0 for no name.
    next: u32,
}

impl Model for Link {
    ghost use Rattle.std.specs.Prelude.{ℕ, Option};
    ghost use Rattle.std.specs.Coded.{coded_ℕ, coded_option};
    ghost use Rattle.raw_arena.specs.Links.{name_before, after_name, same_link};

    ghost Value = { Option ℕ };

    ghost coded = { coded_option coded_ℕ };

    ghost view = { λ a. name_before a.next };

    ghost inverse = { λ name. record { next = after_name name } };

    ghost inverse_ok = { λ a _ i. record { next = same_link a.next i } };
}

impl Link {
    /// Makes a link from a name or None.
    pub fn of(name: Option<NodeId>) -> Link
        ensures { result ≡ name }
    {
        match name {
            None => Link { next: 0 },
            Some(id) => Link { next: id.next },
        }
    }

    /// Returns the name of the link, or None.
    pub fn name(self) -> Option<NodeId>
        ensures { result ≡ self }
    {
        if self.next == 0 {
            None
        } else {
            Some(NodeId { next: self.next })
        }
    }
}
