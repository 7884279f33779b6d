//! The layout of a node in memory.
ghost use Rattle.std.specs.Prelude.{◌≡◌, ⊤};

use crate::slot::Slot;
use raw_arena::Link;
use std::alloc::AllocError;
use std::marker::Model;

/// A node as it is stored in memory, with links of four bytes. A contract sees it as a `Slot`.
///
/// The fields that a search reads are adjacent: the links down, and the beginning of the data.
#[derive(Copy)]
pub struct Packed<D: Copy> {
    parent: Link,
    red: bool,
    left: Link,
    right: Link,
    data: D,
}

impl<D: Copy> Model for Packed<D> {
    ghost use Rattle.rb_rules.specs.declared.slot.Slot.{Slot};
    ghost use Rattle.rb_rules.specs.Packing.{slot_code};

    ghost Value = { Slot D };

    ghost coded = { slot_code D.code };

    ghost view = { λ a. record { parent = a.parent; left = a.left; right = a.right; red = a.red; «data» = a.«data» } };

    ghost inverse = { λ s. record { parent = s.parent; left = s.left; right = s.right; red = s.red; «data» = s.«data» } };
}

impl<D: Copy> Clone for Packed<D> {
    ghost is_clone = { λ x y. y ≡ x };

    ghost is_infallible = { λ _. ⊤ };

    fn clone(&self) -> Result<Self, AllocError> {
        Ok(*self)
    }
}

impl<D: Copy> Packed<D> {
    pub fn of(slot: &Slot<D>) -> Packed<D>
        ensures { result ≡ slot.now }
    {
        Packed {
            data: slot.data,
            parent: Link::of(slot.parent),
            left: Link::of(slot.left),
            right: Link::of(slot.right),
            red: slot.red,
        }
    }

    #[inline(always)]
    pub fn slot(&self) -> Slot<D>
        ensures { result ≡ self.now }
    {
        Slot {
            parent: self.parent.name(),
            left: self.left.name(),
            right: self.right.name(),
            red: self.red,
            data: self.data,
        }
    }
}
