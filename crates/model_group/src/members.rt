//! Sets of documents.

ghost use Rattle.std.specs.Prelude.{◌≡◌, ◌==◌, ◌^◌, ◌<◌, option_to_list};
ghost use Rattle.std.specs.Int.{bit_at};
ghost use Rattle.std.specs.Int.RustNames.{bit_or};
ghost use Rattle.undo_rules.specs.Tags.{is_member};
ghost use Rattle.group_rules.specs.declared.TheConstants.{DOC_COUNT};
ghost use Rattle.model_group.specs.Losing.{Names, set_with};

use group_rules::DOC_COUNT;
use std::marker::Model;
use undo_rules::Tag;

/// A set of documents.
#[derive(Clone, Copy)]
pub(crate) struct Members {
    // Bit n is set where document n is in the set.
    bits: u64,
}

impl Model for Members {
    ghost use Rattle.std.specs.Prelude.{ℕ};

    ghost Value = { ℕ };

    ghost view = { λ members. members.bits };

    ghost inverse = { λ n. record { bits = n } };
}

impl Members {
    pub fn none() -> Members
        ensures { result ≡ 0 }
    {
        Members { bits: 0 }
    }

    /// The set of this document.
    pub fn one(doc: u64) -> Members
        requires { doc < DOC_COUNT }
        ensures { result ≡ 2 ^ doc }
    {
        Members { bits: 1 << doc }
    }

    /// The set of the documents that the tag names, if any.
    pub fn of(tag: Option<Tag>) -> Members
        ensures { Names (option_to_list tag) result }
    {
        match tag {
            Some(tag) => Members { bits: tag.members },
            None => Members::none(),
        }
    }

    pub fn has(self, doc: u64) -> bool
        requires { doc < DOC_COUNT }
        ensures { result ≡ (bit_at self doc == 1) }
    {
        (self.bits >> doc) & 1 == 1
    }

    /// Adds a document; None if it is in the set already or out of range.
    pub fn more(self, doc: u64) -> Option<Members>
        ensures { result ≡ set_with self doc }
    {
        if doc >= DOC_COUNT || self.has(doc) {
            return None;
        }
        Some(Members {
            bits: self.bits | 1 << doc,
        })
    }

    /// The union of both sets.
    pub fn or(self, other: Members) -> Members
        ensures { result ≡ bit_or self other }
    {
        Members {
            bits: self.bits | other.bits,
        }
    }

    pub fn is_empty(self) -> bool
        ensures { result ≡ (self == 0) }
    {
        self.bits == 0
    }

    /// The set as a number, with bit n for document n.
    pub fn bits(self) -> u64
        ensures { result ≡ self }
    {
        self.bits
    }
}

/// Returns whether the tag names this document.
pub(crate) fn is_member(doc: u64, tag: Tag) -> bool
    requires { doc < DOC_COUNT }
    ensures { result ≡ is_member doc tag }
{
    Members { bits: tag.members }.has(doc)
}
