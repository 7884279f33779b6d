//! An owned list of units, and the test for an offset inside a pair of surrogates.

ghost use Rattle.std.specs.Prelude.{◌≡◌, ◌&&◌, IfOk, IsOk, OnOk, OnErr, vec_len};
ghost use Rattle.std.specs.Char.Utf16.{is_high_surrogate, is_low_surrogate};
ghost use Rattle.unit_text.specs.Kinds.{normalized, IsOfKind};
ghost use Rattle.unit_text.specs.Units.{cuts_pair};

use crate::kind::{Kind, is_of_kind, norm_of};
use std::alloc::{AllocError, Global};
use std::marker::Model;

/// An owned text of UTF-16 code units. Contracts see it as its list of units.
#[derive(Drop, Debug)]
pub struct Units {
    items: Vec<u16>,
}

impl Model for Units {
    ghost use Rattle.std.specs.Prelude.{List, ℕ};

    ghost Value = { List ℕ };

    ghost view = { λ units. units.items.items };
}

impl Units {
    /// Returns a copy of the units. Fails if there is no memory for it.
    pub fn copy_of(alloc: Global, units: &[u16]) -> Result<Units, AllocError>
        ensures { IfOk result (λ copy. copy ≡ units.now) }
    {
        let items = Vec::from_slice(alloc, units)?;
        Ok(Units { items })
    }

    /// Returns the units of the vector without a copy.
    pub fn from_vec(items: Vec<u16>) -> Units
        ensures { result ≡ items.items }
    {
        Units { items }
    }

    /// Returns the vector of the units without a copy.
    pub fn into_vec(self) -> Vec<u16>
        ensures { result.items ≡ self }
    {
        self.items
    }

    pub fn as_slice(&self) -> &[u16]
        ensures { result.now ≡ self.now }
    {
        self.items.as_slice()
    }

    /// Replaces all line endings by those of the kind. Allocates only if the text has other line endings. On an error
    /// the text is unchanged.
    pub fn normalize(&mut self, kind: Kind) -> Result<(), AllocError>
        ensures ok { OnOk result (self.new ≡ normalized kind self.old) }
        ensures sure { IsOfKind kind self.old → IsOk result }
        ensures err { OnErr result (self.new ≡ self.old) }
    {
        if is_of_kind(self.as_slice(), kind) {
            return Ok(());
        }
        let mut items = Vec::new(*self.items.allocator());
        norm_of(self.as_slice(), kind, &mut items)?;
        self.items = items;
        Ok(())
    }
}

/// Returns whether the offset is between a high surrogate and a low surrogate that follows it.
pub fn cuts_pair(units: &[u16], offset: u64) -> bool
    ensures { result ≡ cuts_pair units.now offset }
{
    if offset == 0 || offset >= units.len() as u64 {
        return false;
    }
    let at = offset as usize;
    is_surrogate_pair(units[at - 1], units[at])
}

/// Returns whether `high` is a high surrogate and `low` a low surrogate.
pub(crate) fn is_surrogate_pair(high: u16, low: u16) -> bool
    ensures { result ≡ (is_high_surrogate high && is_low_surrogate low) }
{
    0xD800 <= high && high < 0xDC00 && 0xDC00 <= low && low < 0xE000
}
