//! Texts that are read without a copy.

ghost use Rattle.std.specs.Prelude.{◌≡◌, ◌-◌, ◌<◌, ◌≤◌, ◌++◌, ◌&&◌, List, ℕ, length, drop, take, OnOk, OnErr};
ghost use Rattle.unit_text.specs.declared.kind.Kind.{Kind};
ghost use Rattle.unit_text.specs.declared.kind.Kind.TheVariants.{Mixed};
ghost use Rattle.unit_text.specs.Kinds.{is_place_in};

use crate::kind::Kind;
use crate::units::{Units, cuts_pair};
use std::alloc::AllocError;

/// A text that can be read run by run or copied range by range. Contracts see it as its list of units.
pub trait Flat {
    ghost units: { Self → List ℕ };

    ghost kind: { Self → Kind };

    /// Returns the number of units of the text.
    fn len(&self) -> u64
        ensures { result ≡ length (units self.now) };

    /// Returns the kind of the text's line endings.
    fn kind(&self) -> Kind
        ensures { result ≡ kind self.now };

    /// Returns whether the offset is valid: it is at most the length, it is not inside a pair of surrogates, and in a
    /// text of kind CR LF it is not inside a CR LF.
    fn is_place(&self, offset: u64) -> bool
        ensures { result ≡ is_place_in (kind self.now) (units self.now) offset };

    /// Returns whether both offsets are valid places. `start` is at most `end`.
    fn are_places(&self, start: u64, end: u64) -> bool
        requires { start ≤ end }
        ensures { result ≡ (is_place_in (kind self.now) (units self.now) start
            && is_place_in (kind self.now) (units self.now) end) };

    /// Returns a non-empty run of the units that start at offset `at`.
    fn run(&self, at: u64) -> &[u16]
        requires { at < length (units self.now) }
        ensures some { 0 < length result.now }
        ensures front { result.now ≡ take (length result.now) (drop at (units self.now)) };

    /// Appends the units from offset `start` up to offset `end` to `out`. On an error `out` is unchanged.
    fn copy(&self, start: u64, end: u64, out: &mut Vec<u16>) -> Result<(), AllocError>
        requires ordered { start ≤ end }
        requires within { end ≤ length (units self.now) }
        ensures ok { OnOk result (out.new.items
            ≡ out.old.items ++ take (end - start) (drop start (units self.now))) }
        ensures err { OnErr result (out.new.items ≡ out.old.items) };
}

impl Flat for Units {
    ghost units = { λ text. text };

    ghost kind = { λ _. Mixed };

    fn kind(&self) -> Kind {
        Kind::Mixed
    }

    fn len(&self) -> u64 {
        self.as_slice().len() as u64
    }

    fn is_place(&self, offset: u64) -> bool {
        let units = self.as_slice();
        offset <= units.len() as u64 && !cuts_pair(units, offset)
    }

    fn are_places(&self, start: u64, end: u64) -> bool {
        self.is_place(start) && self.is_place(end)
    }

    fn run(&self, at: u64) -> &[u16] {
        &self.as_slice()[at as usize..]
    }

    fn copy(&self, start: u64, end: u64, out: &mut Vec<u16>) -> Result<(), AllocError> {
        out.extend_from_slice(&self.as_slice()[start as usize..end as usize])
    }
}
