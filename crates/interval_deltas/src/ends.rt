//! The ends of decorations, as nodes store them.
ghost use Rattle.std.specs.Prelude.{◌≡◌, ◌<ℤ◌, Some, None, IsTrue};
ghost use Rattle.interval_deltas.specs.Ends.{least};
ghost use Rattle.interval_deltas.specs.Weave.{later, reaches};

use std::marker::Model;

/// The end of a decoration. It is never `i64::MIN`, which a `Greatest` uses for a missing end. In contracts it is the
/// number.
#[derive(Clone, Copy)]
pub struct End {
    offset: i64,
}

impl Model for End {
    ghost use Rattle.std.specs.Prelude.{ℤ, ◌<ℤ◌};
    ghost use Rattle.interval_deltas.specs.Ends.{least};

    ghost Value = { ℤ };

    ghost view = { λ a. a.offset };

    ghost invariant = { λ a. least <ℤ a.offset };

    ghost inverse = { λ z. record { offset = z } };
}

impl End {
    pub(crate) fn of(offset: i64) -> End
        requires { least <ℤ offset }
        ensures { result ≡ offset }
    {
        End { offset }
    }

    /// Returns the end as a number.
    pub(crate) fn offset(self) -> i64
        ensures { result ≡ self }
    {
        self.offset
    }
}

/// The greatest end of some decorations, missing if there are none, in eight bytes. In contracts it is an optional
/// number.
#[derive(Clone, Copy)]
pub struct Greatest {
    /// The end, or `i64::MIN` if it is missing.
    offset: i64,
}

impl Model for Greatest {
    ghost use Rattle.std.specs.Prelude.{ℤ, Option};
    ghost use Rattle.std.specs.Coded.{coded_ℤ, coded_option};
    ghost use Rattle.interval_deltas.specs.Ends.{end_of, number_of, same_number};

    ghost Value = { Option ℤ };

    ghost coded = { coded_option coded_ℤ };

    ghost view = { λ a. end_of a.offset };

    ghost inverse = { λ end. record { offset = number_of end } };

    ghost inverse_ok = { λ a _ i. record { offset = same_number a.offset i } };
}

impl Greatest {
    pub(crate) fn none() -> Greatest
        ensures { result ≡ None }
    {
        Greatest { offset: i64::MIN }
    }

    pub(crate) fn of(end: End) -> Greatest
        ensures { result ≡ Some end }
    {
        Greatest { offset: end.offset }
    }

    /// Returns the end; None if it is missing.
    pub(crate) fn end(self) -> Option<i64>
        ensures { result ≡ self }
    {
        if self.offset == i64::MIN {
            None
        } else {
            Some(self.offset)
        }
    }

    /// Returns whether both are equal.
    pub(crate) fn is(self, other: Greatest) -> bool
        ensures { IsTrue result → self ≡ other }
    {
        self.offset == other.offset
    }

    /// Returns the greater of the two ends. A missing end is below every other, as `i64::MIN` is.
    pub(crate) fn later(self, other: Greatest) -> Greatest
        ensures { result ≡ later self other }
    {
        Greatest {
            offset: self.offset.max(other.offset),
        }
    }

    /// Returns whether the end is at the offset or after it; false if the end is missing.
    pub(crate) fn reaches(self, offset: i64) -> bool
        ensures { result ≡ reaches offset self }
    {
        self.end().is_some_and(|end| offset <= end)
    }
}
