//! 64-bit numbers with an alignment of four bytes.
ghost use Rattle.std.specs.Prelude.{◌≡◌};

use std::marker::Model;

/// A 64-bit number in two 32-bit halves, so that no padding is needed beside a 32-bit field. In contracts it is the
/// number.
#[derive(Clone, Copy)]
pub(crate) struct Halves {
    high: u32,
    low: u32,
}

impl Model for Halves {
    ghost use Rattle.std.specs.Prelude.{ℕ, ◌^◌, ◌<◌};
    ghost use Rattle.interval_deltas.specs.Halves.{joined, high_half, low_half, same_high, same_low};

    ghost Value = { ℕ };

    ghost view = { λ a. joined a.high a.low };

    ghost invariant = { λ a. a.low < 2 ^ 32 };

    ghost inverse = { λ n. record { high = high_half n; low = low_half n } };

    ghost inverse_ok = { λ a low i. record {
      high = same_high a.high a.low low i;
      low = same_low a.high a.low low i;
    } };
}

impl Halves {
    pub(crate) fn of(number: u64) -> Halves
        ensures { result ≡ number }
    {
        Halves {
            high: (number / (1 << 32)) as u32,
            low: (number % (1 << 32)) as u32,
        }
    }

    pub(crate) fn number(self) -> u64
        ensures { result ≡ self }
    {
        self.high as u64 * (1 << 32) + self.low as u64
    }
}
