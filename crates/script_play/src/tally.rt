//! A sink that counts and sums the bytes written to it.

ghost use Rattle.std.specs.Prelude.{◌≡◌, ◌%◌, ◌^◌, length, sum, Ok};
ghost use Rattle.script_streams.specs.Streams.{Writes};
ghost use Rattle.script_streams.specs.Fresh.{no_tally};
ghost use Rattle.script_play.specs.Tallies.{tally_sink};

use script_streams::{Failed, Sink};
use std::marker::Model;

/// A sink that keeps only the number and the sum of the bytes written, both modulo 2^32. Writes never fail.
#[derive(Drop)]
pub struct TallySink {
    count: u32,
    sum: u32,
}

impl Model for TallySink {
    ghost use Rattle.script_streams.specs.Streams.{Tally};

    ghost Value = { Tally };

    ghost view = { λ s. record { count = s.count; sum = s.sum } };
}

impl TallySink {
    pub fn new() -> TallySink
        ensures { result ≡ no_tally }
    {
        TallySink { count: 0, sum: 0 }
    }

    /// Returns the number of bytes written, modulo 2^32.
    pub fn count(&self) -> u32
        ensures { result ≡ self.now.count }
    {
        self.count
    }

    /// Returns the sum of the bytes written, modulo 2^32.
    pub fn sum(&self) -> u32
        ensures { result ≡ self.now.sum }
    {
        self.sum
    }
}

impl Sink for TallySink {
    ghost state = { λ s. tally_sink s };

    fn write(&mut self, piece: &[u8]) -> Result<usize, Failed>
        ensures writes { Writes result (tally_sink self.old) (tally_sink self.new) piece.now }
        ensures whole { result ≡ Ok (length piece.now) }
    {
        self.count = self.count.wrapping_add(count_of(piece));
        self.sum = self.sum.wrapping_add(sum_of(piece));
        Ok(piece.len())
    }
}

/// Returns the number of bytes, modulo 2^32.
fn count_of(bytes: &[u8]) -> u32
    ensures { result ≡ length bytes.now % 2 ^ 32 }
{
    (bytes.len() as u64 % (1 << 32)) as u32
}

/// Returns the sum of the bytes, modulo 2^32.
fn sum_of(bytes: &[u8]) -> u32
    ensures { result ≡ sum bytes.now % 2 ^ 32 }
{
    let mut total: u32 = 0;
    for byte in bytes {
        total = total.wrapping_add(u32::from(*byte));
    }
    total
}
