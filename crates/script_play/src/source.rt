//! A source that generates a script from a seed.

ghost use Rattle.std.specs.Prelude.{◌≡◌, IsOk, Some};
ghost use Rattle.script_streams.specs.Streams.{Reads};
ghost use Rattle.script_play.specs.Script.{script, IsCount};
ghost use Rattle.script_streams.specs.Fresh.{fresh_source};

use crate::supply::Supply;
use script_streams::{Failed, Source};
use std::marker::Model;

/// A source of the script for a number of lines and a seed. Contracts know the bytes that are left. Reads never fail and
/// never allocate.
#[derive(Drop)]
pub struct PlaySource {
    supply: Supply,
    given: u64,
    ended: bool,
}

impl Model for PlaySource {
    ghost use Rattle.std.specs.Prelude.{Some};
    ghost use Rattle.script_streams.specs.Streams.{SourceState};
    ghost use Rattle.script_play.specs.Supply.{left_of};

    ghost Value = { SourceState };

    ghost view = { λ s. record {
      left = Some (left_of s.supply);
      given = s.given;
      ended = s.ended;
      faults = 0;
    } };
}

impl PlaySource {
    /// Creates a source of the script of `count` lines, at most [`MOST_LINES`](crate::MOST_LINES), drawn from `seed`.
    pub fn new(count: u32, seed: u64) -> PlaySource
        requires { IsCount count }
        ensures { result ≡ fresh_source (Some (script count seed)) }
    {
        PlaySource {
            supply: Supply::new(count, seed),
            given: 0,
            ended: false,
        }
    }
}

impl Source for PlaySource {
    ghost state = { λ s. record s { faults = 0 } };

    fn read(&mut self, buf: &mut [u8]) -> Result<usize, Failed>
        ensures reads { Reads result (record self.old { faults = 0 })
            (record self.new { faults = 0 }) buf.new }
        ensures sure { IsOk result }
    {
        let count = self.supply.give(buf);
        self.given = self.given.saturating_add(count as u64);
        self.ended = count == 0 && !buf.is_empty();
        Ok(count)
    }
}
