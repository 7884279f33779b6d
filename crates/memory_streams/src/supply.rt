//! Bytes that are given piece by piece.
ghost use Rattle.std.specs.Prelude.{◌≡◌, ◌<◌, min, length, take, IfOk, Some, false};
ghost use Rattle.script_streams.specs.Streams.{Given};
ghost use Rattle.script_streams.specs.Fresh.{fresh_source};
ghost use Rattle.memory_streams.specs.Planned.{available};

use script_streams::copy_front;
use std::alloc::{AllocError, Global};
use std::marker::Model;

/// Bytes, the number of them already given, and whether the last read returned the end.
#[derive(Drop)]
pub(crate) struct Supply {
    bytes: Vec<u8>,
    given: usize,
    ended: bool,
}

impl Model for Supply {
    ghost use Rattle.std.specs.Prelude.{◌≤◌, drop, Some, vec_len};
    ghost use Rattle.script_streams.specs.Streams.{SourceState};

    ghost Value = { SourceState };

    ghost view = { λ s. record {
      left = Some (drop s.given s.bytes.items);
      given = s.given;
      ended = s.ended;
      faults = 0;
    } };

    ghost invariant = { λ s. s.given ≤ vec_len s.bytes };
}

impl Supply {
    pub(crate) fn new(alloc: Global, bytes: &[u8]) -> Result<Supply, AllocError>
        ensures { IfOk result (λ supply. supply ≡ fresh_source (Some bytes.now)) }
    {
        Ok(Supply {
            bytes: Vec::from_slice(alloc, bytes)?,
            given: 0,
            ended: false,
        })
    }

    /// Gives the next bytes: at most `most`, and at most what fits the buffer. Returns their number.
    pub(crate) fn give(&mut self, buf: &mut [u8], most: usize) -> usize
        requires { 0 < most }
        ensures given { Given result self.old self.new buf.new }
        ensures count { result ≡ min most (available self.old.left buf.old) }
    {
        let left = self.left();
        let count = copy_front(&left[..most.min(left.len())], buf);
        self.given += count;
        self.ended = count == 0 && !buf.is_empty();
        count
    }

    /// Records a read that fails and gives nothing.
    pub(crate) fn give_none(&mut self)
        ensures { self.new ≡ record self.old { ended = false } }
    {
        self.ended = false;
    }

    pub(crate) fn left(&self) -> &[u8]
        ensures { self.now.left ≡ Some result.now }
    {
        &self.bytes[self.given..]
    }

    /// Whether the last read returned the end.
    pub(crate) fn has_ended(&self) -> bool
        ensures { result ≡ self.now.ended }
    {
        self.ended
    }
}
