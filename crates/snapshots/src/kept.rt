//! One snapshot.

ghost use Rattle.std.specs.Prelude.{◌≡◌, ◌+◌, ◌-◌, ◌<◌, ◌≤◌};
ghost use Rattle.std.specs.List.{All};
ghost use Rattle.snapshots.specs.Spans.{IsSmall, without};

use chunk_buffers::ChunkSpan;
use std::marker::Model;

/// An open snapshot. Contracts see its id, and the spans of the units that were not read yet.
#[derive(Drop)]
pub(crate) struct Kept {
    id: u64,
    spans: Vec<ChunkSpan>,
    /// The number of spans that were read whole; the next one is cut to its unread rest.
    read: usize,
}

impl Model for Kept {
    ghost use Rattle.std.specs.Prelude.{◌≤◌, drop, vec_len};
    ghost use Rattle.std.specs.List.{All};
    ghost use Rattle.snapshots.specs.Spans.{Spelled, IsSmall};

    ghost Value = { Spelled };

    ghost view = { λ k. record { id = k.id; spans = drop k.read k.spans.items } };

    ghost invariant = { λ k. (k.read ≤ vec_len k.spans) × All IsSmall k.spans.items };
}

impl Kept {
    /// Returns a snapshot of the text of these spans, of which nothing was read yet.
    pub(crate) fn of_spans(id: u64, spans: Vec<ChunkSpan>) -> Kept
        requires { All IsSmall spans.items }
        ensures { result ≡ record { id = id; spans = spans.items } }
    {
        Kept { id, spans, read: 0 }
    }

    pub(crate) fn id(&self) -> u64
        ensures { result ≡ self.now.id }
    {
        self.id
    }

    /// Returns the spans of the units that were not read yet.
    pub(crate) fn rest(&self) -> &[ChunkSpan]
        ensures { result.now ≡ self.now.spans }
    {
        let (_, rest) = self.spans.split_at(self.read);
        rest
    }

    /// Skips the first `n` unread units, or all if there are fewer. Each span that is skipped whole takes one step.
    pub(crate) fn skip(&mut self, n: u64)
        ensures { self.new ≡ record self.old { spans = without n self.old.spans } }
    {
        let mut left = n;
        while self.read < self.spans.len() {
            let span = self.spans[self.read];
            if left < span.units as u64 {
                self.spans[self.read] = rest_of(span, left);
                return;
            }
            left -= span.units as u64;
            self.read += 1;
        }
    }
}

// Returns the span without its first `from` units.
fn rest_of(span: ChunkSpan, from: u64) -> ChunkSpan
    requires within { from ≤ span.units }
    requires small { IsSmall span }
    ensures { result ≡ record span { start = span.start + from; units = span.units - from } }
{
    ChunkSpan {
        buffer: span.buffer,
        start: span.start + from as u32,
        units: span.units - from as u32,
    }
}
