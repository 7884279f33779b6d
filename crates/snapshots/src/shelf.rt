//! The shelf of open snapshots.

ghost use Rattle.std.specs.Prelude.{◌≡◌, Err, ℕ, List, [], find, ◌++◌, OnErr, ◌||◌, ◌==◌, nat_le, nat_lt, length};
ghost use Rattle.std.specs.List.{All};
ghost use Rattle.std.specs.Option.{option_copied};
ghost use Rattle.chunk_buffers.specs.Chunks.{LiesIn};
ghost use Rattle.snapshot_rules.specs.Snapshots.{flat_peek, flat_skip, flat_close, most_snapshots, greatest_snapshot, Peeks, Closes};
ghost use Rattle.snapshots.specs.Spans.{IsSmall, spells, IsPlaceOf};
ghost use Rattle.snapshots.specs.Shown.{shown, LieIn, TakesText};

use crate::kept::Kept;
use crate::read::push_front;
use chunk_buffers::{ChunkSpan, Chunks};
use snapshot_rules::{LEAST_READ, MOST_SNAPSHOTS, ShelfError};
use std::alloc::Global;
use std::marker::Model;
use text_lengths::GREATEST_NUMBER;

/// The open snapshots, under ids that rise from 1. Contracts see the spans of the units that were not read yet. These units never change,
/// because the buffers are only appended to.
#[derive(Drop)]
pub struct Shelf {
    snapshots: Vec<Kept>,
    next_id: u64,
}

impl Model for Shelf {
    ghost use Rattle.snapshots.specs.Shown.{Shown, IsOrdered};

    ghost Value = { Shown };

    ghost view = { λ s. record { snapshots = s.snapshots.items; next_id = s.next_id } };

    ghost invariant = { λ s. IsOrdered (record { snapshots = s.snapshots.items; next_id = s.next_id }) };
}

impl Shelf {
    /// Returns an empty shelf. Allocates nothing.
    pub fn new(alloc: Global) -> Shelf
        ensures { result ≡ record { snapshots = []; next_id = 1 } }
    {
        Shelf {
            snapshots: Vec::new(alloc),
            next_id: 1,
        }
    }

    /// Opens a snapshot of the text of these spans, and returns its id. Fails with `Limit` if 1,000 snapshots are open or the id would
    /// exceed 2^63 - 1, and with `Memory` if memory is short. On an error the shelf is unchanged.
    pub fn take(&mut self, spans: Vec<ChunkSpan>) -> Result<u64, ShelfError>
        requires { All IsSmall spans.items }
        ensures change { TakesText result self.old self.new spans.items }
        ensures inside { (buffers : List (List ℕ)) → LieIn buffers self.old
            → All (LiesIn buffers) spans.items → LieIn buffers self.new }
        ensures err { OnErr result (self.new ≡ self.old) }
    {
        if self.is_full() {
            return Err(ShelfError::Limit);
        }
        let id = self.next_id;
        let kept = Kept::of_spans(id, spans);
        self.snapshots.push(kept).map_err(|_| ShelfError::Memory)?;
        self.next_id = id + 1;
        Ok(id)
    }

    /// Returns whether no snapshot is open.
    pub fn is_empty(&self) -> bool
        ensures { result ≡ (length self.now.snapshots == 0) }
    {
        self.snapshots.is_empty()
    }

    fn is_full(&self) -> bool
        ensures { result ≡ (nat_le most_snapshots (length self.now.snapshots)
            || nat_lt greatest_snapshot self.now.next_id) }
    {
        self.snapshots.len() as u64 >= MOST_SNAPSHOTS || self.next_id > GREATEST_NUMBER
    }

    /// Appends the next `count` unread units, or all if fewer are left; one fewer if the last one would be a high surrogate that is
    /// followed by its low one. The shelf is unchanged. Fails with `Unknown` if no snapshot of this id is open, then with `Range` if
    /// `count` is below 2, then with `Memory` if memory is short. On an error `out` is unchanged.
    pub fn peek(
        &self,
        id: u64,
        count: u64,
        chunks: &Chunks,
        out: &mut Vec<u16>,
    ) -> Result<(), ShelfError>
        requires { LieIn chunks.now.buffers self.now }
        ensures { Peeks result out.old.items out.new.items
            (flat_peek (shown chunks.now.buffers self.now) id count) }
    {
        let Some(kept) = self.snapshot(id) else {
            return Err(ShelfError::Unknown);
        };
        if count < LEAST_READ {
            return Err(ShelfError::Range);
        }
        push_front(kept.rest(), count, chunks, out).map_err(|_| ShelfError::Memory)?;
        Ok(())
    }

    fn snapshot(&self, id: u64) -> Option<&Kept>
        ensures { option_copied result ≡ find (spells id) self.now.snapshots }
    {
        let place = self.place(id)?;
        Some(&self.snapshots[place])
    }

    // Finds the index of the snapshot of this id by binary search, since ids rise.
    fn place(&self, id: u64) -> Option<usize>
        ensures { IsPlaceOf id self.now.snapshots result }
    {
        self.snapshots
            .binary_search_by_key(&id, |kept| kept.id())
            .ok()
    }

    /// Skips the next `n` unread units of the snapshot, or all if fewer are left. Does nothing if no snapshot of this id is open.
    pub fn skip(&mut self, id: u64, n: u64)
        ensures change { (buffers : List (List ℕ)) → LieIn buffers self.old
            → shown buffers self.new ≡ flat_skip (shown buffers self.old) id n }
        ensures inside { (buffers : List (List ℕ)) → LieIn buffers self.old
            → LieIn buffers self.new }
    {
        let Some(place) = self.place(id) else {
            return;
        };
        self.snapshots[place].skip(n);
    }

    /// Closes the snapshot. Its id is not used again. Fails with `Unknown` if no snapshot of this id is open. Allocates nothing.
    pub fn close(&mut self, id: u64) -> Result<(), ShelfError>
        ensures change { (buffers : List (List ℕ))
            → Closes result (shown buffers self.old) (shown buffers self.new)
            (flat_close (shown buffers self.old) id) }
        ensures inside { (buffers : List (List ℕ)) → LieIn buffers self.old
            → LieIn buffers self.new }
        ensures err { OnErr result (self.new ≡ self.old) }
        ensures sure { ¬ (result ≡ Err ShelfError.Memory) }
    {
        let Some(place) = self.place(id) else {
            return Err(ShelfError::Unknown);
        };
        self.snapshots.remove(place);
        Ok(())
    }
}
