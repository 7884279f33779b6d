//! Remembered pieces, which were looked up before.

ghost use Rattle.std.specs.Prelude.{◌≡◌, ◌-◌, ◌<◌, ◌≤◌, ◌++◌, ◌∷◌, List, [], length, slice_index_or, IfSome, IsTrue};
ghost use Rattle.std.specs.List.{All};
ghost use Rattle.std.specs.List.Sorted.{IsNonDecreasingBy};
ghost use Rattle.piece_tree.specs.Pieces.{Entry, IsFound};
ghost use Rattle.text_buffer.specs.LookUps.{Has};
ghost use Rattle.text_buffer.specs.Remembering.{end_of, KeepsBefore};

use crate::look_up::Sought;
use piece_tree::Found;
use std::alloc::{AllocError, Global};
use std::marker::Model;

/// Forgetting all frees memory with room for more pieces than this.
const MOST_ROOM: usize = 1024;

/// At most this many pieces are remembered.
const MOST_KEPT: usize = 1 << 16;

/// Of the pieces that are not sorted yet, at most this many of the last are tried.
const MOST_ASKED: usize = 16;

/// Looked-up pieces of one text. The first ones, the settled, are in the order of the text: their ends never decrease. The later ones are
/// in the order in which they were added.
#[derive(Drop)]
pub(crate) struct Remembered {
    pieces: Vec<Found>,
    settled: usize,
    /// Whether all are left over from earlier edits: none was added since the last edit.
    are_left: bool,
}

impl Model for Remembered {
    ghost use Rattle.std.specs.Prelude.{List, ◌≤◌, length, take};
    ghost use Rattle.std.specs.List.Sorted.{IsNonDecreasingBy};
    ghost use Rattle.piece_tree.specs.declared.piece.Found.{Found};
    ghost use Rattle.text_buffer.specs.Remembering.{end_of};

    ghost Value = { List Found };

    ghost view = { λ r. r.pieces.items };

    ghost invariant = { λ r. (r.settled ≤ length r.pieces.items)
        × IsNonDecreasingBy end_of (take r.settled r.pieces.items) };
}

impl Remembered {
    pub(crate) fn new(alloc: Global) -> Remembered
        ensures { result ≡ [] }
    {
        Remembered {
            pieces: Vec::new(alloc),
            settled: 0,
            are_left: true,
        }
    }

    /// Forgets all if they are left over from earlier edits and more than `most`.
    pub(crate) fn forget_left(&mut self, most: usize)
        ensures { (entries : List Entry) → All (IsFound entries) self.old
            → All (IsFound entries) self.new }
    {
        if self.are_left && self.pieces.len() > most {
            self.clear();
        }
    }

    /// Reserves room for `count` more. Fails if memory is short.
    pub(crate) fn make_room(&mut self, count: usize) -> Result<(), AllocError>
        ensures { self.new ≡ self.old }
    {
        self.pieces.reserve(count)
    }

    // Forgets all pieces.
    fn clear(&mut self)
        ensures { self.new ≡ [] }
    {
        self.settled = 0;
        self.pieces.clear();
        if self.pieces.capacity() > MOST_ROOM {
            self.pieces.shrink_to_fit();
        }
    }

    /// Returns the last piece.
    pub(crate) fn last(&self) -> Option<Found>
        ensures { (entries : List Entry) → All (IsFound entries) self.now
            → IfSome result (IsFound entries) }
    {
        self.pieces.last().copied()
    }

    /// Returns a piece that has what is sought, if it finds one.
    pub(crate) fn find(&self, sought: Sought) -> Option<Found>
        ensures { (entries : List Entry) → All (IsFound entries) self.now
            → IfSome result (λ found. Has entries found sought) }
    {
        let starting = self.pieces[..self.settled].partition_point(|piece| !sought.is_before(
            piece,
        ));
        match self.pieces[..starting].last() {
            Some(found) if sought.is_in(found) => Some(*found),
            _ => one_with(self.latest(), sought),
        }
    }

    // Returns the last pieces that are not settled, at most `MOST_ASKED`.
    fn latest(&self) -> &[Found]
        ensures { (entries : List Entry) → All (IsFound entries) self.now
            → All (IsFound entries) result.now }
    {
        let from = self.pieces.len().saturating_sub(MOST_ASKED);
        &self.pieces[self.settled.max(from)..]
    }

    /// Adds a piece, in any order. Does nothing if memory is short.
    pub(crate) fn add(&mut self, found: &Found)
        ensures { (entries : List Entry) → All (IsFound entries) self.old
            → IsFound entries found.now → All (IsFound entries) self.new }
    {
        if self.pieces.len() >= MOST_KEPT {
            self.clear();
        }
        self.push(found);
        self.are_left = false;
    }

    /// Adds a piece, unless it is remembered already.
    pub(crate) fn note(&mut self, found: &Found)
        ensures { (entries : List Entry) → All (IsFound entries) self.old
            → IsFound entries found.now → All (IsFound entries) self.new }
    {
        if self.find(Sought::Offset(found.before.units)).is_none() {
            self.add(found);
        }
    }

    /// Sorts all pieces in the order of the text.
    pub(crate) fn settle(&mut self)
        ensures { (entries : List Entry) → All (IsFound entries) self.old
            → All (IsFound entries) self.new }
    {
        if self.settled < self.pieces.len() {
            self.pieces.sort_unstable_by_key(|piece| end_of(piece));
            self.settled = self.pieces.len();
        }
    }

    /// Forgets the pieces that end at or after the offset, from which on the text has changed, and those that are not settled. Adds the
    /// piece `told`, which is in the text now, if there is room for it.
    pub(crate) fn change_from(&mut self, offset: u64, told: Option<Found>)
        ensures { (old new : List Entry) → All (IsFound old) self.old → KeepsBefore old new offset
            → IfSome told (IsFound new) → All (IsFound new) self.new }
    {
        self.forget_from(offset);
        self.are_left = true;
        if let Some(found) = told {
            self.push_in_room(&found);
        }
    }

    fn forget_from(&mut self, offset: u64)
        ensures { (old new : List Entry) → All (IsFound old) self.old → KeepsBefore old new offset
            → All (IsFound new) self.new }
    {
        self.settled = self.pieces[..self.settled].partition_point(|piece| end_of(piece)
            < u128::from(offset));
        self.pieces.truncate(self.settled);
    }

    // Adds a piece if there is room for it.
    fn push_in_room(&mut self, found: &Found)
        ensures { (entries : List Entry) → All (IsFound entries) self.old
            → IsFound entries found.now → All (IsFound entries) self.new }
    {
        if self.pieces.len() < self.pieces.capacity() {
            self.push(found);
        }
    }

    // Adds a piece. Does nothing if memory is short.
    fn push(&mut self, found: &Found)
        ensures { (entries : List Entry) → All (IsFound entries) self.old
            → IsFound entries found.now → All (IsFound entries) self.new }
    {
        let goes_on = self.goes_on_with(found);
        if self.pieces.push(*found).is_ok() && goes_on {
            self.settled = self.pieces.len();
        }
    }

    // Returns whether all pieces are settled and this one comes after them.
    fn goes_on_with(&self, found: &Found) -> bool
        ensures { IsTrue result → IsNonDecreasingBy end_of (self.now ++ found.now ∷ []) }
    {
        if self.settled < self.pieces.len() {
            return false;
        }
        end_by(&self.pieces, found.before.units)
    }
}

// Returns one of the pieces that has what is sought, if any.
fn one_with(pieces: &[Found], sought: Sought) -> Option<Found>
    ensures { (entries : List Entry) → All (IsFound entries) pieces.now
        → IfSome result (λ found. Has entries found sought) }
{
    for piece in pieces {
        if sought.is_in(piece) {
            return Some(*piece);
        }
    }
    None
}

// Returns whether the last piece ends at or before the offset.
fn end_by(pieces: &[Found], offset: u64) -> bool
    ensures { IsTrue result → (d : Found) → 0 < length pieces.now
        → end_of (slice_index_or pieces.now (length pieces.now - 1) d) ≤ offset }
{
    let Some(last) = pieces.last() else {
        return true;
    };
    end_of(last) <= u128::from(offset)
}

// Returns where the piece ends.
fn end_of(piece: &Found) -> u128
    ensures { result ≡ end_of piece.now }
{
    u128::from(piece.before.units) + u128::from(piece.span.units)
}
