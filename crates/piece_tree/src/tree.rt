//! The tree of pieces, with look-ups by units and by breaks.

ghost use Rattle.std.specs.Prelude.{◌≡◌, ◌+◌, ◌-◌, ◌<◌, ◌≤◌, ◌^◌, ◌++◌, [], length, map, vec_len, vec_capacity, None, MatchOption, IfSome, IsTrue, OnOk, OnErr};
ghost use Rattle.std.specs.List.{All};
ghost use Rattle.std.specs.Option.{ForSome, ForNone, option_map};
ghost use Rattle.piece_tree.specs.Pieces.{pieces_of, unit_count, break_count_of, listed, span_of, IsPieceOf, spliced, IsFound, IsStretch, AreNeighbours, IsAmong, AtEntry, StandsAt, first_of, BeginsWith};
ghost use Rattle.piece_tree.specs.Costs.{WithinLookUps};
ghost use Rattle.piece_tree.specs.Searches.{number_of, count_of, HasNumber};

mod walking;

use crate::beside::{found, piece_after, piece_before};
use crate::edits::replace_units;
use crate::find::find_in;
use crate::piece::{Found, Piece, PieceId, PieceSum};
use crate::run::sum_of;
use crate::runs::RunTree;
use crate::weave::Sought;
use chunk_buffers::{ChunkSpan, Chunks};
use std::alloc::{AllocError, Global};
use std::marker::Model;
use steps::Steps;
pub use walking::PieceWalk;

/// The pieces of a text. Contracts see their list, and for how many splices there is room.
#[derive(Drop)]
pub struct PieceTree {
    runs: RunTree,
    /// The number of splices for which there is room.
    spare: u64,
}

impl Model for PieceTree {
    ghost use Rattle.piece_tree.specs.Pieces.{Pieces};
    ghost use Rattle.piece_tree.specs.Runs.{entries_of, pieces_in, IsTree};

    ghost Value = { Pieces };

    ghost view = { λ t. record { entries = entries_of t.runs.runs; spare = t.spare } };

    ghost invariant = { λ t. IsTree (pieces_in t.runs.runs) t.runs.spare t.spare };
}

/// All pieces of one run.
#[derive(Clone, Copy)]
pub struct Stretch {
    /// The first of them.
    pub first: Found,
    /// Their number of units.
    pub units: u64,
    /// The number of pieces.
    pub pieces: usize,
}

/// Returns a piece's name and its span.
fn with_span(at: Option<(PieceId, Piece)>) -> Option<(PieceId, ChunkSpan)>
    ensures { result ≡ option_map (λ at. (at.0, at.1.span)) at }
{
    let (id, piece) = at?;
    Some((id, piece.span))
}

impl PieceTree {
    pub fn new(alloc: Global) -> PieceTree
        ensures entries { result.entries ≡ [] }
        ensures spare { result.spare ≡ 0 }
    {
        PieceTree {
            runs: RunTree::new(alloc),
            spare: 0,
        }
    }

    /// Makes room for `edits` splices. On an error nothing changes.
    pub fn reserve(&mut self, edits: u64) -> Result<(), AllocError>
        ensures ok { OnOk result (edits ≤ self.new.spare) }
        ensures same { self.new.entries ≡ self.old.entries }
        ensures kept { self.old.spare ≤ self.new.spare }
        ensures err { OnErr result (self.new ≡ self.old) }
    {
        if edits <= self.spare {
            return Ok(());
        }
        self.runs.reserve(edits)?;
        self.spare = edits;
        Ok(())
    }

    /// Returns whether there is room for a splice.
    pub fn has_room(&self) -> bool
        ensures { IsTrue result → 0 < self.now.spare }
    {
        0 < self.spare
    }

    /// Returns the number of units of all pieces. It reads one node.
    pub fn len(&self) -> u64
        ensures sum { result ≡ unit_count (pieces_of self.now.entries) }
        ensures small { result < 2 ^ 62 }
    {
        self.runs.sum().units
    }

    /// Returns the number of breaks of all pieces. It reads one node.
    pub fn breaks(&self) -> u64
        ensures sum { result ≡ break_count_of (pieces_of self.now.entries) }
        ensures small { result < 2 ^ 62 }
    {
        self.runs.sum().breaks
    }

    /// Finds the piece that has the unit at this offset. Each visited node is a step.
    pub fn find_offset<L>(&self, offset: u64, steps: &mut Steps<L>) -> Found
        requires { offset < unit_count (pieces_of self.now.entries) }
        ensures piece { IsFound self.now.entries result }
        ensures start { result.before.units ≤ offset }
        ensures end { offset < result.before.units + result.span.units }
        ensures cost { WithinLookUps 1 (length self.now.entries) (steps.new - steps.old) }
    {
        self.look_up(Sought::Offset(offset), steps)
    }

    /// Finds the piece that has the `n`-th break. Breaks count from 1. Each visited node is a step.
    pub fn find_line<L>(&self, n: u64, steps: &mut Steps<L>) -> Found
        requires first { 0 < n }
        requires there { n ≤ break_count_of (pieces_of self.now.entries) }
        ensures piece { IsFound self.now.entries result }
        ensures start { result.before.breaks < n }
        ensures end { n ≤ result.before.breaks + result.breaks }
        ensures small { result.before.units + result.span.units < 2 ^ 62 }
        ensures cost { WithinLookUps 1 (length self.now.entries) (steps.new - steps.old) }
    {
        self.look_up(Sought::Break(n - 1), steps)
    }

    /// Finds the piece that contains the target. Each visited node is a step; the at most 16 pieces read in the found run are not counted.
    fn look_up<L>(&self, sought: Sought, steps: &mut Steps<L>) -> Found
        requires { number_of sought < count_of sought (pieces_of self.now.entries) }
        ensures piece { IsFound self.now.entries result }
        ensures has { HasNumber sought result }
        ensures small { result.before.units + result.span.units < 2 ^ 62 }
        ensures cost { WithinLookUps 1 (length self.now.entries) (steps.new - steps.old) }
    {
        let (run, before) = self.runs.find(sought, steps);
        let pieces = self.runs.get(run);
        find_in(run, pieces, before, sought, &mut Steps::new())
    }

    /// Returns the piece after the named one; None after the last.
    pub fn next(&self, id: PieceId) -> Option<(PieceId, ChunkSpan)>
        requires { IsAmong self.now.entries id }
        ensures { AtEntry self.now.entries id (λ earlier later. result ≡ first_of later) }
    {
        with_span(piece_after(&self.runs, id))
    }

    /// Returns the piece after a looked-up one, as a look-up would; None after the last. No search is made.
    pub fn next_found(&self, near: &Found) -> Option<Found>
        requires { IsFound self.now.entries near.now }
        ensures { (is : IsFound self.now.entries near.now)
            → MatchOption result (is.later ≡ []) (AreNeighbours self.now.entries near.now) }
    {
        let next = piece_after(&self.runs, near.id)?;
        let before = PieceSum {
            units: near.before.units + near.span.units as u64,
            breaks: near.before.breaks + near.breaks as u64,
        };
        Some(found(next, before))
    }

    /// Returns the piece before a looked-up one, as a look-up would; None before the first. No search is made.
    pub fn prev_found(&self, near: &Found) -> Option<Found>
        requires { IsFound self.now.entries near.now }
        ensures { (is : IsFound self.now.entries near.now)
            → MatchOption result (is.earlier ≡ []) (λ prev. AreNeighbours self.now.entries prev near.now) }
    {
        let prev = piece_before(&self.runs, near.id)?;
        let before = PieceSum {
            units: near.before.units - prev.1.span.units as u64,
            breaks: near.before.breaks - prev.1.breaks as u64,
        };
        Some(found(prev, before))
    }

    /// Returns the pieces that are in one run with a looked-up one. No search is made.
    pub fn stretch_of(&self, near: &Found) -> Stretch
        requires { IsFound self.now.entries near.now }
        ensures { IsStretch self.now.entries near.now result }
    {
        let pieces = self.runs.get(near.id.run);
        let earlier = sum_of(&pieces[..near.id.place as usize]);
        let before = PieceSum {
            units: near.before.units - earlier.units,
            breaks: near.before.breaks - earlier.breaks,
        };
        let id = PieceId {
            run: near.id.run,
            place: 0,
        };
        Stretch {
            first: found((id, pieces[0]), before),
            units: sum_of(pieces).units,
            pieces: pieces.len(),
        }
    }

    /// Replaces `deleted` units from the offset on by the piece, if one is given. `at` is the piece of the unit at the offset, as looked
    /// up; None at the end. Makes no search and allocates nothing. Returns the first of the pieces that replace those that were touched, as
    /// a look-up would return it; None only if there is none, so never if `piece` is given.
    pub fn splice(
        &mut self,
        at: Option<Found>,
        offset: u64,
        deleted: u64,
        piece: Option<Piece>,
        chunks: &Chunks,
    ) -> Option<Found>
        requires place { StandsAt self.old.entries at offset }
        requires range { offset + deleted ≤ unit_count (pieces_of self.old.entries) }
        requires room { 0 < self.old.spare }
        requires counted { ForSome piece (IsPieceOf chunks.now.buffers) }
        requires pieces { All (IsPieceOf chunks.now.buffers) (pieces_of self.old.entries) }
        requires small { unit_count (pieces_of self.old.entries) + unit_count (listed piece)
            < 2 ^ 62 + deleted }
        ensures spliced { pieces_of self.new.entries
            ≡ spliced chunks.now.buffers offset (offset + deleted) (span_of piece)
            (pieces_of self.old.entries) }
        ensures front { (found : Found) → IsFound self.old.entries found
            → found.before.units + found.span.units < offset → IsFound self.new.entries found }
        ensures told { IfSome result (IsFound self.new.entries) }
        ensures near { IfSome result (λ found. (found.before.units ≤ offset)
            × (offset ≤ found.before.units + found.span.units)) }
        ensures none { ForNone result (piece ≡ None) }
        ensures spare { self.new.spare + 1 ≡ self.old.spare }
    {
        let first = replace_units(&mut self.runs, &at, offset, deleted, piece, chunks);
        self.spare -= 1;
        first
    }

    /// Appends the spans of the pieces in their order. On an error `out` is unchanged.
    pub fn spans(&self, out: &mut Vec<ChunkSpan>) -> Result<(), AllocError>
        ensures ok { OnOk result (out.new.items
            ≡ out.old.items ++ map (λ p. p.span) (pieces_of self.now.entries)) }
        ensures err { OnErr result (out.new.items ≡ out.old.items) }
    {
        let before = out.len();
        if self.push_spans(out).is_err() {
            out.truncate(before);
            return Err(AllocError);
        }
        Ok(())
    }

    // Appends the spans of the pieces; on an error possibly some of them.
    fn push_spans(&self, out: &mut Vec<ChunkSpan>) -> Result<(), AllocError>
        ensures ok { OnOk result (out.new.items
            ≡ out.old.items ++ map (λ p. p.span) (pieces_of self.now.entries)) }
        ensures err { OnErr result (BeginsWith out.old.items out.new.items) }
    {
        let mut walk = self.runs.walk_from(self.runs.first());
        while let Some((_, pieces)) = walk.next(&mut Steps::new()) {
            push_all(pieces, out)?;
        }
        Ok(())
    }
}

// Appends the spans of these pieces; on an error possibly some of them.
fn push_all(pieces: &[Piece], out: &mut Vec<ChunkSpan>) -> Result<(), AllocError>
    ensures ok { OnOk result (out.new.items ≡ out.old.items ++ map (λ p. p.span) pieces.now) }
    ensures err { OnErr result (BeginsWith out.old.items out.new.items) }
{
    for piece in pieces {
        out.push(piece.span)?;
    }
    Ok(())
}
