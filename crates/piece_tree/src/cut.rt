//! Where a splice begins.
ghost use Rattle.std.specs.Prelude.{◌≡◌, ◌+◌, ◌-◌, ◌<◌, ◌≤◌, ◌^◌, [], MatchOption};
ghost use Rattle.std.specs.List.{All};
ghost use Rattle.piece_tree.specs.Pieces.{span_of, unit_count, IsAmong, AtEntry, IsPieceOf, StandsAt};
ghost use Rattle.piece_tree.specs.Runs.{entries_of, pieces_in};
ghost use Rattle.piece_tree.specs.Splicing.{IsJoint, IsCut, cut_behind};

use crate::beside::{last_piece, piece_before};
use crate::piece::{Found, Piece, PieceId, PieceSum, goes_on, piece_of};
use crate::runs::RunTree;
use chunk_buffers::Chunks;

/// Where a splice begins: at the start of a piece, inside it or right after it.
#[derive(Clone, Copy)]
pub(crate) struct Cut {
    pub id: PieceId,
    /// The part of the piece that stays before the new units, if any.
    pub left: Option<Piece>,
    /// The end of the deleted units, counted from the piece's start.
    pub end: u64,
    /// The sum of the pieces before this one.
    pub before: PieceSum,
}

/// Finds where a splice begins; None if there are no pieces.
pub(crate) fn first_cut(
    runs: &RunTree,
    at: &Option<Found>,
    start: u64,
    gone: u64,
    piece: Option<Piece>,
    chunks: &Chunks,
) -> Option<Cut>
    requires place { StandsAt (entries_of runs.now.runs) at.now start }
    requires range { start + gone ≤ unit_count (pieces_in runs.now.runs) }
    requires small { unit_count (pieces_in runs.now.runs) < 2 ^ 62 }
    requires pieces { All (IsPieceOf chunks.now.buffers) (pieces_in runs.now.runs) }
    ensures { MatchOption result (pieces_in runs.now.runs ≡ [])
        (IsCut chunks.now.buffers start (start + gone) (span_of piece)
        (entries_of runs.now.runs)) }
{
    let Some(found) = at else {
        return Some(cut_behind(last_piece(runs)?, runs.sum(), gone));
    };
    let own = start - found.before.units;
    if 0 < own {
        return Some(Cut {
            id: found.id,
            left: Some(piece_of(chunks, chunks.part(found.span, 0, own))),
            end: own + gone,
            before: found.before,
        });
    }
    if let Some(before) = joint(runs, found.id, piece) {
        return Some(cut_behind(before, found.before, gone));
    }
    Some(Cut {
        id: found.id,
        left: None,
        end: gone,
        before: found.before,
    })
}

/// Returns the cut right after a piece, where `deleted` units go. `sum` is the sum of the pieces up to and including it.
fn cut_behind(at: (PieceId, Piece), sum: PieceSum, deleted: u64) -> Cut
    requires units { at.1.span.units ≤ sum.units }
    requires breaks { at.1.breaks ≤ sum.breaks }
    requires few { deleted < 2 ^ 62 }
    ensures { result ≡ cut_behind at.0 at.1 sum deleted }
{
    let (id, piece) = at;
    Cut {
        id,
        left: Some(piece),
        end: piece.span.units as u64 + deleted,
        before: PieceSum {
            units: sum.units - piece.span.units as u64,
            breaks: sum.breaks - piece.breaks as u64,
        },
    }
}

/// Returns the piece right before the named one if the new piece starts where it ends in the same buffer; else None.
fn joint(runs: &RunTree, id: PieceId, piece: Option<Piece>) -> Option<(PieceId, Piece)>
    requires { IsAmong (entries_of runs.now.runs) id }
    ensures { AtEntry (entries_of runs.now.runs) id (λ earlier later.
        IsJoint earlier (span_of piece) result) }
{
    let piece = piece?;
    let before = piece_before(runs, id)?;
    if goes_on(before.1.span, piece.span) {
        Some(before)
    } else {
        None
    }
}
