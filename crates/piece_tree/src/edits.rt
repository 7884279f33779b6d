//! The changes of a splice: units are removed and a piece is inserted.
ghost use Rattle.std.specs.Prelude.{◌≡◌, None, ◌+◌, ◌<◌, ◌≤◌, ◌^◌, IfSome};
ghost use Rattle.std.specs.List.{All};
ghost use Rattle.std.specs.Option.{ForSome, ForNone, option_map};
ghost use Rattle.piece_tree.specs.Pieces.{listed, span_of, unit_count, spliced, IsPieceOf, IsFound, StandsAt};
ghost use Rattle.piece_tree.specs.Runs.{entries_of, pieces_in, found_in};
ghost use Rattle.piece_tree.specs.Splicing.{KeepsBefore, CanTake, HasTaken};

use crate::beside::found;
use crate::cut::first_cut;
use crate::left::{Left, left_of};
use crate::piece::{Found, Piece, PieceId, PieceSum};
use crate::put::{joined, put, put_only, remove_units};
use crate::runs::RunTree;
use chunk_buffers::Chunks;

/// Replaces `deleted` units from the offset on by a piece, if one is given. `at` is the piece of the unit at the offset; None at the end.
/// Returns the first of the pieces that were put, if any.
pub(crate) fn replace_units(
    runs: &mut RunTree,
    at: &Option<Found>,
    offset: u64,
    deleted: u64,
    piece: Option<Piece>,
    chunks: &Chunks,
) -> Option<Found>
    requires place { StandsAt (entries_of runs.old.runs) at.now offset }
    requires range { offset + deleted ≤ unit_count (pieces_in runs.old.runs) }
    requires small { unit_count (pieces_in runs.old.runs) < 2 ^ 62 }
    requires room { 0 < runs.old.spare }
    requires counted { ForSome piece (IsPieceOf chunks.now.buffers) }
    requires pieces { All (IsPieceOf chunks.now.buffers) (pieces_in runs.old.runs) }
    requires fits { unit_count (pieces_in runs.old.runs) + unit_count (listed piece)
        < 2 ^ 62 + deleted }
    ensures spliced { pieces_in runs.new.runs ≡ spliced chunks.now.buffers
        offset (offset + deleted) (span_of piece) (pieces_in runs.old.runs) }
    ensures front { KeepsBefore offset (entries_of runs.old.runs) (entries_of runs.new.runs) }
    ensures told { IfSome result (IsFound (entries_of runs.new.runs)) }
    ensures near { IfSome result (λ found. (found.before.units ≤ offset)
        × (offset ≤ found.before.units + found.span.units)) }
    ensures none { ForNone result (piece ≡ None) }
    ensures room { runs.old.spare ≤ runs.new.spare + 1 }
{
    let Some(cut) = first_cut(runs, at, offset, deleted, piece, chunks) else {
        return Some(put_only(runs, piece?));
    };
    let left = take_units(runs, cut.id, cut.end, chunks);
    let with = joined(cut.left, piece, left.rest, chunks);
    let first = put(runs, cut.id, left.from, with.pieces());
    found_first(first, cut.before)
}

/// Returns what is left of the pieces of a run from a place on without the first `units` units, and removes those of these units that stand
/// behind the run.
fn take_units(runs: &mut RunTree, id: PieceId, units: u64, chunks: &Chunks) -> Left
    requires can { CanTake chunks.now.buffers runs.old.runs id }
    requires small { unit_count (pieces_in runs.old.runs) < 2 ^ 62 }
    ensures taken { HasTaken chunks.now.buffers runs.old.runs runs.new.runs id units result }
    ensures counted { ForSome result.rest (IsPieceOf chunks.now.buffers) }
    ensures room { runs.old.spare ≤ runs.new.spare }
{
    let pieces = runs.get(id.run);
    let left = left_of(pieces, id.place as usize, units, chunks);
    if left.has_any(pieces.len()) {
        return left;
    }
    remove_units(runs, id.run, left.missing, chunks);
    left
}

/// Returns the first piece that was put, if any, as a look-up would return it.
fn found_first(first: Option<(PieceId, Piece)>, before: PieceSum) -> Option<Found>
    ensures { result ≡ option_map (λ at. found_in at.0 at.1 before) first }
{
    Some(found(first?, before))
}
