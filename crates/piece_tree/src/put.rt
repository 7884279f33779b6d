//! Replaces pieces of a run by others.
ghost use Rattle.std.specs.Prelude.{◌≡◌, ◌+◌, ◌-◌, ◌<◌, ◌≤◌, ◌^◌, ◌∷◌, [], length};
ghost use Rattle.std.specs.List.{All};
ghost use Rattle.std.specs.Option.{ForSome};
ghost use Rattle.rb_arena.specs.RbTree.{IsItem, AtItem};
ghost use Rattle.piece_tree.specs.Pieces.{listed, span_of, unit_count, IsPieceOf, IsFound};
ghost use Rattle.piece_tree.specs.Searches.{few_breaks};
ghost use Rattle.piece_tree.specs.Runs.{most_pieces, entries_of, pieces_in, IsRun, listed_in};
ghost use Rattle.piece_tree.specs.Splicing.{joined, first_put, CanPut, HasPut, HasJoined, HasPiecesBehind, LosesBehind, CanKeep, HasKept};

use crate::beside::found;
use crate::left::{Left, left_of};
use crate::piece::{Found, Piece, PieceId, PieceSum, goes_on, piece_of, prolonged};
use crate::run::{MOST_PIECES, Run};
use crate::runs::RunTree;
use chunk_buffers::Chunks;
use raw_arena::NodeId;

/// A run of at most this many pieces is joined with the next one if that has at most this many too.
const FEW_PIECES: usize = MOST_PIECES / 4;

/// Returns the rests on both sides with the piece between them. If the piece starts where the left rest ends in the same buffer, the two
/// become one piece.
pub(crate) fn joined(
    left: Option<Piece>,
    piece: Option<Piece>,
    right: Option<Piece>,
    chunks: &Chunks,
) -> Run
    requires counted_left { ForSome left (IsPieceOf chunks.now.buffers) }
    requires counted { ForSome piece (IsPieceOf chunks.now.buffers) }
    requires counted_right { ForSome right (IsPieceOf chunks.now.buffers) }
    ensures run { IsRun result }
    ensures pieces { listed_in result ≡ joined chunks.now.buffers left (span_of piece) right }
    ensures few { length (listed_in result) ≤ 3 }
{
    let mut all = Run::new();
    match (left, piece) {
        (Some(own), Some(piece)) if goes_on(own.span, piece.span) => {
            let whole = piece_of(chunks, prolonged(own.span, piece.span));
            all.push_some(Some(whole));
        }
        _ => {
            all.push_some(left);
            all.push_some(piece);
        }
    }
    all.push_some(right);
    all
}

/// Replaces the pieces of a run from the place of `id` to `to` by others, and returns the first of these, if any. A run that gets too long
/// is split behind the place, so that the pieces before it keep their names.
pub(crate) fn put(
    runs: &mut RunTree,
    id: PieceId,
    to: usize,
    with: &[Piece],
) -> Option<(PieceId, Piece)>
    requires can { CanPut runs.old.runs id to with.now }
    requires few { length with.now ≤ 3 }
    requires counted { All few_breaks with.now }
    requires room { 0 < runs.old.spare }
    ensures put { HasPut runs.old.runs runs.new.runs id to with.now result }
    ensures room { runs.old.spare ≤ runs.new.spare + 1 }
{
    let place = id.place as usize;
    let count = runs.get(id.run).len();
    let all = place + with.len() + (count - to);
    if all == 0 {
        runs.remove(id.run);
        return None;
    }
    if MOST_PIECES < all {
        return put_and_split(runs, id, to, with);
    }
    runs.replace_in(id.run, place, to, with);
    join_next(runs, id.run);
    first_put(id, with)
}

/// Does the same for a run that gets too long: the pieces from `to` on go into a new run, and so do the new pieces if they do not fit.
fn put_and_split(
    runs: &mut RunTree,
    id: PieceId,
    to: usize,
    with: &[Piece],
) -> Option<(PieceId, Piece)>
    requires can { CanPut runs.old.runs id to with.now }
    requires few { length with.now ≤ 3 }
    requires counted { All few_breaks with.now }
    requires long { AtItem runs.old.runs id.run (λ us x vs.
        most_pieces < id.place + length with.now + (length x - to)) }
    requires room { 0 < runs.old.spare }
    ensures put { HasPut runs.old.runs runs.new.runs id to with.now result }
    ensures room { runs.old.spare ≤ runs.new.spare + 1 }
{
    let place = id.place as usize;
    let count = runs.get(id.run).len();
    let behind = Run::of(&runs.get(id.run)[to..]);
    if place + with.len() <= MOST_PIECES {
        runs.replace_in(id.run, place, count, with);
        runs.insert_after(id.run, behind.pieces());
        return first_put(id, with);
    }
    let mut more = Run::of(with);
    more.replace(with.len(), with.len(), behind.pieces());
    runs.replace_in(id.run, place, count, &[]);
    let other = runs.insert_after(id.run, more.pieces());
    first_put(
        PieceId {
            run: other,
            place: 0,
        },
        with,
    )
}

/// Returns the first of the pieces that were put at `id`, with its name; None if there are none.
fn first_put(id: PieceId, with: &[Piece]) -> Option<(PieceId, Piece)>
    ensures { result ≡ first_put id with.now }
{
    Some((id, *with.first()?))
}

/// Joins a run with the next one if both are small.
fn join_next(runs: &mut RunTree, id: NodeId)
    requires named { IsItem runs.old.runs id }
    requires small { unit_count (pieces_in runs.old.runs) < 2 ^ 62 }
    ensures joined { HasJoined runs.old.runs runs.new.runs id }
    ensures room { runs.old.spare ≤ runs.new.spare }
{
    let end = runs.get(id).len();
    if FEW_PIECES < end {
        return;
    }
    let Some(next) = runs.next(id) else {
        return;
    };
    let more = Run::of(runs.get(next));
    if more.pieces().len() <= FEW_PIECES {
        runs.remove(next);
        runs.replace_in(id, end, end, more.pieces());
    }
}

/// Removes `units` units right after a run. Empty pieces before the first unit that stays are removed too.
pub(crate) fn remove_units(runs: &mut RunTree, after: NodeId, units: u64, chunks: &Chunks)
    requires pieces { HasPiecesBehind chunks.now.buffers runs.old.runs after }
    requires small { unit_count (pieces_in runs.old.runs) < 2 ^ 62 }
    ensures left { AtItem runs.old.runs after (λ us x vs.
        LosesBehind chunks.now.buffers units after us x vs runs.new.runs) }
    ensures room { runs.old.spare ≤ runs.new.spare }
{
    let mut missing = units;
    while let Some(id) = runs.next(after) {
        let pieces = runs.get(id);
        let left = left_of(pieces, 0, missing, chunks);
        if left.has_any(pieces.len()) {
            keep_left(runs, id, &left);
            return;
        }
        missing = left.missing;
        runs.remove(id);
    }
}

/// Replaces the pieces of a run by what is left of them, which is at least one piece.
fn keep_left(runs: &mut RunTree, id: NodeId, left: &Left)
    requires can { CanKeep runs.old.runs id left.now }
    requires counted { ForSome left.now.rest few_breaks }
    requires small { unit_count (pieces_in runs.old.runs) < 2 ^ 62 }
    ensures kept { HasKept runs.old.runs runs.new.runs id left.now }
    ensures spare { runs.new.spare ≡ runs.old.spare }
{
    if left.from == 0 {
        return;
    }
    let mut with = Run::new();
    with.push_some(left.rest);
    runs.replace_in(id, 0, left.from, with.pieces());
}

/// Puts a piece into a text without pieces, and returns it as looked up.
pub(crate) fn put_only(runs: &mut RunTree, piece: Piece) -> Found
    requires empty { pieces_in runs.old.runs ≡ [] }
    requires room { 0 < runs.old.spare }
    requires few { few_breaks piece }
    ensures told { IsFound (entries_of runs.new.runs) result }
    ensures items { pieces_in runs.new.runs ≡ piece ∷ [] }
    ensures first { result.before.units ≡ 0 }
    ensures room { runs.old.spare ≤ runs.new.spare + 1 }
{
    let none = PieceSum {
        units: 0,
        breaks: 0,
    };
    let run = runs.insert_first(&[piece]);
    found((PieceId { run, place: 0 }, piece), none)
}
