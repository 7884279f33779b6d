//! Finds a unit or a break in the pieces of a run.
ghost use Rattle.std.specs.Prelude.{◌≡◌, ◌+◌, ◌-◌, ◌<◌, ◌≤◌, ◌^◌, length, nat_lt};
ghost use Rattle.piece_tree.specs.Runs.{most_pieces, CanFindIn, IsFoundIn};
ghost use Rattle.piece_tree.specs.Searches.{number_of, counted};

use crate::beside::found;
use crate::piece::{Found, Piece, PieceId, PieceSum};
use crate::weave::Sought;
use raw_arena::NodeId;
use steps::Steps;

/// Returns the sum with one more piece.
fn with_piece(sum: PieceSum, piece: &Piece) -> PieceSum
    requires units { sum.units < 2 ^ 62 }
    requires breaks { sum.breaks < 2 ^ 62 }
    ensures units { result.units ≡ sum.units + piece.now.span.units }
    ensures breaks { result.breaks ≡ sum.breaks + piece.now.breaks }
{
    PieceSum {
        units: sum.units + piece.span.units as u64,
        breaks: sum.breaks + piece.breaks as u64,
    }
}

/// Returns whether pieces with this sum contain the target.
fn is_within(sought: Sought, sum: PieceSum) -> bool
    ensures { result ≡ nat_lt (number_of sought) (counted sought sum) }
{
    match sought {
        Sought::Offset(offset) => offset < sum.units,
        Sought::Break(number) => number < sum.breaks,
    }
}

/// Finds the piece that contains the target, which must be in the run. Each piece that is read is a step: at most 16.
pub(crate) fn find_in<L>(
    run: NodeId,
    pieces: &[Piece],
    before: PieceSum,
    sought: Sought,
    steps: &mut Steps<L>,
) -> Found
    requires few { length pieces.now ≤ most_pieces }
    requires there { CanFindIn pieces.now before sought }
    ensures found { IsFoundIn run pieces.now before sought result }
    ensures cost { steps.new - steps.old ≤ length pieces.now }
{
    let mut sum = before;
    let mut place = 0;
    for piece in pieces {
        steps.tick();
        let behind = with_piece(sum, piece);
        if is_within(sought, behind) {
            return found((PieceId { run, place }, *piece), sum);
        }
        sum = behind;
        place += 1;
    }
    unreachable!()
}
