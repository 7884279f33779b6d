//! The items and sums of the tree of runs, and the search in it.
ghost use Rattle.std.specs.Prelude.{◌≡◌, ⊤, Some, refl};
ghost use Rattle.piece_tree.specs.Searches.{toward};

use crate::piece::PieceSum;
use raw_arena::NodeId;
use rb_rules::{Turn, Weave};

/// The target of a search: a unit or a break, given by the number of those before it.
#[derive(Clone, Copy)]
pub enum Sought {
    /// A unit, by its offset.
    Offset(u64),
    /// A break, by its index from 0.
    Break(u64),
}

/// A run as the tree keeps it: the node of its pieces in the arena, and their sum.
#[derive(Clone, Copy)]
pub struct StoredRun {
    pub at: NodeId,
    pub sum: PieceSum,
}

/// The weave of runs: their units and breaks are added up.
pub struct RunWeave;

/// Returns the turn of a search for index `place` at an item that holds `own` indices from `before` on.
fn toward(place: u64, before: u64, own: u64) -> Turn
    ensures { result ≡ toward place before own }
{
    if place < before {
        Turn::Left
    } else if place - before < own {
        Turn::Stop
    } else {
        Turn::Right
    }
}

impl Weave for RunWeave {
    ghost use Rattle.piece_tree.specs.Searches.{adding, run_turn, has_few_breaks, few_breaks_in, is_small};
    ghost use Rattle.piece_tree.specs.Adding.{lawful, sums, parts, thins};

    type Item = StoredRun;

    type Sum = PieceSum;

    type By = ();

    type Key = Sought;

    ghost weaving = { adding };

    ghost is_item = { has_few_breaks };

    ghost is_value = { is_small };

    ghost is_sum = { few_breaks_in };

    ghost is_near = { λ _. ⊤ };

    ghost within = { λ _ _. ⊤ };

    ghost widened = { λ _ _. Some tt };

    ghost turn = { run_turn };

    fn none() -> PieceSum {
        PieceSum {
            units: 0,
            breaks: 0,
        }
    }

    fn one(item: StoredRun) -> PieceSum {
        item.sum
    }

    fn join(first: PieceSum, second: PieceSum) -> PieceSum {
        PieceSum {
            units: first.units + second.units,
            breaks: first.breaks + second.breaks,
        }
    }

    fn same(first: PieceSum, second: PieceSum) -> bool {
        first.units == second.units && first.breaks == second.breaks
    }

    fn still() {}

    fn only_shift() -> Option<()> {
        Some(())
    }

    fn plus(first: (), second: ()) {}

    fn minus(whole: (), part: ()) {}

    fn shift(by: (), item: StoredRun) -> StoredRun {
        item
    }

    fn shift_sum(by: (), sum: PieceSum) -> PieceSum {
        sum
    }

    fn widen(reach: (), by: ()) -> Option<()> {
        Some(())
    }

    fn turn_at(key: Sought, before: PieceSum, item: StoredRun) -> Turn {
        match key {
            Sought::Offset(offset) => toward(offset, before.units, item.sum.units),
            Sought::Break(number) => toward(number, before.breaks, item.sum.breaks),
        }
    }

    ghost laws = { lawful };

    ghost sums = { sums };

    ghost starts_near = { tt };

    ghost within_near = { λ reach by h. tt };

    ghost starts_within = { tt };

    ghost widens = { λ reach by wider b e h. (tt, tt) };

    ghost fits = { λ by x h k. refl };

    ghost parts = { parts };

    ghost thins = { thins };
}
