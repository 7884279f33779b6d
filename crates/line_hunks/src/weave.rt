//! What a tree stores of runs, and how it is searched.

ghost use Rattle.std.specs.Prelude.{◌≡◌, ⊤, Some, refl};
ghost use Rattle.line_hunks.specs.Weave.{run_turn};

use crate::run::Run;
use rb_rules::{Turn, Weave};

/// The weave of runs: the sum is their number of lines. The key of a search is the number of lines before the sought
/// line.
pub(crate) struct RunWeave;

impl Weave for RunWeave {
    ghost use Rattle.line_hunks.specs.Weave.{adding, run_turn, has_line, is_few};
    ghost use Rattle.line_hunks.specs.Adding.{lawful, sums, parts, thins};

    type Item = Run;

    type Sum = u64;

    type By = ();

    type Key = u64;

    ghost weaving = { adding };

    ghost is_item = { has_line };

    ghost is_value = { is_few };

    ghost is_sum = { λ _. ⊤ };

    ghost is_near = { λ _. ⊤ };

    ghost within = { λ _ _. ⊤ };

    ghost widened = { λ _ _. Some tt };

    ghost turn = { run_turn };

    fn none() -> u64 {
        0
    }

    fn one(item: Run) -> u64 {
        item.lines
    }

    fn join(first: u64, second: u64) -> u64 {
        first + second
    }

    fn same(first: u64, second: u64) -> bool {
        first == second
    }

    fn still() {}

    fn only_shift() -> Option<()> {
        Some(())
    }

    fn plus(first: (), second: ()) {}

    fn minus(whole: (), part: ()) {}

    fn shift(by: (), item: Run) -> Run {
        item
    }

    fn shift_sum(by: (), sum: u64) -> u64 {
        sum
    }

    fn widen(reach: (), by: ()) -> Option<()> {
        Some(())
    }

    fn turn_at(key: u64, before: u64, item: Run) -> Turn {
        if key < before {
            Turn::Left
        } else if key - before < item.lines {
            Turn::Stop
        } else {
            Turn::Right
        }
    }

    ghost laws = { lawful };

    ghost sums = { sums };

    ghost starts_near = { tt };

    ghost within_near = { λ reach by h. tt };

    ghost starts_within = { tt };

    ghost widens = { λ reach by wider b e h. (tt, tt) };

    ghost fits = { λ by x h k. refl };

    ghost parts = { parts };

    ghost thins = { thins };
}
