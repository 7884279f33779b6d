//! Carries decorations along with their lines, each in its node.
ghost use Rattle.std.specs.Prelude.{◌≡◌};
ghost use Rattle.decoration_rules.specs.Lines.{AreLineMoves};
ghost use Rattle.interval_deltas.specs.Weave.{is_mark};
ghost use Rattle.interval_deltas.specs.Kept.{IsPlace};
ghost use Rattle.interval_deltas.specs.Carrier.{met, setting_out};

use crate::ends::Greatest;
use crate::lines::Lines;
use crate::mover::stands_below;
use crate::weave::{KeptMark, LIMIT, Marks, Place};
use decoration_rules::LineMove;
use rb_rules::Rewriting;
use std::marker::Model;

/// Carries decorations along with their lines, and records the starts of those that come to lie before an earlier one.
#[derive(Drop)]
pub(crate) struct Carrier<'a> {
    lines: Lines<'a>,
    /// The greatest place of the decorations carried so far.
    greatest: Place,
    /// The least and the greatest start of the decorations that came to lie before an earlier one; `LIMIT` and 0 if
    /// there is none so far.
    first: i64,
    last: i64,
}

impl<'a> Model for Carrier<'a> {
    ghost use Rattle.interval_deltas.specs.Kept.{IsPlace};
    ghost use Rattle.interval_deltas.specs.Carrier.{Carried, IsOffset};

    ghost Value = { Carried };

    ghost view = { λ c. record { lines = c.lines; greatest = c.greatest; first = c.first; last = c.last } };

    ghost invariant = { λ c. IsPlace c.greatest × IsOffset c.first × IsOffset c.last };
}

impl<'a> Carrier<'a> {
    pub(crate) fn new(moves: &'a [LineMove]) -> Carrier<'a>
        requires { AreLineMoves moves.now }
        ensures { result ≡ setting_out moves.now }
    {
        Carrier {
            lines: Lines::new(moves),
            greatest: Place {
                start: 0,
                end: 0,
                id: 0,
            },
            first: LIMIT,
            last: 0,
        }
    }

    /// Returns the least and the greatest start of the decorations that came to lie before an earlier one; `LIMIT` and
    /// 0 if there is none.
    pub(crate) fn crossed(&self) -> (i64, i64)
        ensures first { result.0 ≡ self.now.first }
        ensures last { result.1 ≡ self.now.last }
    {
        (self.first, self.last)
    }

    /// Records a carried decoration.
    fn meet(&mut self, mark: &KeptMark)
        requires { is_mark mark.now }
        ensures { self.new ≡ met self.old mark.now }
    {
        if stands_below(mark, &self.greatest) {
            self.first = self.first.min(mark.start);
            self.last = self.last.max(mark.start);
        } else {
            self.greatest = mark.place();
        }
    }
}

impl<'a> Rewriting<Marks> for Carrier<'a> {
    ghost use Rattle.interval_deltas.specs.Carrier.{carried_by, onward_of};

    ghost rewritten = { carried_by };

    ghost onward = { onward_of };

    fn skips(&self, _sum: Greatest) -> bool {
        false
    }

    fn rewrite(&mut self, item: KeptMark) -> KeptMark {
        let mut mark = item.mark();
        mark.span = self.lines.carried(mark.span);
        let carried = KeptMark::of(&mark);
        self.meet(&carried);
        carried
    }
}
