//! Moves the decorations that an edit touches, each in its node.
ghost use Rattle.std.specs.Prelude.{◌≡◌, ◌≤◌, false, true};
ghost use Rattle.decoration_rules.specs.Marks.{stands_before};
ghost use Rattle.interval_deltas.specs.Weave.{is_mark};
ghost use Rattle.interval_deltas.specs.Kept.{IsPlace, as_mark, mark_at, capped};
ghost use Rattle.interval_deltas.specs.Mover.{met, starting};

use crate::ends::Greatest;
use crate::kept::capped;
use crate::weave::{KeptMark, Marks, Place, placed};
use decoration_rules::Edit;
use rb_rules::Rewriting;
use std::marker::Model;

/// Moves the decorations that an edit touches, and records whether one of them comes to lie before an earlier one.
#[derive(Drop)]
pub(crate) struct Mover {
    edit: Edit,
    /// The greatest place of the decorations moved so far.
    greatest: Place,
    in_order: bool,
    /// Whether a decoration was met that starts after the edit.
    past: bool,
}

impl Model for Mover {
    ghost use Rattle.std.specs.Prelude.{◌≤◌};
    ghost use Rattle.interval_deltas.specs.Kept.{IsPlace};
    ghost use Rattle.interval_deltas.specs.Mover.{Moving};

    ghost Value = { Moving };

    ghost view = { λ m. record { edit = m.edit; greatest = m.greatest; in_order = m.in_order; past = m.past } };

    ghost invariant = { λ m. (m.edit.start ≤ m.edit.end) × IsPlace m.greatest };
}

impl Mover {
    pub(crate) fn new(edit: &Edit) -> Mover
        requires { edit.now.start ≤ edit.now.end }
        ensures { result ≡ starting edit.now }
    {
        Mover {
            edit: *edit,
            greatest: Place {
                start: 0,
                end: 0,
                id: 0,
            },
            in_order: true,
            past: false,
        }
    }

    /// Returns whether no moved decoration came to lie before an earlier one.
    pub(crate) fn in_order(&self) -> bool
        ensures { result ≡ self.now.in_order }
    {
        self.in_order
    }

    /// Records a moved decoration.
    fn meet(&mut self, mark: &KeptMark)
        requires { is_mark mark.now }
        ensures { self.new ≡ met self.old mark.now }
    {
        if stands_below(mark, &self.greatest) {
            self.in_order = false;
        } else {
            self.greatest = mark.place();
        }
    }
}

/// Returns whether a decoration is before a place.
#[tactic(auto, using(crate::proofs::Searches::order_is))]
pub(crate) fn stands_below(mark: &KeptMark, place: &Place) -> bool
    requires value { is_mark mark.now }
    requires place { IsPlace place.now }
    ensures { result ≡ stands_before (as_mark mark.now) (mark_at place.now) }
{
    placed(mark, place).is_lt()
}

impl Rewriting<Marks> for Mover {
    ghost use Rattle.interval_deltas.specs.Mover.{rewritten_by, onward_of};

    ghost rewritten = { rewritten_by };

    ghost onward = { onward_of };

    fn skips(&self, sum: Greatest) -> bool {
        self.past || !sum.reaches(capped(self.edit.start))
    }

    fn rewrite(&mut self, item: KeptMark) -> KeptMark {
        let end = item.end.offset();
        if self.past || end < capped(self.edit.start) {
            return item;
        }
        if capped(self.edit.end) < item.start {
            self.past = true;
            return item;
        }
        let moved = item.moved(&self.edit);
        self.meet(&moved);
        moved
    }
}
