//! Converts decorations between the form that contracts show and the form that a tree stores.
ghost use Rattle.std.specs.Prelude.{◌≡◌, ◌<◌, ◌≤◌};
ghost use Rattle.decoration_rules.specs.Moves.{offset_limit, moved_mark};
ghost use Rattle.interval_deltas.specs.Weave.{is_mark};
ghost use Rattle.interval_deltas.specs.Kept.{as_mark, kept_of, place_of, moved_kept, capped};

use crate::ends::End;
use crate::moves::moved;
use crate::weave::{KeptMark, LIMIT, Label, Place};
use decoration_rules::{Edit, Mark};
use text_lengths::Span;

/// Caps an offset at `LIMIT`. No decoration reaches `LIMIT`.
pub(crate) fn capped(offset: u64) -> i64
    ensures { result ≡ capped offset }
{
    offset.min(LIMIT as u64) as i64
}

impl KeptMark {
    pub(crate) fn of(mark: &Mark) -> KeptMark
        requires upright { mark.now.span.start ≤ mark.now.span.end }
        requires fits { mark.now.span.end < offset_limit }
        ensures value { is_mark result }
        ensures kept { result ≡ kept_of mark.now }
    {
        KeptMark {
            start: mark.span.start as i64,
            end: End::of(mark.span.end as i64),
            label: Label {
                id: mark.id,
                owner: mark.owner,
                sticky: mark.sticky,
                collapse: mark.collapse,
            },
        }
    }

    pub(crate) fn mark(&self) -> Mark
        requires { is_mark self.now }
        ensures { result ≡ as_mark self.now }
    {
        Mark {
            id: self.label.id,
            owner: self.label.owner,
            span: Span {
                start: self.start as u64,
                end: self.end.offset() as u64,
            },
            sticky: self.label.sticky,
            collapse: self.label.collapse,
        }
    }

    /// Returns the place of the decoration in the order.
    pub(crate) fn place(&self) -> Place
        ensures { result ≡ place_of self.now }
    {
        Place {
            start: self.start,
            end: self.end.offset(),
            id: self.label.id,
        }
    }

    /// Returns the decoration as it is after the edit.
    pub(crate) fn moved(&self, edit: &Edit) -> KeptMark
        requires value { is_mark self.now }
        requires upright { edit.now.start ≤ edit.now.end }
        requires fits { (moved_mark edit.now (as_mark self.now)).span.end < offset_limit }
        ensures value { is_mark result }
        ensures moved { result ≡ moved_kept edit.now self.now }
    {
        let mut mark = self.mark();
        mark.span = moved(mark.span, mark.sticky, mark.collapse, edit);
        KeptMark::of(&mark)
    }
}
