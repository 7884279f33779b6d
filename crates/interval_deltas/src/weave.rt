//! What a tree stores of its decorations, and how it is searched.
ghost use Rattle.std.specs.Prelude.{◌≡◌};
ghost use Rattle.interval_deltas.specs.Weave.{placed, place_turn, reaching_turn};

use crate::ends::{End, Greatest};
use decoration_rules::Sticky;
use rb_rules::{Turn, Weave};
use std::cmp::Ordering;

/// The part of a decoration that no edit changes.
#[derive(Clone, Copy)]
pub struct Label {
    pub id: u64,
    pub owner: u64,
    pub sticky: Sticky,
    pub collapse: bool,
}

/// A decoration as a tree stores it. In a node, its offsets lack the shifts on the path to the node.
#[derive(Clone, Copy)]
pub struct KeptMark {
    pub start: i64,
    pub end: End,
    pub label: Label,
}

/// A place in the order of decorations.
#[derive(Clone, Copy)]
pub struct Place {
    pub start: i64,
    pub end: i64,
    pub id: u64,
}

/// The target of a search.
#[derive(Clone, Copy)]
pub enum Sought {
    /// The decoration at this place.
    Place(Place),
    /// The first decoration that ends at this offset or later.
    Reaching(i64),
}

/// The weave of decorations: a shift moves their starts and ends, and the sum is their greatest end.
pub struct Marks;

/// The exclusive upper bound of the offsets of decorations, and of the sum of the shifts on a path.
pub(crate) const LIMIT: i64 = 1 << 62;

/// Compares a decoration with a place: by start, then by end, then by id.
pub(crate) fn placed(mark: &KeptMark, place: &Place) -> Ordering
    ensures { result ≡ placed mark.now place.now }
{
    mark.start
        .cmp(&place.start)
        .then(mark.end.offset().cmp(&place.end))
        .then(mark.label.id.cmp(&place.id))
}

/// Returns the turn that a search for a place takes at a decoration.
fn place_turn(place: &Place, mark: &KeptMark) -> Turn
    ensures { result ≡ place_turn place.now mark.now }
{
    match placed(mark, place) {
        Ordering::Less => Turn::Right,
        Ordering::Equal => Turn::Stop,
        Ordering::Greater => Turn::Left,
    }
}

/// Returns the turn that a search for the first decoration that ends at `offset` or later takes at a decoration.
/// `before` is the greatest end before that decoration, `end` its own end.
fn reaching_turn(offset: i64, before: Greatest, end: i64) -> Turn
    ensures { result ≡ reaching_turn offset before end }
{
    if before.reaches(offset) {
        Turn::Left
    } else if offset <= end {
        Turn::Stop
    } else {
        Turn::Right
    }
}

impl Weave for Marks {
    ghost use Rattle.interval_deltas.specs.Weave.{marks, mark_turn, is_mark, is_low, is_end, is_near, is_within, wider};
    ghost use Rattle.interval_deltas.specs.Laws.{lawful, sums, parts, thins, within_near, starts_near, starts_within, widens, fits};

    type Item = KeptMark;

    type Sum = Greatest;

    type By = i64;

    type Key = Sought;

    ghost weaving = { marks };

    ghost is_item = { is_mark };

    ghost is_value = { is_low };

    ghost is_sum = { is_end };

    ghost is_near = { is_near };

    ghost turn = { mark_turn };

    ghost within = { is_within };

    ghost widened = { wider };

    fn none() -> Greatest {
        Greatest::none()
    }

    fn one(item: KeptMark) -> Greatest {
        Greatest::of(item.end)
    }

    fn join(first: Greatest, second: Greatest) -> Greatest {
        first.later(second)
    }

    fn same(first: Greatest, second: Greatest) -> bool {
        first.is(second)
    }

    fn still() -> i64 {
        0
    }

    fn only_shift() -> Option<i64> {
        None
    }

    fn plus(first: i64, second: i64) -> i64 {
        first + second
    }

    fn minus(whole: i64, part: i64) -> i64 {
        whole - part
    }

    fn shift(by: i64, item: KeptMark) -> KeptMark {
        KeptMark {
            start: by + item.start,
            end: End::of(by + item.end.offset()),
            label: item.label,
        }
    }

    fn shift_sum(by: i64, sum: Greatest) -> Greatest {
        match sum.end() {
            None => sum,
            Some(end) => Greatest::of(End::of(by + end)),
        }
    }

    fn widen(reach: i64, by: i64) -> Option<i64> {
        if reach < 0 || reach >= LIMIT || by <= -LIMIT || by >= LIMIT {
            return None;
        }
        let wide = reach + by.abs();
        if wide < LIMIT { Some(wide) } else { None }
    }

    fn turn_at(key: Sought, before: Greatest, item: KeptMark) -> Turn {
        match key {
            Sought::Place(place) => place_turn(&place, &item),
            Sought::Reaching(offset) => reaching_turn(offset, before, item.end.offset()),
        }
    }

    ghost laws = { lawful };

    ghost sums = { sums };

    ghost starts_near = { starts_near };

    ghost within_near = { within_near };

    ghost starts_within = { starts_within };

    ghost widens = { widens };

    ghost fits = { fits };

    ghost parts = { parts };

    ghost thins = { thins };
}
