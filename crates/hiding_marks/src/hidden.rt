//! Finds what hides the first units.

ghost use Rattle.std.specs.Prelude.{◌≡◌, Some};
ghost use Rattle.hiding_rules.specs.Hidden.{one_unit, marked, quoted, hidden_in_string};
ghost use Rattle.hiding_marks.specs.Reacts.{may_start};

use crate::rules::is_one_of;
use hiding_rules::{BACKSLASH, LineState, Stretch, Within};
use unit_text::Units;

pub(crate) fn one_unit(behind: Within) -> Stretch
    ensures { result ≡ one_unit behind }
{
    Stretch { units: 1, behind }
}

/// Returns the stretch of the mark, if the units begin with it.
pub(crate) fn marked(text: &Units, behind: Within, units: &[u16]) -> Option<Stretch>
    ensures { result ≡ marked (Some text.now) behind units.now }
{
    let text = text.as_slice();
    if !units.starts_with(text) {
        return None;
    }
    Some(Stretch {
        units: text.len() as u64,
        behind,
    })
}

/// Returns whether the text may begin with this unit.
pub(crate) fn may_start(text: &Units, unit: u16) -> bool
    ensures { result ≡ may_start (Some text.now) unit }
{
    match text.as_slice() {
        [] => true,
        [first, ..] => *first == unit,
    }
}

/// Returns the stretch of a quote, if the units begin with one.
pub(crate) fn quoted(quotes: &[u16], units: &[u16]) -> Option<Stretch>
    ensures { result ≡ quoted quotes.now units.now }
{
    match units {
        [first, ..] if is_one_of(quotes, *first) => Some(one_unit(Within::String(*first))),
        _ => None,
    }
}

/// Returns the first stretch of the units, in a string that `quote` began.
pub(crate) fn hidden_in_string(quote: u16, units: &[u16]) -> Stretch
    ensures { result ≡ hidden_in_string quote units.now }
{
    match units {
        [BACKSLASH, ..] => Stretch {
            units: 2,
            behind: Within::String(quote),
        },
        [first, ..] if *first == quote => one_unit(Within::State(LineState::Code)),
        _ => one_unit(Within::String(quote)),
    }
}
