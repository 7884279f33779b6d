//! The texts that may be brackets or marks.

ghost use Rattle.std.specs.Prelude.{◌≡◌};
ghost use Rattle.std.specs.List.{list_all};
ghost use Rattle.bracket_rules.specs.Table.{is_in_line, is_bracket_text};

use bracket_rules::MOST_BRACKET_UNITS;
use unit_text::{CARRIAGE_RETURN, LINE_FEED, Units};

/// Returns whether the text has 1 to 32 units without CR or LF.
pub fn is_bracket_text(text: &Units) -> bool
    ensures { result ≡ is_bracket_text text.now }
{
    let units = text.as_slice();
    let count = units.len() as u64;
    0 < count && count <= MOST_BRACKET_UNITS && are_in_line(units)
}

fn are_in_line(units: &[u16]) -> bool
    ensures { result ≡ list_all is_in_line units.now }
{
    units.iter().all(|unit| is_in_line(*unit))
}

pub(crate) fn is_in_line(unit: u16) -> bool
    ensures { result ≡ is_in_line unit }
{
    unit != CARRIAGE_RETURN && unit != LINE_FEED
}
