// The rules for valid tables.
ghost use Rattle.std.specs.Prelude.{◌≡◌, ◌+◌, ◌<◌, ◌≤◌, ◌&&◌, length};
ghost use Rattle.std.specs.List.{list_any, list_all};
ghost use Rattle.bracket_rules.specs.Table.{texts_of, same_units, is_in_line, is_bracket_text, are_distinct, is_table};

use bracket_rules::{MOST_BRACKET_UNITS, MOST_PAIRS};
use unit_text::{CARRIAGE_RETURN, LINE_FEED, Units};

/// Returns whether the pairs are a bracket table: 1 to 64 of them, whose texts have 1 to 32 units without CR or LF and
/// are all distinct.
pub(crate) fn is_table(pairs: &[(Units, Units)]) -> bool
    ensures { result ≡ is_table pairs.now }
{
    let count = pairs.len() as u64;
    0 < count && count <= MOST_PAIRS && are_bracket_texts(pairs) && are_distinct(pairs)
}

fn are_bracket_texts(pairs: &[(Units, Units)]) -> bool
    ensures { result ≡ list_all is_bracket_text (texts_of pairs.now) }
{
    for pair in pairs {
        if !is_bracket_text(&pair.0) || !is_bracket_text(&pair.1) {
            return false;
        }
    }
    true
}

fn is_bracket_text(text: &Units) -> bool
    ensures { result ≡ is_bracket_text text.now }
{
    let units = text.as_slice();
    let count = units.len() as u64;
    0 < count && count <= MOST_BRACKET_UNITS && are_in_line(units)
}

fn are_in_line(units: &[u16]) -> bool
    ensures { result ≡ list_all is_in_line units.now }
{
    units.iter().all(|unit| is_in_line(*unit))
}

fn is_in_line(unit: u16) -> bool
    ensures { result ≡ is_in_line unit }
{
    unit != CARRIAGE_RETURN && unit != LINE_FEED
}

fn are_distinct(pairs: &[(Units, Units)]) -> bool
    ensures { result ≡ are_distinct (texts_of pairs.now) }
{
    for (i, pair) in pairs.iter().enumerate() {
        let later = &pairs[i + 1..];
        if same_units(&pair.0, &pair.1) || has_text(later, &pair.0) || has_text(later, &pair.1) {
            return false;
        }
    }
    true
}

fn has_text(pairs: &[(Units, Units)], text: &Units) -> bool
    ensures { result ≡ list_any (same_units text.now) (texts_of pairs.now) }
{
    for pair in pairs {
        if same_units(text, &pair.0) || same_units(text, &pair.1) {
            return true;
        }
    }
    false
}

fn same_units(text: &Units, other: &Units) -> bool
    ensures { result ≡ same_units text.now other.now }
{
    text.as_slice() == other.as_slice()
}
