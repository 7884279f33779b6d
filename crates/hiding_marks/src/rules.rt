//! The rules for valid marks.

ghost use Rattle.std.specs.Prelude.{◌≡◌, ◌==◌};
ghost use Rattle.std.specs.List.{list_all, list_any};
ghost use Rattle.hiding_rules.specs.Marks.{has_line_text, has_block_texts, is_quote, differ, are_quotes};

use crate::texts::{is_bracket_text, is_in_line};
use hiding_rules::{BACKSLASH, MOST_QUOTES};
use unit_text::Units;

pub(crate) fn has_line_text(line: &Option<Units>) -> bool
    ensures { result ≡ has_line_text line.now }
{
    match line {
        Some(text) => is_bracket_text(text),
        None => true,
    }
}

pub(crate) fn has_block_texts(block: &Option<(Units, Units)>) -> bool
    ensures { result ≡ has_block_texts block.now }
{
    match block {
        Some(texts) => is_bracket_text(&texts.0) && is_bracket_text(&texts.1),
        None => true,
    }
}

/// Returns whether these are at most 8 units, all of them distinct and none a line break, a backslash or a surrogate.
pub(crate) fn are_quotes(quotes: &[u16]) -> bool
    ensures { result ≡ are_quotes quotes.now }
{
    quotes.len() as u64 <= MOST_QUOTES && each_is_quote(quotes) && differ(quotes)
}

fn each_is_quote(units: &[u16]) -> bool
    ensures { result ≡ list_all is_quote units.now }
{
    units.iter().all(|unit| is_quote(*unit))
}

fn is_quote(unit: u16) -> bool
    ensures { result ≡ is_quote unit }
{
    is_in_line(unit) && unit != BACKSLASH && (unit < 0xD800 || 0xE000 <= unit)
}

fn differ(quotes: &[u16]) -> bool
    ensures { result ≡ differ quotes.now }
{
    for (i, quote) in quotes.iter().enumerate() {
        if is_one_of(&quotes[i + 1..], *quote) {
            return false;
        }
    }
    true
}

/// Returns whether the unit is one of `units`.
pub(crate) fn is_one_of(units: &[u16], unit: u16) -> bool
    ensures { result ≡ list_any (λ u. unit == u) units.now }
{
    units.iter().any(|other| unit == *other)
}
