//! Columns of a line, counted in UTF-8 bytes, UTF-16 units or code points, as language servers count them.
#![tactic(auto)]

mod lanes;

ghost use Rattle.std.specs.Prelude.{◌≡◌, ℕ, ◌+◌, ◌-◌, ◌<◌, ◌≤◌, ◌∷◌, [], length, None, IfNone, IfSome};
ghost use Rattle.unit_text.specs.Units.{is_place};
ghost use Rattle.column_encodings.specs.Columns.{characters, width, lone_width, length_in, column_in, offset_of};
ghost use Rattle.column_encodings.specs.Walk.{LeadsOn};

use crate::lanes::ascii_in_front;
use unit_text::cuts_pair;

/// The unit in which a column is counted.
#[derive(Clone, Copy, PartialEq, Eq, Debug)]
pub enum Encoding {
    /// UTF-8 bytes.
    Utf8,
    /// UTF-16 code units.
    Utf16,
    /// Code points.
    Utf32,
}

/// Converts an offset into a column: returns the number of bytes, units or code points before it. Returns None if the
/// offset is beyond the end or inside a pair of surrogates. An unpaired surrogate counts as U+FFFD.
pub fn column_in(encoding: Encoding, units: &[u16], offset: u64) -> Option<u64>
    ensures { result ≡ column_in encoding units.now offset }
{
    if !is_place(units, offset) {
        return None;
    }
    Some(length_in(encoding, &units[..offset as usize]))
}

/// Converts a column, counted in bytes, units or code points, into an offset. Returns None if the column is inside a
/// character or beyond the end. An unpaired surrogate counts as U+FFFD.
pub fn offset_of(encoding: Encoding, units: &[u16], column: u64) -> Option<u64>
    ensures offset { result ≡ offset_of encoding units.now column }
    ensures within { IfSome result (λ offset. offset ≤ length units.now) }
{
    if encoding == Encoding::Utf16 {
        return is_place(units, column).then_some(column);
    }
    let (ascii, mut rest) = past_ascii(units, column);
    let mut left = column - ascii;
    while left > 0 {
        let (others, behind) = past_columns(encoding, rest, left)?;
        let (ascii, next) = past_ascii(behind, others);
        left = others - ascii;
        rest = next;
    }
    Some((units.len() - rest.len()) as u64)
}

fn is_place(units: &[u16], offset: u64) -> bool
    ensures { result ≡ is_place units.now offset }
{
    offset <= units.len() as u64 && !cuts_pair(units, offset)
}

fn length_in(encoding: Encoding, units: &[u16]) -> u64
    ensures { result ≡ length_in encoding units.now }
{
    if encoding == Encoding::Utf16 {
        return units.len() as u64;
    }
    let (mut length, mut rest) = past_ascii(units, u64::MAX);
    while !rest.is_empty() {
        let (some, behind) = past_characters(encoding, rest);
        let (ascii, next) = past_ascii(behind, u64::MAX);
        length += some + ascii;
        rest = next;
    }
    length
}

/// The maximum number of characters that are decoded one by one before the next search for ASCII.
const STRETCH: usize = 64;

// Returns the length of the first characters, at most `STRETCH` of them, and the units after them.
fn past_characters(encoding: Encoding, units: &[u16]) -> (u64, &[u16])
    ensures length { length_in encoding units.now ≡ result.0 + length_in encoding result.1.now }
    ensures fewer { 0 < length units.now → length result.1.now < length units.now }
    ensures within { length result.1.now ≤ length units.now }
{
    let mut rest = units;
    let mut length = 0;
    for _step in 0..STRETCH {
        let Some((character, after)) = split_character(rest) else {
            break;
        };
        length += width(encoding, character);
        rest = after;
    }
    (length, rest)
}

// Passes over at most `STRETCH` characters. Returns the rest of the column and the units after them; None if the column
// is inside a character or beyond the end.
fn past_columns(encoding: Encoding, units: &[u16], column: u64) -> Option<(u64, &[u16])>
    requires { 0 < column }
    ensures none { IfNone result (offset_of encoding units.now column ≡ None) }
    ensures some { IfSome result
        (λ found. LeadsOn encoding units.now column found.1.now found.0) }
    ensures fewer { IfSome result (λ found. length found.1.now < length units.now) }
{
    let mut rest = units;
    let mut left = column;
    for _step in 0..STRETCH {
        if left == 0 {
            break;
        }
        let (character, after) = split_character(rest)?;
        left = left.checked_sub(width(encoding, character))?;
        rest = after;
    }
    Some((left, rest))
}

// Passes over the leading ASCII units, at most `most` of them. Returns their number and the units after them.
fn past_ascii(units: &[u16], most: u64) -> (u64, &[u16])
    ensures few { result.0 ≤ most }
    ensures all { result.0 + length result.1.now ≡ length units.now }
    ensures length { (encoding : Encoding)
        → length_in encoding units.now ≡ result.0 + length_in encoding result.1.now }
    ensures offset { (encoding : Encoding) (column : ℕ) → result.0 ≤ column
        → LeadsOn encoding units.now column result.1.now (column - result.0) }
{
    let looked_at = most.min(units.len() as u64) as usize;
    let ascii = ascii_in_front(&units[..looked_at]);
    let (front, behind) = units.split_at(ascii);
    (front.len() as u64, behind)
}

// Returns the units of the first character and the units after it; None if there are no units.
fn split_character(units: &[u16]) -> Option<(&[u16], &[u16])>
    ensures none { IfNone result (units.now ≡ []) }
    ensures first { IfSome result
        (λ found. characters units.now ≡ found.0.now ∷ characters found.1.now) }
    ensures some { IfSome result (λ found. 0 < length found.0.now) }
    ensures all { IfSome result
        (λ found. length found.0.now + length found.1.now ≡ length units.now) }
{
    if units.is_empty() {
        return None;
    }
    let length = if cuts_pair(units, 1) { 2 } else { 1 };
    Some(units.split_at(length))
}

fn width(encoding: Encoding, character: &[u16]) -> u64
    ensures { result ≡ width encoding character.now }
{
    match encoding {
        Encoding::Utf8 => match character {
            [unit] => lone_width(*unit),
            _ => 4,
        },
        Encoding::Utf16 => character.len() as u64,
        Encoding::Utf32 => 1,
    }
}

// Returns the number of UTF-8 bytes of an unpaired unit. An unpaired surrogate has three, as U+FFFD has.
fn lone_width(unit: u16) -> u64
    ensures { result ≡ lone_width unit }
{
    match unit {
        0..=0x7F => 1,
        0x80..=0x7FF => 2,
        _ => 3,
    }
}
