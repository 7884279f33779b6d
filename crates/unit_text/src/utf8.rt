//! Conversion between UTF-16 units and UTF-8.

ghost use Rattle.std.specs.Prelude.{◌≡◌, ◌+◌, ◌&&◌, ◌<◌, ◌≤◌, ◌++◌, ◌∷◌, [], true, length, unwrap_or, IfNone, IfSome, IfOk, OnOk, OnErr, take, drop, vec_len};
ghost use Rattle.std.specs.Str.{IsAscii};
ghost use Rattle.std.specs.Char.Escape.{encode_utf16};
ghost use Rattle.std.specs.Char.Utf16.{utf16_lossy_chars, is_high_surrogate, is_low_surrogate, surrogate_pair_char, lone_unit_char};
ghost use Rattle.unit_text.specs.Text.{units_of, utf8_of};

use crate::units::is_surrogate_pair;
use std::alloc::AllocError;
use std::simd::prelude::*;

/// Appends the UTF-16 units of the text to `out`. On an error `out` is unchanged.
pub fn units_of(text: &str, out: &mut Vec<u16>) -> Result<(), AllocError>
    ensures ok { OnOk result (out.new.items ≡ out.old.items ++ units_of text.now) }
    ensures err { OnErr result (out.new.items ≡ out.old.items) }
{
    out.reserve(text.len())?;
    let before = out.len();
    let appended = push_units(text, out);
    if appended.is_err() {
        out.truncate(before);
    }
    appended
}

/// The number of ASCII bytes that are widened together; also the number of other characters after which ASCII is tried again.
const LANES: usize = 32;

// On an error a part of the units may have been appended to `out`.
fn push_units(text: &str, out: &mut Vec<u16>) -> Result<(), AllocError>
    ensures ok { OnOk result (out.new.items ≡ out.old.items ++ units_of text.now) }
    ensures before { take (vec_len out.old) out.new.items ≡ out.old.items }
{
    let mut rest = text;
    while !rest.is_empty() {
        rest = push_front(rest, out)?;
    }
    Ok(())
}

// Appends the units of a prefix of the text, and returns the rest.
fn push_front<'a>(text: &'a str, out: &mut Vec<u16>) -> Result<&'a str, AllocError>
    requires { 0 < length text.now }
    ensures ok { IfOk result
        (λ rest. out.new.items ++ units_of rest.now ≡ out.old.items ++ units_of text.now) }
    ensures shorter { IfOk result (λ rest. length rest.now < length text.now) }
    ensures before { take (vec_len out.old) out.new.items ≡ out.old.items }
    ensures grown { vec_len out.old ≤ vec_len out.new }
{
    match ascii_in_front(text) {
        Some((front, after)) => {
            push_ascii(front, out)?;
            Ok(after)
        }
        None => push_characters(text, out),
    }
}

// The first `LANES` bytes and the rest, if these are ASCII.
#[inline(always)]
fn ascii_in_front(text: &str) -> Option<(&str, &str)>
    ensures ascii { IfSome result (λ parts. IsAscii parts.0.now) }
    ensures front { IfSome result (λ parts. parts.0.now ≡ take 32 text.now) }
    ensures long { IfSome result (λ parts. length parts.0.now ≡ 32) }
    ensures after { IfSome result (λ parts. parts.1.now ≡ drop 32 text.now) }
    ensures left { IfSome result (λ parts. length parts.1.now + 32 ≡ length text.now) }
{
    let (front, after) = text.split_at_checked(LANES)?;
    if front.is_ascii() {
        Some((front, after))
    } else {
        None
    }
}

// Appends `LANES` bytes of ASCII, each of which is a unit.
fn push_ascii(text: &str, out: &mut Vec<u16>) -> Result<(), AllocError>
    requires ascii { IsAscii text.now }
    requires long { length text.now ≡ 32 }
    ensures ok { OnOk result (out.new.items ≡ out.old.items ++ units_of text.now) }
    ensures err { OnErr result (out.new.items ≡ out.old.items) }
{
    out.extend_from_slice(&widened(text.as_bytes()))
}

// The bytes as units.
#[inline(always)]
fn widened(bytes: &[u8]) -> [u16; LANES]
    requires { length bytes.now ≡ 32 }
    ensures { result ≡ bytes.now }
{
    u8x32::from_slice(bytes).cast::<u16>().to_array()
}

// Appends the units of up to `LANES` characters of any kind, and returns what follows them.
fn push_characters<'a>(text: &'a str, out: &mut Vec<u16>) -> Result<&'a str, AllocError>
    requires { 0 < length text.now }
    ensures ok { IfOk result
        (λ rest. out.new.items ++ units_of rest.now ≡ out.old.items ++ units_of text.now) }
    ensures shorter { IfOk result (λ rest. length rest.now < length text.now) }
    ensures before { take (vec_len out.old) out.new.items ≡ out.old.items }
    ensures grown { vec_len out.old ≤ vec_len out.new }
{
    let mut chars = text.chars();
    for _ in 0..LANES {
        match chars.next() {
            Some(c) => push_char(c, out)?,
            None => break,
        }
    }
    Ok(chars.as_str())
}

// A character of one unit, which is the common case, is pushed directly.
fn push_char(c: char, out: &mut Vec<u16>) -> Result<(), AllocError>
    ensures ok { OnOk result (out.new.items ≡ out.old.items ++ encode_utf16 c) }
    ensures err { OnErr result (out.new.items ≡ out.old.items) }
    ensures grown { vec_len out.old ≤ vec_len out.new }
{
    if let Ok(unit) = u16::try_from(c) {
        out.push(unit)?;
        return Ok(());
    }
    let mut pair = [0u16; 2];
    out.extend_from_slice(c.encode_utf16(&mut pair))
}

/// Appends the UTF-8 of the units to `out`, with U+FFFD for each unpaired surrogate. On an error `out` is unchanged.
pub fn utf8_of(units: &[u16], out: &mut Vec<u8>) -> Result<(), AllocError>
    ensures ok { OnOk result (out.new.items ≡ out.old.items ++ utf8_of units.now) }
    ensures err { OnErr result (out.new.items ≡ out.old.items) }
{
    out.reserve(units.len())?;
    let before = out.len();
    let appended = push_utf8(units, out);
    if appended.is_err() {
        out.truncate(before);
    }
    appended
}

// On an error a part of the text may have been appended to `out`.
fn push_utf8(units: &[u16], out: &mut Vec<u8>) -> Result<(), AllocError>
    ensures ok { OnOk result (out.new.items ≡ out.old.items ++ utf8_of units.now) }
    ensures before { take (vec_len out.old) out.new.items ≡ out.old.items }
{
    let mut rest = units;
    while let Some((c, after)) = first_char(rest) {
        let mut bytes = [0u8; 4];
        out.extend_from_slice(c.encode_utf8(&mut bytes).as_bytes())?;
        rest = after;
    }
    Ok(())
}

/// Returns the first character of the units and the units after it; None if there are no units. An unpaired surrogate
/// gives U+FFFD.
pub(crate) fn first_char(units: &[u16]) -> Option<(char, &[u16])>
    ensures none { IfNone result (units.now ≡ []) }
    ensures first { IfSome result
        (λ found. utf16_lossy_chars units.now ≡ found.0 ∷ utf16_lossy_chars found.1.now) }
    ensures shorter { IfSome result (λ found. length found.1.now < length units.now) }
{
    let (first, after) = units.split_first()?;
    match after.split_first() {
        Some((second, rest)) => {
            if is_surrogate_pair(*first, *second) {
                Some((paired_char(*first, *second), rest))
            } else {
                Some((lone_char(*first), after))
            }
        }
        None => Some((lone_char(*first), after)),
    }
}

fn paired_char(high: u16, low: u16) -> char
    requires { (is_high_surrogate high && is_low_surrogate low) ≡ true }
    ensures { result ≡ surrogate_pair_char high low }
{
    let code = 0x1_0000 + (high as u32 - 0xD800) * 0x400 + (low as u32 - 0xDC00);
    char::from_u32(code).unwrap()
}

fn lone_char(unit: u16) -> char
    ensures { result ≡ unwrap_or (lone_unit_char unit) 0xFFFD }
{
    char::from_u32(unit as u32).unwrap_or('\u{FFFD}')
}
