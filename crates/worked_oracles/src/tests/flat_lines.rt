//! The lines of a list of units, searched from its start each time.
ghost use Rattle.std.specs.Prelude.{◌≤◌, ◌+◌, ◌<◌, length, IfSome};

use std::alloc::{AllocError, Global};
use unit_text::Units;

pub const LINE_FEED: u16 = 10;

pub const CARRIAGE_RETURN: u16 = 13;

/// Returns the offsets after the breaks.
pub fn line_starts(alloc: Global, units: &[u16]) -> Result<Vec<u64>, AllocError> {
    let mut starts = Vec::new(alloc);
    let next = units.iter().skip(1).copied().chain([0]);
    for (at, (unit, next)) in units.iter().zip(next).enumerate() {
        if *unit == LINE_FEED || (*unit == CARRIAGE_RETURN && next != LINE_FEED) {
            starts.push((at as u64).saturating_add(1))?;
        }
    }
    Ok(starts)
}

pub fn line_count(units: &[u16]) -> u64 {
    let mut count = 1_u64;
    let mut rest = units;
    while let (_, Some(after)) = first_line(rest) {
        count = count.saturating_add(1);
        rest = after;
    }
    count
}

/// Returns the content of line `number`, counted from 1.
pub fn line_content(units: &[u16], number: u64) -> Option<&[u16]> {
    if number == 0 {
        return None;
    }
    let mut rest = units;
    for _ in 1..number {
        let (_, after) = first_line(rest);
        rest = after?;
    }
    Some(first_line(rest).0)
}

/// Returns the text with each break replaced by `break_units`.
pub fn with_breaks(alloc: Global, units: &[u16], break_units: &[u16]) -> Result<Units, AllocError> {
    let mut text = Vec::new(alloc);
    let mut rest = units;
    while let (content, Some(after)) = first_line(rest) {
        text.extend_from_slice(content)?;
        text.extend_from_slice(break_units)?;
        rest = after;
    }
    text.extend_from_slice(rest)?;
    Ok(Units::from_vec(text))
}

/// Returns the content of the first line, and the units after its break, if it has one.
pub fn first_line(units: &[u16]) -> (&[u16], Option<&[u16]>)
    ensures { IfSome result.1 (λ after. length result.0.now + length after.now < length units.now) }
{
    for (at, unit) in units.iter().enumerate() {
        if *unit == LINE_FEED {
            return (&units[..at], Some(&units[at + 1..]));
        }
        if *unit == CARRIAGE_RETURN {
            return (&units[..at], Some(after_carriage_return(&units[at + 1..])));
        }
    }
    (units, None)
}

/// Returns the rest after the break that a CR before these units begins.
fn after_carriage_return(after: &[u16]) -> &[u16]
    ensures { length result.now ≤ length after.now }
{
    match after.split_first() {
        Some((unit, rest)) => { if *unit == LINE_FEED { rest } else { after } }
        None => after,
    }
}
