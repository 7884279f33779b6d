//! Compares the SIMD search for breaks with the plain loops on generated texts.

use crate::plain;
use line_starts::{count_breaks, find_starts};
use std::alloc::{AllocError, Global};

const CARRIAGE_RETURN: u16 = 13;

const LINE_FEED: u16 = 10;

const LETTER: u16 = 0x61;

/// The kinds of texts to compare: letters with one break, and a pseudo-random mix of breaks.
pub const TEXTS: [Kind; 4] = [Kind::Feed, Kind::Return, Kind::Pair, Kind::Mixed];

/// The breaks of a generated text.
#[derive(Clone, Copy)]
pub enum Kind {
    Feed,
    Return,
    Pair,
    Mixed,
}

/// Returns the unit at index `place` of a text whose break begins at index `from`. For `Mixed`, `from` is the seed.
fn unit_at(kind: Kind, from: usize, place: usize) -> u16 {
    match kind {
        Kind::Feed if place == from => LINE_FEED,
        Kind::Return | Kind::Pair if place == from => CARRIAGE_RETURN,
        Kind::Pair if place > 0 && place - 1 == from => LINE_FEED,
        Kind::Mixed => mixed_unit(from, place),
        _ => LETTER,
    }
}

/// Returns a pseudo-random unit: one in four is a CR or an LF.
fn mixed_unit(seed: usize, place: usize) -> u16 {
    let mixed = (seed as u64)
        .wrapping_add(place as u64)
        .wrapping_mul(0x9E37_79B9);
    match (mixed ^ mixed >> 11) >> 5 & 7 {
        0 => CARRIAGE_RETURN,
        1 => LINE_FEED,
        _ => LETTER,
    }
}

fn text(alloc: Global, kind: Kind, from: usize, len: usize) -> Result<Vec<u16>, AllocError> {
    let mut units = Vec::with_capacity(alloc, len)?;
    for place in 0..len {
        units.push(unit_at(kind, from, place))?;
    }
    Ok(units)
}

fn agree(alloc: Global, units: &[u16]) -> Result<bool, AllocError> {
    let mut starts = Vec::new(alloc);
    find_starts(units, &mut starts)?;
    let mut plain = Vec::new(alloc);
    plain::find_starts(units, &mut plain)?;
    let breaks = plain::count_breaks(units);
    Ok(starts.as_slice() == plain.as_slice() && count_breaks(units) == breaks)
}

/// Returns whether both ways agree on the text of length `len` whose break begins at index `from`. For `Mixed`, `from`
/// is the seed.
pub fn agree_on_one(
    alloc: Global,
    kind: Kind,
    from: usize,
    len: usize,
) -> Result<bool, AllocError> {
    agree(alloc, text(alloc, kind, from, len)?.as_slice())
}

/// Returns whether both ways agree on the texts of length `len` for each `from` below `len`.
pub fn agree_on(alloc: Global, kind: Kind, len: usize) -> Result<bool, AllocError> {
    for from in 0..len {
        if !agree_on_one(alloc, kind, from, len)? {
            return Ok(false);
        }
    }
    Ok(true)
}
