//! Finds line breaks one unit at a time.

use std::alloc::AllocError;

const CARRIAGE_RETURN: u16 = 13;

const LINE_FEED: u16 = 10;

// Returns whether a line break ends with the unit at index `at`.
fn is_break_end(units: &[u16], at: usize) -> bool {
    match units.get(at) {
        Some(&LINE_FEED) => true,
        Some(&CARRIAGE_RETURN) => units.get(at + 1) != Some(&LINE_FEED),
        _ => false,
    }
}

/// Returns the number of line breaks in the units.
pub fn count_breaks(units: &[u16]) -> u64 {
    let mut breaks = 0;
    for at in 0..units.len() {
        if is_break_end(units, at) {
            breaks += 1;
        }
    }
    breaks
}

/// Appends the start offset of each line.
pub fn find_starts(units: &[u16], out: &mut Vec<u64>) -> Result<(), AllocError> {
    out.push(0)?;
    for at in 0..units.len() {
        if is_break_end(units, at) {
            out.push(at as u64 + 1)?;
        }
    }
    Ok(())
}
