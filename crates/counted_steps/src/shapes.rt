//! Texts of brackets, all of them paired.

use crate::text_lines::TextLines;
use std::alloc::{AllocError, Global};
use unit_text::{Units, units_of};

const OPEN: u16 = 0x28;

const CLOSE: u16 = 0x29;

/// A text of pairs. Its rings are nested, with one bracket a line. Each ring has the same number of lines with a pair
/// before it and after it; the remaining pairs are in the innermost ring.
#[derive(Clone, Copy)]
pub(crate) struct Shape {
    pub name: &'static str,
    pub rings: u64,
    /// The replacements of the middle line.
    pub lines: [&'static str; 2],
}

pub(crate) const SHAPES: [Shape; 4] = [
    Shape {
        name: "flat",
        rings: 0,
        lines: ["[]", "(((((((((((((((((((("],
    },
    Shape {
        name: "nested 12",
        rings: 11,
        lines: ["[]", "(((((((((((((((((((("],
    },
    Shape {
        name: "nested 140",
        rings: 139,
        lines: ["[]", "(((((((((((((((((((("],
    },
    Shape {
        name: "nested 150",
        rings: 149,
        lines: ["x", "[]"],
    },
];

impl Shape {
    /// Whether this number of brackets suffices for the rings and a pair in the innermost one.
    pub(crate) fn fits(self, brackets: u64) -> bool {
        self.rings < brackets / 2
    }

    /// Returns a text of `brackets` brackets after an empty line.
    pub(crate) fn text(self, alloc: Global, brackets: u64) -> Result<TextLines, AllocError> {
        let pairs = brackets / 2;
        let beside = pairs
            .checked_div(self.rings)
            .map_or(0, |each| each.saturating_sub(1) / 2);
        let around = beside.saturating_mul(2).saturating_add(1);
        let mut text = TextLines::new(alloc)?;
        for _ring in 0..self.rings {
            push_pairs(alloc, &mut text, beside)?;
            text.push(alloc, &[OPEN])?;
        }
        push_pairs(
            alloc,
            &mut text,
            pairs.saturating_sub(around.saturating_mul(self.rings)),
        )?;
        for _ring in 0..self.rings {
            text.push(alloc, &[CLOSE])?;
            push_pairs(alloc, &mut text, beside)?;
        }
        Ok(text)
    }
}

/// Appends `pairs` lines with a pair each.
fn push_pairs(alloc: Global, text: &mut TextLines, pairs: u64) -> Result<(), AllocError> {
    for _pair in 0..pairs {
        text.push(alloc, &[OPEN, CLOSE])?;
    }
    Ok(())
}

/// Returns the units of a line.
pub(crate) fn line_of(alloc: Global, line: &str) -> Result<Units, AllocError> {
    let mut units = Vec::new(alloc);
    units_of(line, &mut units)?;
    Ok(Units::from_vec(units))
}
