//! The edits of a line.

use crate::lists::ListOf;
use text_lengths::{Position, Span};
use unit_text::Units;

/// The place of an op in the text.
#[derive(Clone, Copy, PartialEq, Eq, Debug)]
pub enum Place {
    /// A span of offsets.
    At(Span),
    /// The range from the first position to the second.
    InRange(Position, Position),
}

/// One edit of a line: replaces the units at `place` by `text`.
#[derive(Drop, Debug)]
pub struct LineOp {
    pub place: Place,
    pub text: Units,
    pub force: bool,
}

/// The edits of a line.
pub type LineOps = ListOf<LineOp>;
