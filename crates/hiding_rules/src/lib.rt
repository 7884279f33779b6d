//! Definitions of comments and strings, which hide brackets. The units of a line that are hidden depend on the state in
//! which the line before ended. The definitions are in `specs/`, their laws in `proofs/`; the code here is the plain
//! types that the crates above share.
#![tactic(auto)]

/// The maximum number of quote units.
pub const MOST_QUOTES: u64 = 8;

/// The escape unit in a string: the unit after it never ends the string.
pub const BACKSLASH: u16 = 0x5C;

/// The state at the start or the end of a line.
#[derive(Clone, Copy, PartialEq, Eq, Debug)]
pub enum LineState {
    /// Outside a block comment.
    Code,
    /// Inside a block comment.
    Block,
}

/// The context of a place in a line.
#[derive(Clone, Copy, PartialEq, Eq, Debug)]
pub enum Within {
    /// A context in which a line may begin.
    State(LineState),
    /// Inside a line comment.
    Comment,
    /// Inside a string that was opened by this quote.
    String(u16),
}

/// A stretch of units in a line that contains no bracket.
#[derive(Clone, Copy, PartialEq, Eq, Debug)]
pub struct Stretch {
    /// The number of units, at least 1. The last one may lie beyond the end of the line.
    pub units: u64,
    /// The context right after the stretch.
    pub behind: Within,
}
