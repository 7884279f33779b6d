//! Definitions of the brackets of a text: tables, tokens, the parse of a whole text, and the results of queries on a
//! bracket tree. The definitions are in `specs/`, their laws in `proofs/`; the code here is the plain types that the
//! crates above share.
#![tactic(auto)]

use text_lengths::Length;

/// The maximum number of pairs in a bracket table.
pub const MOST_PAIRS: u64 = 64;

/// The maximum number of units of one bracket text.
pub const MOST_BRACKET_UNITS: u64 = 32;

/// The maximum number of brackets open at once. An opening bracket beyond this limit is treated as plain text.
pub const MOST_OPEN: u64 = 300;

/// A bracket in a line: `len` units from column `at` on, counted from 0. `kind` is the index of its pair in the table.
#[derive(Clone, Copy, PartialEq, Eq, Debug)]
pub struct Token {
    pub at: u64,
    pub len: u64,
    pub kind: u64,
    pub opening: bool,
}

/// The role of a bracket in its text.
#[derive(Clone, Copy, PartialEq, Eq, Debug)]
pub enum Status {
    /// An opening bracket with a matching closing bracket.
    PairedOpening,
    /// A closing bracket with a matching opening bracket.
    PairedClosing,
    /// An opening bracket without a matching closing bracket.
    Unclosed,
    /// A closing bracket without a matching opening bracket.
    Unexpected,
}

/// A bracket of a text: its start, its length in units, the index of its pair, and its role. `level` is the number of
/// brackets open around it.
#[derive(Clone, Copy, PartialEq, Eq, Debug)]
pub struct Entry {
    pub place: Length,
    pub len: u64,
    pub kind: u64,
    pub status: Status,
    pub level: u64,
}
