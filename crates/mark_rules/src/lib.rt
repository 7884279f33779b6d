//! Marks of lines: each line of a text has one mark, which says whether the line is unchanged since the last parse. The
//! definitions that contracts cite are in `specs/`, their laws in `proofs/`.
#![tactic(auto)]

/// How a line of the current text relates to the text of the last parse.
#[derive(Clone, Copy, PartialEq, Eq, Debug)]
pub enum Mark {
    /// The line is unchanged. Its number in the text of the last parse, counted from 1, is given.
    Kept(u64),
    /// The line is not in the text of the last parse.
    New,
}
