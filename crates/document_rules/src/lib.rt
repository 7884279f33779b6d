//! Specifies a document: the flat document and its calls. Contracts cite these definitions.
#![tactic(auto)]

use thiserror::Error;

/// The reason why a call on a document fails.
#[derive(Clone, Copy, PartialEq, Eq, Debug, Error)]
pub enum ModelError {
    /// A named item does not exist.
    #[error("a named thing is not there")]
    Unknown,
    /// An offset, a position, a line or a span is invalid in the text.
    #[error("a place, a line or a span is not one of the text")]
    Range,
    /// Two edits of a batch overlap.
    #[error("two edits overlap")]
    Overlap,
    /// A limit would be exceeded.
    #[error("a limit would be passed")]
    Limit,
    /// Out of memory.
    #[error("out of memory")]
    Memory,
}
