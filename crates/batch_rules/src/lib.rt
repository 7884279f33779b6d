//! Definitions of batches of edits, which contracts cite, and their laws.
#![tactic(auto)]

use thiserror::Error;

/// The reason why a batch was refused.
#[derive(Clone, Copy, PartialEq, Eq, Debug, Error)]
pub enum BatchError {
    /// The span of an edit is invalid for the text.
    #[error("the span of an edit is none of the text")]
    Range,
    /// Two edits overlap.
    #[error("two edits overlap")]
    Overlap,
    /// The new text would have too many units.
    #[error("the new text would be too long")]
    Limit,
    /// Out of memory.
    #[error("out of memory")]
    Memory,
}
