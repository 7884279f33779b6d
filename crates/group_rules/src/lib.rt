//! Specifies a group of documents that are edited and undone together: the flat group and its calls. Contracts cite these
//! definitions; `model_group` implements the group.
#![tactic(auto)]

use text_rules::Op;
use thiserror::Error;

/// The number of documents in a group. They are numbered from 0.
pub const DOC_COUNT: u64 = 64;

/// A batch of a joint edit, with the document that it applies to.
#[derive(Drop, Debug)]
pub struct DocBatch {
    /// The number of the document.
    pub doc: u64,
    /// The edits, at least one. Their spans are offsets in that document.
    pub ops: Vec<Op>,
}

/// The reason why a call on several documents fails.
#[derive(Clone, Copy, PartialEq, Eq, Debug, Error)]
pub enum GroupError {
    /// A document does not exist, or is named twice.
    #[error("a document is not there, or is named twice")]
    Unknown,
    /// A span is invalid in the text of its document.
    #[error("a span is not one of its text")]
    Range,
    /// Two edits of a batch overlap.
    #[error("two edits overlap")]
    Overlap,
    /// A limit would be exceeded.
    #[error("a limit would be passed")]
    Limit,
    /// The joint step is not the next step of document `doc`, one of its members.
    #[error("the step is not the next one of document {doc}")]
    Joint { doc: u64 },
    /// Out of memory.
    #[error("out of memory")]
    Memory,
}
