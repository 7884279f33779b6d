//! Definitions of the undo and redo lists of an editor, which contracts cite. The crate `edit_stack` implements the
//! lists.
#![tactic(auto)]

/// The tag shared by the steps of several documents that were made at once, and that are undone and redone together.
#[derive(Clone, Copy, PartialEq, Eq, Debug)]
pub struct Tag {
    /// The smallest number of a document with such a step.
    pub least: u64,
    /// The version of document `least` after its step.
    pub version: u64,
    /// The set of the documents: bit n is set if document n is a member.
    pub members: u64,
}
