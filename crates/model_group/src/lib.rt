//! Several documents, edited and undone together.
#![tactic(auto)]

mod changes;
mod docs;
mod errors;
mod going;
mod group;
mod joint;
mod losing;
mod members;
mod ready;

pub use group::Group;
pub use group_rules::{DOC_COUNT, DocBatch, GroupError};
pub use joint::names_badly;
