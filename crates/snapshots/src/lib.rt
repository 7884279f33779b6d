//! Snapshots of texts, which are read from the front. No text is copied.
#![tactic(auto)]

mod kept;
mod read;
mod shelf;

pub use shelf::Shelf;
pub use snapshot_rules::ShelfError;
