//! Definitions for a red-black tree with sums in its nodes: nodes, their data, and the laws that these keep.
#![tactic(auto)]

mod packed;
mod rewriting;
mod slot;
mod weave;

pub use packed::Packed;
pub use rewriting::Rewriting;
pub use slot::{Data, Side, Slot};
pub use weave::{Turn, Weave};
