//! How decorations move under an edit, and a balanced tree that keeps them in order of position.
#![tactic(auto)]

mod accept;
mod carrier;
mod carry;
mod ends;
mod halves;
mod kept;
mod lines;
mod mover;
mod moves;
mod names;
mod search;
mod sort;
mod tree;
mod weave;

pub use decoration_rules::{Edit, LineMove, Mark, Sticky};
pub use moves::moved;
pub use tree::IntervalTree;
