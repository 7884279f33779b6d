//! A change of a text's line endings to another kind, and back: both texts, and how the lines move between them, so that decorations can be
//! carried from one to the other.
#![tactic(auto)]

mod lines;
mod recast;
mod side;

pub use recast::{Recast, RecastError};
pub use side::Side;
