//! An arena: values of one `Copy` type in pages of raw memory, each under its own name until it is removed.
#![tactic(auto)]

mod arena;
mod name;

pub use arena::Arena;
pub use name::{Link, NodeId};
