//! A red-black tree with sums and shifts, generic in the `Weave` that defines them.
#![tactic(auto)]

mod climb;
mod close;
mod descend;
mod insert;
mod leave;
mod level;
mod links;
mod mend;
mod rewrite;
mod shift;
mod sums;
mod tree;
mod walk;

pub use tree::{RbTree, Walk};
