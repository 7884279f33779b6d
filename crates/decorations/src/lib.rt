//! The decorations of a document: their owners, their ids, and their spans in the text.
#![tactic(auto)]

mod changes;
mod owners;
mod set;

pub use decoration_rules::{Deco, DecoError, Edit, LineMove, NewDeco};
pub use set::DecoSet;
