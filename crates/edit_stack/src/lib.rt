//! The undo and redo lists, over any type of change.
#![tactic(auto)]

mod element;
mod stack;

pub use element::Element;
pub use stack::EditStack;
