//! The states in which the lines of a text begin. They are kept from parse to parse; a line is scanned again only if it
//! is new or begins in another state.
#![tactic(auto)]

mod gather;
mod lines;
mod settle;
mod settled;
mod states;

pub use lines::Lines;
pub use settled::Settled;
pub use states::{LineStates, States};
