//! The bracket tree of a text of which some lines changed: finds what may be reused of the old tree.
#![tactic(auto)]

mod fresh;
mod kept;
mod line;
mod marks;
mod old;
mod parsed;
mod reader;

pub use bracket_rules::Token;
pub use line_states::Lines;
pub use old::{Old, OldReader};
pub use parsed::{Parsed, reparse};
