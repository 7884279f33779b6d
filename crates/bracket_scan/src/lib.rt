//! Bracket tables, and the scan of a line for the brackets of a table: at each position the longest text of the table
//! that begins there.
#![tactic(auto)]

mod firsts;
mod rules;
mod starts;
mod table;

pub use bracket_rules::Token;
pub use hiding_marks::{Hiding, HidingError};
pub use hiding_rules::LineState;
pub use table::{BracketTable, TableError};
