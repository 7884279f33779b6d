//! The marks of a text's lines, stored as runs of lines that are all new or kept with consecutive numbers.
#![tactic(auto)]

mod edges;
mod find;
mod hunks;
mod places;
mod run;
mod runs;
mod sides;
mod weave;

pub use hunks::Hunks;
pub use mark_rules::Mark;
