//! Runs of the program in memory, for the tests of whole scripts.
#![tactic(auto)]

mod rows;
mod runs;

pub use rows::{push_times, script_and_replies};
pub use runs::{
    ALL_READ, ALL_WRITTEN, Reads, Writes, difference, plain_difference, run_line, served,
};
