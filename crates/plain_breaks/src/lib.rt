//! Finds line breaks one unit at a time, as a reference for the SIMD version.
#![tactic(auto)]

mod compare;
mod plain;

pub use compare::{Kind, TEXTS, agree_on, agree_on_one};
pub use plain::{count_breaks, find_starts};
