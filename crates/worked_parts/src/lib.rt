//! Tests of the arena, and of sources and sinks.
#![tactic(auto)]

#[cfg(test)]
mod arena;
#[cfg(test)]
mod streams;
