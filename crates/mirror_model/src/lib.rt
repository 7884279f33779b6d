//! A mirror: a second text that follows a document by its events. Events may be lost, repeated or out of order.
#![tactic(auto)]

mod follow;
mod mirror;

pub use edit_batches::Event;
pub use mirror::Mirror;
pub use mirror_rules::{Halt, HaltCause, MirrorError, Tally};
