//! Batches on a text in pieces: the room that they need, and carrying them out.
#![tactic(auto)]

mod apply;
mod needs;

pub use apply::apply_to_text;
pub use needs::{joined, need_of_batch, need_of_batches};
