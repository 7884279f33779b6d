//! Texts in buffers that are only appended to, each with its line starts.
#![tactic(auto)]

mod buffer;
mod chunks;
mod ready;
mod span;

pub use chunks::{Chunks, MOST_APPENDED};
pub use span::ChunkSpan;
