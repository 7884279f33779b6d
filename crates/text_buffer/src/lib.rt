//! A text in pieces over append-only buffers.
#![tactic(auto)]

mod beside;
mod breaks;
mod edit;
mod lines;
mod look_up;
mod put;
mod queries;
mod remembered;
mod rest;
mod room;
mod runs;
mod seeking;
mod text;
mod view;

pub use lines::LineReader;
pub use room::{Need, part_count};
pub use runs::Runs;
pub use text::TextBuffer;
