//! Runs a script on a session: the program without its streams.
#![tactic(auto)]

mod line;
mod outcome;
mod playing;
mod reply;
mod running;
mod serving;
mod words;

pub use outcome::write_outcome;
pub use running::run_words;
pub use serving::{Served, serve};
