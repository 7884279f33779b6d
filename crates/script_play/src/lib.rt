//! A source that generates a script from a seed, and a sink that keeps a tally of the replies.
#![tactic(auto)]

mod line;
mod play;
mod source;
mod supply;
mod tally;

pub use source::PlaySource;
pub use tally::TallySink;

/// The maximum number of lines of a script.
pub const MOST_LINES: u32 = 10_000_000;
/// The multiplier of the random number generator, which is linear congruential.
pub(crate) const MULTIPLIER: u64 = 6364136223846793005;
/// The increment of the random number generator.
pub(crate) const INCREMENT: u64 = 1442695040888963407;
