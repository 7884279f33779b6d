//! Sessions: the documents with their mirrors and events. A session answers lines. `script_runner` and the library for C use it.
#![tactic(auto)]

mod bracket_replies;
mod change_replies;
mod decoration_replies;
mod joint_replies;
mod line;
mod mirror_replies;
mod ops;
mod outcome;
mod reply;
mod search_replies;
mod session;
mod snapshot_replies;

pub use line::{MOST_LINE_BYTES, is_blank};
pub use outcome::{Outcome, Refused, Reply};
pub use session::{Follower, Session};
