//! The text model for C. Each call takes a handle and returns a status. If that is an error, nothing has changed. On an empty handle the
//! status is `Empty`. A handle holds a session of 64 documents, numbered from 0 to 63. A call with another number returns `Unknown`.
//! Offsets count UTF-16 units from 0; lines and columns count from 1.
#![tactic(auto)]

mod answers;
mod brackets;
mod changes;
mod columns;
mod contents;
mod edits;
mod faults;
mod handle;
mod joint;
mod lists;
mod marks;
mod mirrors;
mod opening;
mod positions;
mod readings;
mod search;
mod status;
mod telling;
mod text;
mod utf8;

pub use handle::Handle;
