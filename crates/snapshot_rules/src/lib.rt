//! Definitions of snapshots of a text with their laws, which contracts cite, and the reasons why a call on snapshots
//! fails. The crate `snapshots` implements the shelf that holds them.
#![tactic(auto)]

use thiserror::Error;

/// The maximum number of open snapshots.
pub const MOST_SNAPSHOTS: u64 = 1_000;

/// The minimum number of units per read: the length of a pair of surrogates.
pub const LEAST_READ: u64 = 2;

/// The reason why a call on snapshots failed.
#[derive(Clone, Copy, PartialEq, Eq, Debug, Error)]
pub enum ShelfError {
    /// No open snapshot has this id.
    #[error("no such snapshot is open")]
    Unknown,
    /// The requested number of units is below [`LEAST_READ`].
    #[error("fewer units were asked for than a pair of surrogates has")]
    Range,
    /// There would be more than [`MOST_SNAPSHOTS`] open snapshots, or no id is left for a new one.
    #[error("a limit would be passed")]
    Limit,
    /// Out of memory.
    #[error("out of memory")]
    Memory,
}
