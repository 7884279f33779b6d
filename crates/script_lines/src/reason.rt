//! Reasons for refusing a line.

/// The reason why a line was refused.
#[derive(Clone, Copy, PartialEq, Eq, Debug)]
pub enum Refusal {
    Syntax,
    Unknown,
    Range,
    Overlap,
    Limit,
    Memory,
    /// Earlier events are missing: the mirror has version `have`, but the event needs version `need`.
    Gap { have: u64, need: u64 },
    /// A joint step is not the next step of document `doc`, one of its members.
    Joint { doc: u64 },
}
