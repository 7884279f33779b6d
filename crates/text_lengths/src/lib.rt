//! Offsets, positions, spans, touched lines and lengths of texts. No function allocates.
#![tactic(auto)]

ghost use Rattle.std.specs.Prelude.{◌≡◌, ◌+◌, ◌^◌, ◌<◌, ◌≤◌, ◌↔◌, IsTrue, IsNone, IfSome};
ghost use Rattle.text_lengths.specs.Length.{length_plus, is_before};

/// The largest version, decoration id and snapshot id: 2^63 - 1.
pub const GREATEST_NUMBER: u64 = (1 << 63) - 1;

/// A line number and a column, both counted from 1. A column counts UTF-16 code units.
#[derive(Clone, Copy, PartialEq, Eq, Debug)]
pub struct Position {
    pub line: u64,
    pub column: u64,
}

/// The range of UTF-16 code units from offset `start` up to, but not including, offset `end`. Offsets count from 0.
#[derive(Clone, Copy, PartialEq, Eq, Debug)]
pub struct Span {
    pub start: u64,
    pub end: u64,
}

/// The range of lines that an edit touches.
#[derive(Clone, Copy, PartialEq, Eq, Debug)]
pub struct Dirty {
    /// The number of the first touched line, counted from 1.
    pub first: u64,
    /// The number of touched lines before the edit.
    pub old: u64,
    /// The number of lines that replace them after the edit.
    pub new: u64,
}

/// The length of a text: the number of its line breaks, and the number of units after the last break.
#[derive(Clone, Copy, PartialEq, Eq, Debug)]
pub struct Length {
    pub lines: u64,
    pub columns: u64,
}

impl Length {
    /// Returns the length of the concatenation of a text of length `self` and a text of length `other`.
    pub fn plus(&self, other: &Length) -> Length
        requires lines { self.now.lines + other.now.lines < 2 ^ 64 }
        requires columns { (length_plus self.now other.now).columns < 2 ^ 64 }
        ensures { result ≡ length_plus self.now other.now }
    {
        let lines = self.lines + other.lines;
        let columns = if other.lines > 0 {
            other.columns
        } else {
            self.columns + other.columns
        };
        Length { lines, columns }
    }

    /// Returns the length of the rest of a text of length `self` after a prefix of length `prefix`; None if `prefix` is
    /// greater than `self`.
    pub fn minus_prefix(&self, prefix: &Length) -> Option<Length>
        ensures none { IsNone result ↔ IsTrue (is_before self.now prefix.now) }
        ensures rest { IfSome result (λ rest. length_plus prefix.now rest ≡ self.now) }
    {
        if self.before(prefix) {
            return None;
        }
        let lines = self.lines - prefix.lines;
        let columns = if lines > 0 {
            self.columns
        } else {
            self.columns - prefix.columns
        };
        Some(Length { lines, columns })
    }

    /// Returns whether `self` is less than `other`: lines are compared first, then columns.
    pub fn before(&self, other: &Length) -> bool
        ensures { result ≡ is_before self.now other.now }
    {
        self.lines < other.lines || (self.lines == other.lines && self.columns < other.columns)
    }
}

/// Returns `n + by`; None if the sum exceeds [`GREATEST_NUMBER`].
pub fn raised(n: u64, by: u64) -> Option<u64>
    ensures none { IsNone result ↔ (GREATEST_NUMBER < n + by) }
    ensures some { IfSome result (λ sum. sum ≡ n + by) }
{
    if n <= GREATEST_NUMBER && by <= GREATEST_NUMBER - n {
        Some(n + by)
    } else {
        None
    }
}
