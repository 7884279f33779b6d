// Groups the texts of a table by their first unit, so that a position of a line is compared with few of them.
ghost use Rattle.std.specs.Prelude.{◌≡◌, ◌+◌, ◌%◌, ◌<◌, ◌++◌, length, IfOk, OnOk};
ghost use Rattle.std.specs.List.{All};
ghost use Rattle.bracket_rules.specs.Table.{standing, longer};
ghost use Rattle.bracket_scan.specs.Starts.{begins_in, start_if, starts_in, text_at, longest_among};

use bracket_rules::Token;
use std::alloc::{AllocError, Global};
use unit_text::Units;

/// The number of buckets for the first units of the texts.
pub(crate) const BUCKETS: u16 = 64;

/// A text of the table: the kind of its pair, and whether it is the opening text of the pair.
#[derive(Clone, Copy)]
pub(crate) struct Start {
    pub kind: u64,
    pub opening: bool,
}

/// Returns the texts of the pairs whose first unit is in the bucket.
pub(crate) fn starts_in(
    alloc: Global,
    bucket: u16,
    pairs: &[(Units, Units)],
) -> Result<Vec<Start>, AllocError>
    ensures { IfOk result (λ starts. starts.items ≡ starts_in bucket 0 pairs.now) }
{
    let mut starts = Vec::new(alloc);
    for (i, pair) in pairs.iter().enumerate() {
        let kind = i as u64;
        push_if(&mut starts, begins_in(bucket, &pair.0), kind, true)?;
        push_if(&mut starts, begins_in(bucket, &pair.1), kind, false)?;
    }
    Ok(starts)
}

fn push_if(
    starts: &mut Vec<Start>,
    begins: bool,
    kind: u64,
    opening: bool,
) -> Result<(), AllocError>
    ensures { OnOk result (starts.new.items ≡ starts.old.items ++ start_if begins kind opening) }
{
    if begins {
        starts.push(Start { kind, opening })?;
    }
    Ok(())
}

fn begins_in(bucket: u16, text: &Units) -> bool
    ensures { result ≡ begins_in bucket text.now }
{
    match text.as_slice() {
        [] => false,
        [first, ..] => *first % BUCKETS == bucket,
    }
}

/// Returns the longest of these texts with which the units begin, as a token at position `at`.
pub(crate) fn longest_among(
    pairs: &[(Units, Units)],
    at: u64,
    starts: &[Start],
    units: &[u16],
) -> Option<Token>
    requires { All (λ s. s.kind < length pairs.now) starts.now }
    ensures { result ≡ longest_among pairs.now at starts.now units.now }
{
    let mut best = None;
    for start in starts {
        best = longer(best, standing(at, *start, text_at(pairs, start), units));
    }
    best
}

fn text_at<'a>(pairs: &'a [(Units, Units)], start: &Start) -> &'a [u16]
    requires { start.now.kind < length pairs.now }
    ensures { result.now ≡ text_at pairs.now start.now }
{
    let pair = &pairs[start.kind as usize];
    if start.opening {
        pair.0.as_slice()
    } else {
        pair.1.as_slice()
    }
}

fn standing(at: u64, start: Start, text: &[u16], units: &[u16]) -> Option<Token>
    ensures { result ≡ standing at start.kind start.opening text.now units.now }
{
    if !units.starts_with(text) {
        return None;
    }
    Some(Token {
        at,
        len: text.len() as u64,
        kind: start.kind,
        opening: start.opening,
    })
}

fn longer(best: Option<Token>, next: Option<Token>) -> Option<Token>
    ensures { result ≡ longer best next }
{
    match (best, next) {
        (None, other) => other,
        (Some(t), None) => Some(t),
        (Some(t), Some(u)) => Some(if t.len < u.len { u } else { t }),
    }
}
