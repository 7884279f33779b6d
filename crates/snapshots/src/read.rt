//! Reads a prefix of a text in spans.

ghost use Rattle.std.specs.Prelude.{◌≡◌, ◌-◌, ◌≤◌, ◌++◌, if◌then◌else◌, take, drop, OnOk, OnErr, vec_len};
ghost use Rattle.std.specs.List.{All};
ghost use Rattle.chunk_buffers.specs.Chunks.{LiesIn};
ghost use Rattle.unit_text.specs.Units.{cuts_pair};
ghost use Rattle.snapshot_rules.specs.Snapshots.{front};
ghost use Rattle.snapshots.specs.Spans.{spelled};

use chunk_buffers::{ChunkSpan, Chunks};
use std::alloc::AllocError;
use unit_text::cuts_pair;

/// Appends the first `count` units of the spans, or one fewer if a surrogate pair would be cut. On an error `out` is unchanged.
pub(crate) fn push_front(
    spans: &[ChunkSpan],
    count: u64,
    chunks: &Chunks,
    out: &mut Vec<u16>,
) -> Result<(), AllocError>
    requires { All (LiesIn chunks.now.buffers) spans.now }
    ensures ok { OnOk result (out.new.items
        ≡ out.old.items ++ front count (spelled chunks.now.buffers spans.now)) }
    ensures err { OnErr result (out.new.items ≡ out.old.items) }
{
    let before = out.len();
    // One more unit shows whether a pair would be cut.
    let pushed = push_units(spans, count.saturating_add(1), chunks, out);
    if pushed.is_err() {
        out.truncate(before);
        return pushed;
    }
    keep_front(before, count, out);
    Ok(())
}

// Appends the first units of the spans, at most `most`. On an error `out` may keep some of them.
fn push_units(
    spans: &[ChunkSpan],
    most: u64,
    chunks: &Chunks,
    out: &mut Vec<u16>,
) -> Result<(), AllocError>
    requires { All (LiesIn chunks.now.buffers) spans.now }
    ensures ok { OnOk result (out.new.items
        ≡ out.old.items ++ take most (spelled chunks.now.buffers spans.now)) }
    ensures before { take (vec_len out.old) out.new.items ≡ out.old.items }
{
    let mut left = most;
    for span in spans {
        if left == 0 {
            return Ok(());
        }
        let units = chunks.units(*span);
        let count = left.min(span.units as u64);
        out.extend_from_slice(&units[..count as usize])?;
        left -= count;
    }
    Ok(())
}

// Truncates `out` to its first `before` units and the next `count`, or one fewer if a pair would be cut.
fn keep_front(before: usize, count: u64, out: &mut Vec<u16>)
    requires { before ≤ vec_len out.old }
    ensures { out.new.items ≡ take before out.old.items ++ front count (drop before out.old.items) }
{
    let (_, units) = out.split_at(before);
    if count >= units.len() as u64 {
        return;
    }
    let kept = front_len(units, count);
    out.truncate(before + kept as usize);
}

// Returns `count`, or one less if a prefix of `count` units would cut a pair.
fn front_len(units: &[u16], count: u64) -> u64
    ensures length { result ≡ (if cuts_pair units.now count then count - 1 else count) }
    ensures within { result ≤ count }
{
    if cuts_pair(units, count) {
        return count - 1;
    }
    count
}
