//! Where a cursor may stop in a line.
#![tactic(auto)]

ghost use Rattle.std.specs.Prelude.{◌≡◌, ◌≤◌, ◌++◌, true, length, take, vec_len, OnOk, OnErr};
ghost use Rattle.unicode_segmentation.specs.Grapheme.{graphemes};
ghost use Rattle.document_rules.specs.Stops.{stops_of, starts_from, width};

use std::alloc::{AllocError, Global};
use unicode_segmentation::UnicodeSegmentation;

/// Appends the columns, counted from 1, at which the extended grapheme clusters of a line's content start; an unpaired surrogate counts as
/// U+FFFD. On an error `out` is unchanged.
pub fn stops(alloc: Global, content: &[u16], out: &mut Vec<u64>) -> Result<(), AllocError>
    ensures ok { OnOk result (out.new.items ≡ out.old.items ++ stops_of content.now) }
    ensures err { OnErr result (out.new.items ≡ out.old.items) }
{
    let text = String::from_utf16_lossy(alloc, content)?;
    let before = out.len();
    let pushed = push_stops(text.as_str(), out);
    if pushed.is_err() {
        out.truncate(before);
    }
    pushed
}

// On an error `out` may keep some of the appended columns.
fn push_stops(text: &str, out: &mut Vec<u64>) -> Result<(), AllocError>
    ensures ok { OnOk result (out.new.items
        ≡ out.old.items ++ starts_from 1 (graphemes true text.now)) }
    ensures before { take (vec_len out.old) out.new.items ≡ out.old.items }
{
    let mut column = 1;
    for cluster in text.graphemes(true) {
        out.push(column)?;
        column += width(cluster);
    }
    Ok(())
}

// Returns the number of UTF-16 units of the cluster.
fn width(cluster: &str) -> u64
    ensures units { result ≡ width cluster.now }
    ensures within { result ≤ length cluster.now }
{
    let mut width = 0;
    for c in cluster.chars() {
        width += c.len_utf16() as u64;
    }
    width
}
