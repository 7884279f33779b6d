//! Search for a text in another one, which is read run by run, and the edits that replace all occurrences.
#![tactic(auto)]

mod borders;
mod lanes;
mod search;
mod starts;

ghost use Rattle.std.specs.Prelude.{◌≡◌, ◌+◌, ◌*◌, ◌<◌, ◌≤◌, ◌^◌, ◌++◌, length, take, drop, IfOk, OnOk, OnErr};
ghost use Rattle.search_rules.specs.Occurrences.{occurrences, AreOccurrences};
ghost use Rattle.search_rules.specs.Replacing.{replacing};

use crate::borders::borders_of;
use crate::search::Search;
use std::alloc::{AllocError, Global};
use steps::Steps;
use text_lengths::Span;
use text_rules::Op;
use unit_text::{ByRuns, Flat, Kind, Reader, Units};

/// Appends the spans of the occurrences of `sought`, which is not empty, from left to right and without overlaps. After an error `out`
/// is unchanged. For a text of n units and m sought units it takes at most 4 * (n + m) looks at a unit, each of which is a step, and
/// allocates m numbers beside `out`.
pub fn find_all<F: Flat, L>(
    text: &F,
    sought: &[u16],
    out: &mut Vec<Span>,
    looks: &mut Steps<L>,
) -> Result<(), AllocError>
    requires some { 0 < length sought.now }
    ensures ok { OnOk result (out.new.items ≡ out.old.items
        ++ occurrences (F.kind text.now) (F.units text.now) sought.now) }
    ensures occurrences { OnOk result (AreOccurrences (F.kind text.now) (F.units text.now) sought.now
        (drop (length out.old.items) out.new.items)) }
    ensures err { OnErr result (out.new.items ≡ out.old.items) }
    ensures cost { looks.new ≤ looks.old + 4 * (length (F.units text.now) + length sought.now) }
{
    find_in(ByRuns::new(text), text.kind(), sought, out, looks)
}

/// Does the same as `find_all` for a text of the kind `kind`, read from `reader` to its end.
pub fn find_in<'t, R: Reader<'t>, L>(
    reader: R,
    kind: Kind,
    sought: &[u16],
    out: &mut Vec<Span>,
    looks: &mut Steps<L>,
) -> Result<(), AllocError>
    requires some { 0 < length sought.now }
    requires small { length (R.left reader) < 2 ^ 64 }
    ensures ok { OnOk result (out.new.items
        ≡ out.old.items ++ occurrences kind (R.left reader) sought.now) }
    ensures occurrences { OnOk result (AreOccurrences kind (R.left reader) sought.now
        (drop (length out.old.items) out.new.items)) }
    ensures err { OnErr result (out.new.items ≡ out.old.items) }
    ensures cost { looks.new ≤ looks.old + 4 * (length (R.left reader) + length sought.now) }
{
    let borders = borders_of(*out.allocator(), kind, sought, looks)?;
    let mut search = Search {
        kind,
        sought,
        borders: &borders,
        at: 0,
        before: 0,
        matched: 0,
    };
    let before = out.len();
    if let Err(error) = search.through_all(reader, out, looks) {
        out.truncate(before);
        return Err(error);
    }
    Ok(())
}

/// Returns the edits that replace each occurrence of `sought`, which is not empty, by `with`. They force no decoration.
pub fn ops_for<'t, R: Reader<'t>, L>(
    alloc: Global,
    reader: R,
    kind: Kind,
    sought: &[u16],
    with: &[u16],
    looks: &mut Steps<L>,
) -> Result<Vec<Op>, AllocError>
    requires some { 0 < length sought.now }
    requires small { length (R.left reader) < 2 ^ 64 }
    ensures { IfOk result (λ ops. ops.items
        ≡ replacing (occurrences kind (R.left reader) sought.now) with.now) }
{
    let mut spans = Vec::new(alloc);
    find_in(reader, kind, sought, &mut spans, looks)?;
    ops_at(alloc, &spans, with)
}

fn ops_at(alloc: Global, spans: &[Span], with: &[u16]) -> Result<Vec<Op>, AllocError>
    ensures { IfOk result (λ ops. ops.items ≡ replacing spans.now with.now) }
{
    let mut ops = Vec::with_capacity(alloc, spans.len())?;
    for span in spans {
        ops.push(Op {
            span: *span,
            text: Units::copy_of(alloc, with)?,
            force: false,
        })?;
    }
    Ok(ops)
}
