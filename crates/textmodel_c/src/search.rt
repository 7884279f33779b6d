//! Finds a text in the document, and replaces all occurrences.

ghost use Rattle.std.specs.Prelude.{◌≡◌, ◌<◌, [], length, filter, map, take, IfOk, OnOk};
ghost use Rattle.document_rules.specs.Outcomes.{Moves};
ghost use Rattle.group_rules.specs.declared.TheConstants.{DOC_COUNT};
ghost use Rattle.model_group.specs.State.{documents};
ghost use Rattle.search_rules.specs.Replacing.{flat_find};
ghost use Rattle.textmodel_c.specs.Rules.{found_list, found_of, is_within, flat_find_list, group_replace_some};
ghost use Rattle.textmodel_c.specs.Told.{FoundFor, LeavesWith, Lists, ListsHeld, Replaced, Replaces};
ghost use Rattle.textmodel_c.specs.Utf8.{ListsInUtf8, ReplacesInUtf8, TellsFault, TellsFaults};

use crate::handle::{Handle, taken_for};
use crate::lists::hand_out_of;
use crate::status::Status;
use crate::utf8::taken_units;
use model_core::{Model, ModelError, Span};
use model_group::Group;
use std::alloc::{AllocError, Global};
use steps::Steps;

/// A span at which the sought text occurs.
#[repr(C)]
#[derive(Clone, Copy)]
pub struct Found {
    pub start: u64,
    pub end: u64,
}

fn found_of(span: Span) -> Found
    ensures { result ≡ found_of span }
{
    Found {
        start: span.start,
        end: span.end,
    }
}

// Returns whether the span starts at or after `from`; with `back`, whether it ends at or before it.
fn is_within(span: Span, from: u64, back: bool) -> bool
    ensures { result ≡ is_within from back span }
{
    if back {
        span.end <= from
    } else {
        span.start >= from
    }
}

// Appends the spans of `is_within` in order.
fn append_within(
    spans: &[Span],
    from: u64,
    back: bool,
    out: &mut Vec<Found>,
) -> Result<(), AllocError>
    requires { out.old.items ≡ [] }
    ensures { OnOk result
        (out.new.items ≡ map found_of (filter (is_within from back) spans.now)) }
{
    for span in spans {
        if is_within(*span, from, back) {
            out.push(found_of(*span))?;
        }
    }
    Ok(())
}

fn append_found(
    spans: &[Span],
    from: u64,
    back: bool,
    most: u64,
    out: &mut Vec<Found>,
) -> Result<(), AllocError>
    requires { out.old.items ≡ [] }
    ensures { OnOk result
        (out.new.items ≡ take most (found_list from back spans.now)) }
{
    append_within(spans, from, back, out)?;
    if back {
        out.reverse();
    }
    out.truncate(most.min(out.len() as u64) as usize);
    Ok(())
}

fn found_in(
    alloc: Global,
    model: &Model,
    sought: &[u16],
    from: u64,
    back: bool,
    most: u64,
    out: &mut Vec<Found>,
) -> Result<(), ModelError>
    requires { out.old.items ≡ [] }
    ensures { FoundFor result out.new.items
        (flat_find_list model.now.document sought.now from back most) }
{
    if sought.is_empty() {
        return Err(ModelError::Range);
    }
    let mut spans = Vec::new(alloc);
    model
        .find_counted(sought, &mut spans, &mut Steps::new())
        .map_err(|_| ModelError::Memory)?;
    append_found(&spans, from, back, most, out).map_err(|_| ModelError::Memory)
}

fn found_out(
    alloc: Global,
    model: &Model,
    sought: &[u16],
    from: u64,
    back: bool,
    most: u64,
    out: &mut [Found],
    count: &mut u64,
) -> Status
    ensures { Lists result out.old out.new count.old count.new
        (flat_find_list model.now.document sought.now from back most) }
{
    let mut found = Vec::new(alloc);
    let answer = found_in(alloc, model, sought, from, back, most, &mut found);
    hand_out_of(answer, &found, out, count)
}

/// Lists where the sought text occurs, at most `most` spans, none of which overlap. They start at or after `from`, from left to right; with
/// `back` they end at or before `from`, the last one first. Sets `count` to their number. `Range` if the sought text is empty; `Short` if
/// `out` is too short.
#[unsafe(no_mangle)]
pub extern "C" fn tm_raw_find(
    alloc: Global,
    handle: &mut Handle,
    doc: u64,
    sought: &[u16],
    from: u64,
    back: bool,
    most: u64,
    out: &mut [Found],
    count: &mut u64,
) -> u32
    ensures kept { handle.new.held ≡ handle.old.held }
    ensures found { ListsHeld result doc handle.old.held out.old out.new count.old count.new
        (λ f. flat_find_list f sought.now from back most) }
{
    let contents = taken_for!(handle, doc, alloc);
    let model = contents.document(doc);
    let status = found_out(alloc, model, sought, from, back, most, out, count);
    handle.put(contents);
    status.number()
}

/// Like `tm_raw_find`, with a text in UTF-8. `Encoding` if it is invalid; `bad` is then the offset of the first invalid byte.
#[unsafe(no_mangle)]
pub extern "C" fn tm_raw_find_utf8(
    alloc: Global,
    handle: &mut Handle,
    doc: u64,
    sought: &[u8],
    from: u64,
    back: bool,
    most: u64,
    out: &mut [Found],
    count: &mut u64,
    bad: &mut u64,
) -> u32
    ensures kept { handle.new.held ≡ handle.old.held }
    ensures found { ListsInUtf8 result sought.now doc handle.old.held
        out.old out.new count.old count.new (λ units f. flat_find_list f units from back most) }
    ensures fault { TellsFault sought.now bad.old bad.new }
{
    let units = taken_units!(alloc, sought, bad);
    tm_raw_find(alloc, handle, doc, &units, from, back, most, out, count)
}

// Returns how many times the text occurs in the document.
fn count_found(alloc: Global, model: &Model, sought: &[u16]) -> Result<u64, AllocError>
    requires { 0 < length sought.now }
    ensures { IfOk result (λ n. n ≡ length (flat_find model.now.document sought.now)) }
{
    let mut spans = Vec::new(alloc);
    model.find_counted(sought, &mut spans, &mut Steps::new())?;
    Ok(spans.len() as u64)
}

fn replace_found(
    group: &mut Group,
    doc: u64,
    sought: &[u16],
    with: &[u16],
) -> Result<bool, ModelError>
    requires there { doc < DOC_COUNT }
    requires some { 0 < length sought.now }
    ensures { Moves result (documents group.old) (documents group.new)
        (group_replace_some doc sought.now with.now (documents group.old)) }
{
    group.replace_all(doc, sought, with)
}

fn replace_some(
    alloc: Global,
    group: &mut Group,
    doc: u64,
    sought: &[u16],
    with: &[u16],
    count: &mut u64,
) -> Result<bool, ModelError>
    requires { doc < DOC_COUNT }
    ensures { Replaces doc sought.now with.now count.old count.new result
        group.old group.new }
{
    if sought.is_empty() {
        return Err(ModelError::Range);
    }
    let found = count_found(alloc, group.doc(doc), sought).map_err(|_| ModelError::Memory)?;
    let is_changed = replace_found(group, doc, sought, with)?;
    if is_changed {
        *count = found;
    }
    Ok(is_changed)
}

/// Replaces all occurrences that `tm_raw_find` finds, as one change. The version goes up by 1. The change is its own step of undo. Sets
/// `count` to their number; `Nothing` if there are none. `Range` if the sought text is empty, else `Limit` if the new text or the version
/// would pass its limit.
#[unsafe(no_mangle)]
pub extern "C" fn tm_raw_replace_all(
    alloc: Global,
    handle: &mut Handle,
    doc: u64,
    sought: &[u16],
    with: &[u16],
    count: &mut u64,
) -> u32
    ensures document { LeavesWith result doc handle.old.held handle.new.held (count.new ≡ count.old)
        (Replaced result doc sought.now with.now count.old count.new) }
{
    let mut contents = taken_for!(handle, doc, alloc);
    let group = &mut contents.session.group;
    let answer = replace_some(alloc, group, doc, sought, with, count);
    handle.put(contents);
    Status::of_step(answer).number()
}

/// Like `tm_raw_replace_all`, with texts in UTF-8. `Encoding` if one is invalid; `bad` is then the offset of its first invalid byte. The
/// sought text is checked first.
#[unsafe(no_mangle)]
pub extern "C" fn tm_raw_replace_all_utf8(
    alloc: Global,
    handle: &mut Handle,
    doc: u64,
    sought: &[u8],
    with: &[u8],
    count: &mut u64,
    bad: &mut u64,
) -> u32
    ensures document { ReplacesInUtf8 result doc sought.now with.now
        handle.old.held handle.new.held count.old count.new }
    ensures fault { TellsFaults result sought.now with.now bad.old bad.new }
{
    let sought = taken_units!(alloc, sought, bad);
    let with = taken_units!(alloc, with, bad);
    tm_raw_replace_all(alloc, handle, doc, &sought, &with, count)
}
