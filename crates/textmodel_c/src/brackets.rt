//! Brackets.

ghost use Rattle.std.specs.Prelude.{◌≡◌, ◌<◌, true, [], Ok, Err, map, IfSome, OnOk};
ghost use Rattle.group_rules.specs.declared.TheConstants.{DOC_COUNT};
ghost use Rattle.std.specs.List.{All};
ghost use Rattle.document_rules.specs.Outcomes.{Gives};
ghost use Rattle.document_rules.specs.Brackets.{flat_brackets, flat_match, flat_level, IsSmall};
ghost use Rattle.model_group.specs.State.{documents};
ghost use Rattle.textmodel_c.specs.Columns.{Follow};
ghost use Rattle.textmodel_c.specs.Documents.{document_in, IsFreshDoc};
ghost use Rattle.textmodel_c.specs.Rules.{all_of, at, bracket_in, is_utf16, number_of_state, or_range, partner_in, position_in, flat_bracket_list, flat_partner, flat_level_at};
ghost use Rattle.textmodel_c.specs.Statuses.{number_of};
ghost use Rattle.textmodel_c.specs.Told.{FoundFor, FoundHeld, GivenHeld, KeepsText, Lists, ListsHeld};

use crate::columns::Columns;
use crate::contents::document;
use crate::handle::{Handle, taken_for};
use crate::lists::hand_out_of;
use crate::positions::{encoding_of, position_in};
use crate::status::Status;
use model_core::{Encoding, Entry, Model, ModelError, Position};
use model_group::Group;
use std::alloc::Global;
use steps::Steps;

/// A bracket: its line, column and length, in the unit of the encoding; its kind, which is the index of its pair in the table; its nesting
/// level; and its state: 0 opening, closed later; 1 closing, opened before; 2 opening, never closed; 3 closing, never opened.
#[repr(C)]
#[derive(Clone, Copy)]
pub struct Bracket {
    pub line: u64,
    pub column: u64,
    pub length: u64,
    pub kind: u64,
    pub level: u64,
    pub state: u32,
}

/// The other bracket of a pair.
#[repr(C)]
#[derive(Clone, Copy)]
pub struct Partner {
    pub line: u64,
    pub column: u64,
    pub length: u64,
}

fn number_of_state(state: model_core::Status) -> u32
    ensures { result ≡ number_of_state state }
{
    match state {
        model_core::Status::PairedOpening => 0,
        model_core::Status::PairedClosing => 1,
        model_core::Status::Unclosed => 2,
        model_core::Status::Unexpected => 3,
    }
}

fn bracket_in(columns: &mut Columns, model: &Model, entry: Entry) -> Result<Bracket, ModelError>
    requires follows { Follow columns.old model.now.document }
    requires small { IsSmall entry.place }
    ensures bracket { Gives result
        (bracket_in model.now.document columns.old.encoding entry) }
    ensures follows { Follow columns.new model.now.document }
    ensures encoding { columns.new.encoding ≡ columns.old.encoding }
{
    let at = Position {
        line: entry.place.lines + 1,
        column: entry.place.columns + 1,
    };
    let (column, length) = columns.extent(model, at, entry.len)?;
    Ok(Bracket {
        line: at.line,
        column,
        length,
        kind: entry.kind,
        level: entry.level,
        state: number_of_state(entry.status),
    })
}

fn append_brackets(
    alloc: Global,
    model: &Model,
    encoding: Encoding,
    entries: &[Entry],
    out: &mut Vec<Bracket>,
) -> Result<(), ModelError>
    requires none { out.old.items ≡ [] }
    requires small { All (λ entry. IsSmall entry.place) entries.now }
    ensures { FoundFor result out.new.items
        (all_of (map (bracket_in model.now.document encoding) entries.now)) }
{
    let mut columns = Columns::new(alloc, encoding);
    for entry in entries {
        let bracket = bracket_in(&mut columns, model, *entry)?;
        out.push(bracket).map_err(|_| ModelError::Memory)?;
    }
    Ok(())
}

fn entries_in(
    group: &mut Group,
    doc: u64,
    from: u64,
    to: u64,
    out: &mut Vec<Entry>,
) -> Result<(), ModelError>
    requires there { doc < DOC_COUNT }
    requires none { out.old.items ≡ [] }
    ensures found { FoundFor result out.new.items
        (flat_brackets (document_in group.old doc) from to) }
    ensures small { OnOk result (All (λ entry. IsSmall entry.place) out.new.items) }
    ensures documents { documents group.new ≡ documents group.old }
{
    group.brackets_in(doc, from, to, out, &mut Steps::new())
}

fn brackets_in(
    alloc: Global,
    group: &mut Group,
    doc: u64,
    encoding: u32,
    from: u64,
    to: u64,
    out: &mut Vec<Bracket>,
) -> Result<(), ModelError>
    requires there { doc < DOC_COUNT }
    requires none { out.old.items ≡ [] }
    ensures found { FoundFor result out.new.items
        (flat_bracket_list (document_in group.old doc) encoding from to) }
    ensures documents { documents group.new ≡ documents group.old }
{
    let encoding = encoding_of(encoding).ok_or(ModelError::Range)?;
    let mut entries = Vec::new(alloc);
    entries_in(group, doc, from, to, &mut entries)?;
    append_brackets(alloc, document(group, doc), encoding, &entries, out)
}

fn brackets_out(
    alloc: Global,
    group: &mut Group,
    doc: u64,
    encoding: u32,
    from: u64,
    to: u64,
    out: &mut [Bracket],
    count: &mut u64,
) -> Status
    requires { doc < DOC_COUNT }
    ensures brackets { Lists result out.old out.new count.old count.new
        (flat_bracket_list (document_in group.old doc) encoding from to) }
    ensures documents { documents group.new ≡ documents group.old }
{
    let mut found = Vec::new(alloc);
    let answer = brackets_in(alloc, group, doc, encoding, from, to, &mut found);
    hand_out_of(answer, &found, out, count)
}

/// Lists the brackets of the lines `from` to `to`, both included, in the order of the text. Sets `count` to their number. `encoding` is the
/// unit of columns and lengths, as in `tm_position`. `Range` if a line is missing, `from` is above `to`, the encoding is invalid or a
/// bracket begins or ends inside a surrogate pair. `Short` if `out` is too short.
#[unsafe(no_mangle)]
pub extern "C" fn tm_raw_brackets(
    alloc: Global,
    handle: &mut Handle,
    doc: u64,
    from: u64,
    to: u64,
    encoding: u32,
    out: &mut [Bracket],
    count: &mut u64,
) -> u32
    ensures kept { KeepsText handle.old.held handle.new.held }
    ensures brackets { ListsHeld result doc handle.old.held out.old out.new count.old count.new
        (λ f. flat_bracket_list f encoding from to) }
{
    let mut contents = taken_for!(handle, doc, alloc);
    let status = brackets_out(
        alloc,
        &mut contents.session.group,
        doc,
        encoding,
        from,
        to,
        out,
        count,
    );
    handle.put(contents);
    status.number()
}

fn match_at(
    group: &mut Group,
    doc: u64,
    at: Position,
) -> Result<Option<(Position, u64)>, ModelError>
    requires { doc < DOC_COUNT }
    ensures partner { Gives result (flat_match (document_in group.old doc) at) }
    ensures sure { IsFreshDoc doc group.old → ¬ (result ≡ Err ModelError.Memory) }
    ensures documents { documents group.new ≡ documents group.old }
{
    group.match_at(doc, at, &mut Steps::new())
}

// Converts a position into UTF-16 units. `Range` if it is invalid.
fn position_as(
    alloc: Global,
    model: &Model,
    encoding: Encoding,
    at: Position,
) -> Result<Position, ModelError>
    ensures position { Gives result (or_range (position_in model.now.document encoding at) Ok) }
    ensures sure { is_utf16 encoding ≡ true → ¬ (result ≡ Err ModelError.Memory) }
{
    position_in(alloc, model, encoding, at)?.ok_or(ModelError::Range)
}

// Converts a found bracket from UTF-16 units into the encoding.
fn partner_in(
    alloc: Global,
    model: &Model,
    encoding: Encoding,
    found: Option<(Position, u64)>,
) -> Result<Option<Partner>, ModelError>
    ensures partner { Gives result (partner_in model.now.document encoding found) }
    ensures sure { is_utf16 encoding ≡ true → ¬ (result ≡ Err ModelError.Memory) }
{
    let Some((at, units)) = found else {
        return Ok(None);
    };
    let line = at.line;
    let (column, length) = Columns::new(alloc, encoding).extent(model, at, units)?;
    Ok(Some(Partner {
        line,
        column,
        length,
    }))
}

fn partner_at(
    alloc: Global,
    group: &mut Group,
    doc: u64,
    encoding: u32,
    at: Position,
) -> Result<Option<Partner>, ModelError>
    requires { doc < DOC_COUNT }
    ensures partner { Gives result (flat_partner (document_in group.old doc) encoding at) }
    ensures sure { encoding ≡ 16 → IsFreshDoc doc group.old → ¬ (result ≡ Err ModelError.Memory) }
    ensures documents { documents group.new ≡ documents group.old }
{
    let encoding = encoding_of(encoding).ok_or(ModelError::Range)?;
    let at = position_as(alloc, document(group, doc), encoding, at)?;
    let found = match_at(group, doc, at)?;
    partner_in(alloc, document(group, doc), encoding, found)
}

/// Sets `partner` to the bracket that matches the one at this position. `Nothing` if no bracket of a pair starts there. `encoding` is the
/// unit of columns and lengths, as in `tm_position`. `Range` if the position or the encoding is invalid. Never `Memory` if the encoding is
/// 16 and the text was parsed since its last change.
#[unsafe(no_mangle)]
pub extern "C" fn tm_match(
    alloc: Global,
    handle: &mut Handle,
    doc: u64,
    line: u64,
    column: u64,
    encoding: u32,
    partner: &mut Partner,
) -> u32
    ensures kept { KeepsText handle.old.held handle.new.held }
    ensures partner { FoundHeld result doc handle.old.held partner.old partner.new
        (λ f. flat_partner f encoding (at line column)) }
    ensures sure { encoding ≡ 16 → IfSome handle.old.held (λ held.
        IsFreshDoc doc held.session.group → ¬ (result ≡ number_of Status.Memory)) }
{
    let mut contents = taken_for!(handle, doc, alloc);
    let group = &mut contents.session.group;
    let answer = partner_at(alloc, group, doc, encoding, Position { line, column });
    handle.put(contents);
    Status::of_found(answer, partner).number()
}

fn level_at(group: &mut Group, doc: u64, at: Position) -> Result<u64, ModelError>
    requires { doc < DOC_COUNT }
    ensures level { Gives result (flat_level (document_in group.old doc) at) }
    ensures sure { IsFreshDoc doc group.old → ¬ (result ≡ Err ModelError.Memory) }
    ensures documents { documents group.new ≡ documents group.old }
{
    group.level_at(doc, at, &mut Steps::new())
}

fn level_as(
    alloc: Global,
    group: &mut Group,
    doc: u64,
    encoding: u32,
    at: Position,
) -> Result<u64, ModelError>
    requires { doc < DOC_COUNT }
    ensures level { Gives result (flat_level_at (document_in group.old doc) encoding at) }
    ensures sure { encoding ≡ 16 → IsFreshDoc doc group.old → ¬ (result ≡ Err ModelError.Memory) }
    ensures documents { documents group.new ≡ documents group.old }
{
    let encoding = encoding_of(encoding).ok_or(ModelError::Range)?;
    let at = position_as(alloc, document(group, doc), encoding, at)?;
    level_at(group, doc, at)
}

/// Sets `level` to how many brackets are open after those that start before the position. `encoding` is the unit of its column, as in
/// `tm_position`. `Range` if the position or the encoding is invalid. Never `Memory` if the encoding is 16 and the text was parsed since
/// its last change.
#[unsafe(no_mangle)]
pub extern "C" fn tm_level(
    alloc: Global,
    handle: &mut Handle,
    doc: u64,
    line: u64,
    column: u64,
    encoding: u32,
    level: &mut u64,
) -> u32
    ensures kept { KeepsText handle.old.held handle.new.held }
    ensures level { GivenHeld result doc handle.old.held level.old level.new
        (λ f. flat_level_at f encoding (at line column)) }
    ensures sure { encoding ≡ 16 → IfSome handle.old.held (λ held.
        IsFreshDoc doc held.session.group → ¬ (result ≡ number_of Status.Memory)) }
{
    let mut contents = taken_for!(handle, doc, alloc);
    let group = &mut contents.session.group;
    let answer = level_as(alloc, group, doc, encoding, Position { line, column });
    handle.put(contents);
    Status::of_given(answer, level).number()
}
