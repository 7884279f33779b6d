//! Carries out requests and makes their replies.

ghost use Rattle.std.specs.Prelude.{◌≡◌, ◌<◌, ◌++◌, ◌∷◌, [], ℕ, List, if◌then◌else◌, IfOk, unwrap_or, length};
ghost use Rattle.bracket_rules.specs.Table.{standard_table};
ghost use Rattle.hiding_rules.specs.Marks.{no_marks};
ghost use Rattle.document_rules.specs.Document.{flat_stop, flat_line, flat_value, flat_offset, flat_position, flat_line_count};
ghost use Rattle.group_rules.specs.declared.TheConstants.{DOC_COUNT};
ghost use Rattle.group_rules.specs.Group.{doc_in, group_eol};
ghost use Rattle.group_rules.specs.Going.{group_undo, group_redo};
ghost use Rattle.model_group.specs.State.{documents};
ghost use Rattle.script_lines.specs.Requests.{request_of};
ghost use Rattle.script_lines.specs.Replies.{ok_reply, none_reply, text_reply};
ghost use Rattle.session_rules.specs.Step.{change_reply, edited_at, moved, gone, ops_at, offset_answer, position_answer, text_answer, request_answer};
ghost use Rattle.sessions.specs.Standing.{Turns};
ghost use Rattle.session_rules.specs.Script.{requested};
ghost use Rattle.sessions.specs.Told.{IsAccepted, Tells, TellsBy, TellsIn, TellsOf};
ghost use Rattle.sessions.specs.Bytes.{bytes_of, bytes_of_outcome};
ghost use Rattle.script_lines.specs.Proper.{IsProper};

use crate::bracket_replies::{brackets_reply, level_reply, match_reply};
use crate::change_replies::changes_reply;
use crate::decoration_replies::{deco_reply, decorate_reply, decos_reply};
use crate::joint_replies::joint_reply;
use crate::mirror_replies::{deliver_reply, mirror_reply, mirrored_reply, send_reply};
use crate::ops::ops_at;
use crate::outcome::{Outcome, Refused, Reply};
use crate::search_replies::{find_reply, replace_reply};
use crate::session::Session;
use crate::snapshot_replies::{close_reply, read_reply, snapshot_reply, stops_reply};
use model_core::{BracketTable, Hiding, Model};
use model_group::{DOC_COUNT, Group};
use script_lines::{
    Command, LineOps, Refusal, Request, Short, long_begin, long_end, long_text, request_of,
};
use std::alloc::{AllocError, Global};
use steps::{Steps, Uncounted};
use text_lengths::{Position, Span};
use unit_text::Kind;

pub(crate) fn reply_to_bytes(session: &mut Session, line: &[u8]) -> Outcome
    ensures { TellsOf (λ flat. requested flat (request_of line.now))
        session.old result session.new }
{
    let request = request_of(session.alloc, line)?;
    carry_request(session, request)
}

/// Refuses a document number that is out of range.
fn carry_request(session: &mut Session, request: Request) -> Outcome
    requires { IsProper request }
    ensures { TellsOf (λ flat. request_answer flat request) session.old result session.new }
{
    match request {
        Request::One { doc, command } => {
            if doc >= DOC_COUNT {
                return Err(Refused(Refusal::Unknown));
            }
            carry_out(session, doc, command)
        }
        Request::Joint { edits } => joint_reply(session.alloc, &mut session.group, edits),
    }
}

pub(crate) fn carry_out(session: &mut Session, doc: u64, command: Command) -> Outcome
    requires { doc < DOC_COUNT }
    ensures { Tells session.old doc command result session.new }
{
    let alloc = session.alloc;
    let group = &mut session.group;
    let steps = &mut session.steps;
    match command {
        Command::Open {
            text,
            brackets,
            marks,
            kind,
        } => open_reply(session, doc, text.as_slice(), brackets, marks, kind),
        Command::Edit { ops } => edit_reply(alloc, group, doc, ops),
        Command::Eol { kind } => eol_reply(group, doc, kind),
        Command::Decorate { owner, remove, add } => decorate_reply(group, doc, owner, remove, add),
        Command::Undo => undo_reply(group, doc),
        Command::Redo => redo_reply(group, doc),
        Command::Stop => stop_reply(group, doc),
        Command::Version => versions_reply(group.doc(doc)),
        Command::Changes => changes_reply(alloc, group.doc(doc)),
        Command::Size => size_reply(group.doc(doc)),
        Command::Line { n } => line_reply(alloc, group.doc(doc), n),
        Command::Value { at } => value_reply(alloc, group.doc(doc), at),
        Command::Offset { p } => offset_reply(group.doc(doc), p, steps),
        Command::Position { offset } => position_reply(group.doc(doc), offset, steps),
        Command::Deco { id } => deco_reply(group.doc(doc), id),
        Command::Decos { at, owner } => decos_reply(alloc, group.doc(doc), at, owner),
        Command::Brackets { from, to } => brackets_reply(alloc, group, doc, from, to, steps),
        Command::Match { p } => match_reply(group, doc, p, steps),
        Command::Level { p } => level_reply(group, doc, p, steps),
        Command::Snapshot => snapshot_reply(group, doc),
        Command::Read { id, count } => read_reply(alloc, group, doc, id, count),
        Command::Close { id } => close_reply(group, doc, id),
        Command::Stops { n } => stops_reply(alloc, group.doc(doc), n),
        Command::Find { sought } => find_reply(alloc, group.doc(doc), sought.as_slice(), steps),
        Command::Replace { sought, text } => {
            replace_reply(group, doc, sought.as_slice(), text.as_slice())
        }
        Command::Mirror => mirror_reply(session, doc),
        Command::Send => send_reply(session, doc),
        Command::Deliver { n } => deliver_reply(session, doc, n),
        Command::Mirrored { n } => mirrored_reply(session, doc, n),
    }
}

fn open_reply(
    session: &mut Session,
    doc: u64,
    text: &[u16],
    brackets: Option<BracketTable>,
    marks: Option<Hiding>,
    kind: Kind,
) -> Outcome
    requires { doc < DOC_COUNT }
    ensures { Tells session.old doc (Command.Open text.now brackets marks kind)
        result session.new }
{
    session.open_doc(doc, text, table_of(brackets), kind, hiding_of(marks))?;
    Ok(change_reply(session.group.doc(doc)))
}

/// Returns the given brackets, or else the standard ones.
fn table_of(brackets: Option<BracketTable>) -> BracketTable
    ensures { result ≡ unwrap_or brackets standard_table }
{
    match brackets {
        Some(table) => table,
        None => BracketTable::standard(),
    }
}

/// Returns the given marks, or else none.
fn hiding_of(marks: Option<Hiding>) -> Hiding
    ensures { result ≡ unwrap_or marks no_marks }
{
    match marks {
        Some(hiding) => hiding,
        None => Hiding::none(),
    }
}

fn edit_reply(alloc: Global, group: &mut Group, doc: u64, ops: LineOps) -> Outcome
    requires { doc < DOC_COUNT }
    ensures { let g = documents group.old in
        TellsBy (edited_at g doc (ops_at (doc_in g doc) ops)) g result (documents group.new) }
{
    let ops = ops_at(alloc, group, doc, ops)?;
    group.edit(doc, ops)?;
    Ok(change_reply(group.doc(doc)))
}

fn eol_reply(group: &mut Group, doc: u64, kind: Kind) -> Outcome
    requires { doc < DOC_COUNT }
    ensures { let g = documents group.old in
        TellsBy (moved g doc (group_eol g doc kind)) g result (documents group.new) }
{
    let is_changed = group.set_eol(doc, kind)?;
    Ok(move_reply(is_changed, group.doc(doc)))
}

fn undo_reply(group: &mut Group, doc: u64) -> Outcome
    requires { doc < DOC_COUNT }
    ensures { let g = documents group.old in
        TellsBy (gone g doc (group_undo g doc)) g result (documents group.new) }
{
    let is_moved = group.undo(doc)?;
    Ok(move_reply(is_moved, group.doc(doc)))
}

fn redo_reply(group: &mut Group, doc: u64) -> Outcome
    requires { doc < DOC_COUNT }
    ensures { let g = documents group.old in
        TellsBy (gone g doc (group_redo g doc)) g result (documents group.new) }
{
    let is_moved = group.redo(doc)?;
    Ok(move_reply(is_moved, group.doc(doc)))
}

fn stop_reply(group: &mut Group, doc: u64) -> Outcome
    requires { doc < DOC_COUNT }
    ensures { TellsIn group.old doc (λ f. (ok_reply [], flat_stop f)) result group.new }
{
    group.stop(doc);
    Ok(Reply::Short(Short::ok(&[])))
}

fn versions_reply(model: &Model) -> Outcome
    ensures { let f = model.now.document in
        TellsBy (ok_reply (f.version ∷ f.alternative ∷ []), f) f result f }
{
    let (version, alternative) = model.versions();
    Ok(Reply::Short(Short::ok(&[version, alternative])))
}

fn size_reply(model: &Model) -> Outcome
    ensures { let f = model.now.document in
        TellsBy (ok_reply (length f.units ∷ flat_line_count f ∷ []), f) f result f }
{
    Ok(Reply::Short(Short::ok(&[model.len(), model.line_count()])))
}

fn change_reply(model: &Model) -> Reply
    ensures { bytes_of result ≡ change_reply model.now.document }
{
    Reply::Short(Short::ok(&[model.versions().0, model.len(), model.line_count()]))
}

/// Returns `ok none` if there was nothing to do.
pub(crate) fn move_reply(is_moved: bool, model: &Model) -> Reply
    ensures { bytes_of result ≡ if is_moved then change_reply model.now.document else none_reply }
{
    if is_moved {
        change_reply(model)
    } else {
        Reply::Short(Short::none())
    }
}

fn line_reply(alloc: Global, model: &Model, n: u64) -> Outcome
    ensures { let f = model.now.document in TellsBy (text_answer (flat_line f n), f) f result f }
{
    let mut units = Vec::new(alloc);
    model.line(n, &mut units)?;
    Ok(text_reply(alloc, units.as_slice())?)
}

fn value_reply(alloc: Global, model: &Model, span: Span) -> Outcome
    ensures { let f = model.now.document in TellsBy (text_answer (flat_value f span), f) f result f }
{
    let mut units = Vec::new(alloc);
    model.value(span, &mut units)?;
    Ok(text_reply(alloc, units.as_slice())?)
}

fn offset_reply(model: &Model, p: Position, steps: &mut Steps<Uncounted>) -> Outcome
    ensures answer { bytes_of_outcome result ≡ offset_answer (flat_offset model.now.document p) }
    ensures accepted { IsAccepted result }
{
    let offset = model.offset_at(p, steps).ok_or(Refused(Refusal::Range))?;
    Ok(Reply::Short(Short::ok(&[offset])))
}

fn position_reply(model: &Model, offset: u64, steps: &mut Steps<Uncounted>) -> Outcome
    ensures answer { bytes_of_outcome result
        ≡ position_answer (flat_position model.now.document offset) }
    ensures accepted { IsAccepted result }
{
    let p = model
        .position_at(offset, steps)
        .ok_or(Refused(Refusal::Range))?;
    Ok(Reply::Short(Short::ok(&[p.line, p.column])))
}

pub(crate) fn text_reply(alloc: Global, units: &[u16]) -> Result<Reply, AllocError>
    ensures { IfOk result (λ reply. bytes_of reply ≡ text_reply units.now) }
{
    let mut reply = Vec::with_capacity(alloc, units.len() + 6)?;
    long_begin(&mut reply)?;
    long_text(units, &mut reply)?;
    long_end(&mut reply)?;
    Ok(Reply::Long(reply))
}
