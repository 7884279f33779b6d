//! Replies to the commands on brackets.

ghost use Rattle.std.specs.Prelude.{◌≡◌, ◌<◌, ◌++◌, IfOk, OnOk};
ghost use Rattle.std.specs.List.{All};
ghost use Rattle.document_rules.specs.Brackets.{flat_brackets, flat_match, flat_level, IsSmall};
ghost use Rattle.group_rules.specs.declared.TheConstants.{DOC_COUNT};
ghost use Rattle.group_rules.specs.Group.{doc_in};
ghost use Rattle.model_group.specs.State.{documents};
ghost use Rattle.session_rules.specs.Step.{status_letter, entry_part, entries_reply, brackets_answer, match_answer, level_answer};
ghost use Rattle.sessions.specs.Told.{TellsBy};
ghost use Rattle.sessions.specs.Bytes.{bytes_of};

use crate::outcome::{Outcome, Reply};
use model_core::{Entry, Status};
use model_group::Group;
use script_lines::{Short, long_begin, long_end, long_mark, long_number};
use std::alloc::{AllocError, Global};
use steps::{Steps, Uncounted};
use text_lengths::Position;

pub(crate) fn brackets_reply(
    alloc: Global,
    group: &mut Group,
    doc: u64,
    from: u64,
    to: u64,
    steps: &mut Steps<Uncounted>,
) -> Outcome
    requires { doc < DOC_COUNT }
    ensures { let g = documents group.old in
        TellsBy (brackets_answer (flat_brackets (doc_in g doc) from to), g) g result
        (documents group.new) }
{
    let mut entries = Vec::new(alloc);
    group.brackets_in(doc, from, to, &mut entries, steps)?;
    Ok(list_reply(alloc, entries.as_slice())?)
}

fn list_reply(alloc: Global, entries: &[Entry]) -> Result<Reply, AllocError>
    requires { All (λ e. IsSmall e.place) entries.now }
    ensures { IfOk result (λ reply. bytes_of reply ≡ entries_reply entries.now) }
{
    let mut reply = Vec::new(alloc);
    long_begin(&mut reply)?;
    for entry in entries {
        push_entry(entry, &mut reply)?;
    }
    long_end(&mut reply)?;
    Ok(Reply::Long(reply))
}

fn push_entry(entry: &Entry, reply: &mut Vec<u8>) -> Result<(), AllocError>
    requires { IsSmall entry.now.place }
    ensures { OnOk result (reply.new.items ≡ reply.old.items ++ entry_part entry.now) }
{
    long_number(entry.place.lines + 1, reply)?;
    long_number(entry.place.columns + 1, reply)?;
    long_number(entry.len, reply)?;
    long_number(entry.kind, reply)?;
    long_mark(status_letter(entry.status), reply)?;
    long_number(entry.level, reply)
}

fn status_letter(status: Status) -> u8
    ensures { result ≡ status_letter status }
{
    match status {
        Status::PairedOpening => b'o',
        Status::PairedClosing => b'c',
        Status::Unclosed => b'u',
        Status::Unexpected => b'x',
    }
}

pub(crate) fn match_reply(
    group: &mut Group,
    doc: u64,
    p: Position,
    steps: &mut Steps<Uncounted>,
) -> Outcome
    requires { doc < DOC_COUNT }
    ensures { let g = documents group.old in
        TellsBy (match_answer (flat_match (doc_in g doc) p), g) g result (documents group.new) }
{
    match group.match_at(doc, p, steps)? {
        Some((partner, len)) => {
            Ok(Reply::Short(Short::ok(&[partner.line, partner.column, len])))
        }
        None => Ok(Reply::Short(Short::none())),
    }
}

pub(crate) fn level_reply(
    group: &mut Group,
    doc: u64,
    p: Position,
    steps: &mut Steps<Uncounted>,
) -> Outcome
    requires { doc < DOC_COUNT }
    ensures { let g = documents group.old in
        TellsBy (level_answer (flat_level (doc_in g doc) p), g) g result (documents group.new) }
{
    let level = group.level_at(doc, p, steps)?;
    Ok(Reply::Short(Short::ok(&[level])))
}
