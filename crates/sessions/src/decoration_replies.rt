//! Replies to the commands on decorations.

ghost use Rattle.std.specs.Prelude.{◌≡◌, ◌<◌, length, IfOk};
ghost use Rattle.document_rules.specs.Document.{flat_decorate, flat_deco, flat_decos};
ghost use Rattle.group_rules.specs.declared.TheConstants.{DOC_COUNT};
ghost use Rattle.script_lines.specs.Replies.{ok_reply};
ghost use Rattle.session_rules.specs.Step.{decorated, deco_answer, decos_answer, deco_numbers};
ghost use Rattle.sessions.specs.Told.{IsAccepted, TellsBy, TellsIn};
ghost use Rattle.sessions.specs.Bytes.{bytes_of, bytes_of_outcome};

use crate::outcome::{Outcome, Refused, Reply};
use model_core::{Deco, Model};
use model_group::Group;
use script_lines::{Ids, NewDecos, Refusal, Short, long_begin, long_end, long_number};
use std::alloc::{AllocError, Global};
use text_lengths::Span;

pub(crate) fn decorate_reply(
    group: &mut Group,
    doc: u64,
    owner: u64,
    remove: Ids,
    add: NewDecos,
) -> Outcome
    requires { doc < DOC_COUNT }
    ensures { TellsIn group.old doc
        (λ f. decorated f (length add) (flat_decorate f owner remove add)) result group.new }
{
    let added = add.as_slice();
    let first = group.decorate(doc, owner, remove.as_slice(), added)?;
    Ok(Reply::Short(Short::ok(&[first, added.len() as u64])))
}

pub(crate) fn deco_reply(model: &Model, id: u64) -> Outcome
    ensures answer { bytes_of_outcome result ≡ deco_answer (flat_deco model.now.document id) }
    ensures accepted { IsAccepted result }
{
    let deco = model.get_deco(id).ok_or(Refused(Refusal::Unknown))?;
    let Span { start, end } = deco.span;
    Ok(Reply::Short(Short::ok(&[start, end, deco.stick, deco.owner])))
}

pub(crate) fn decos_reply(alloc: Global, model: &Model, at: Span, owner: Option<u64>) -> Outcome
    ensures { let f = model.now.document in
        TellsBy (decos_answer (flat_decos f at owner), f) f result f }
{
    let mut found = Vec::new(alloc);
    model.decos_in(at, owner, &mut found)?;
    Ok(list_reply(alloc, found.as_slice())?)
}

fn list_reply(alloc: Global, decos: &[Deco]) -> Result<Reply, AllocError>
    ensures { IfOk result (λ reply. bytes_of reply ≡ ok_reply (deco_numbers decos.now)) }
{
    let mut reply = Vec::new(alloc);
    long_begin(&mut reply)?;
    for deco in decos {
        long_number(deco.id, &mut reply)?;
        long_number(deco.span.start, &mut reply)?;
        long_number(deco.span.end, &mut reply)?;
    }
    long_end(&mut reply)?;
    Ok(Reply::Long(reply))
}
