//! The reply to the question what the last change did.

ghost use Rattle.std.specs.Prelude.{◌≡◌, ◌++◌, OnOk};
ghost use Rattle.std.specs.List.{flat_map};
ghost use Rattle.model_page.specs.InTurn.{told_op};
ghost use Rattle.session_rules.specs.Step.{changes_reply, edit_part};
ghost use Rattle.sessions.specs.Told.{TellsBy};

use crate::outcome::{Outcome, Reply};
use model_core::{Changes, ContentChange, Model};
use script_lines::{long_begin, long_end, long_number, long_text};
use std::alloc::{AllocError, Global};

pub(crate) fn changes_reply(alloc: Global, model: &Model) -> Outcome
    ensures { let f = model.now.document in TellsBy (changes_reply f, f) f result f }
{
    let mut reply = Vec::new(alloc);
    long_begin(&mut reply)?;
    long_number(model.versions().0, &mut reply)?;
    push_changes(model.changes(), &mut reply)?;
    long_end(&mut reply)?;
    Ok(Reply::Long(reply))
}

fn push_changes(mut changes: Changes<'_>, reply: &mut Vec<u8>) -> Result<(), AllocError>
    ensures { OnOk result (reply.new.items ≡ reply.old.items ++ flat_map edit_part changes.entry) }
{
    while let Some(change) = changes.next() {
        push_change(change, reply)?;
    }
    Ok(())
}

fn push_change(change: ContentChange<'_>, reply: &mut Vec<u8>) -> Result<(), AllocError>
    ensures { OnOk result (reply.new.items ≡ reply.old.items ++ edit_part (told_op change.entry)) }
{
    long_number(change.span.start, reply)?;
    long_number(change.span.end, reply)?;
    long_text(change.text, reply)
}
