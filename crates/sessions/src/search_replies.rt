//! Replies to the search commands.

ghost use Rattle.std.specs.Prelude.{◌≡◌, ◌<◌, length, IfOk};
ghost use Rattle.search_rules.specs.Replacing.{flat_find};
ghost use Rattle.group_rules.specs.declared.TheConstants.{DOC_COUNT};
ghost use Rattle.group_rules.specs.Group.{group_replace_all};
ghost use Rattle.model_group.specs.State.{documents};
ghost use Rattle.session_rules.specs.Step.{moved, spans_reply};
ghost use Rattle.sessions.specs.Told.{TellsBy};
ghost use Rattle.sessions.specs.Bytes.{bytes_of};

use crate::outcome::{Outcome, Reply};
use crate::reply::move_reply;
use model_core::Model;
use model_group::Group;
use script_lines::{long_begin, long_end, long_number};
use std::alloc::{AllocError, Global};
use steps::{Steps, Uncounted};
use text_lengths::Span;

pub(crate) fn find_reply(
    alloc: Global,
    model: &Model,
    sought: &[u16],
    steps: &mut Steps<Uncounted>,
) -> Outcome
    requires some { 0 < length sought.now }
    ensures { let f = model.now.document in
        TellsBy (spans_reply (flat_find f sought.now), f) f result f }
{
    let mut found = Vec::new(alloc);
    model.find_counted(sought, &mut found, steps)?;
    Ok(list_reply(alloc, found.as_slice())?)
}

fn list_reply(alloc: Global, spans: &[Span]) -> Result<Reply, AllocError>
    ensures { IfOk result (λ reply. bytes_of reply ≡ spans_reply spans.now) }
{
    let mut reply = Vec::new(alloc);
    long_begin(&mut reply)?;
    for span in spans {
        long_number(span.start, &mut reply)?;
        long_number(span.end, &mut reply)?;
    }
    long_end(&mut reply)?;
    Ok(Reply::Long(reply))
}

pub(crate) fn replace_reply(group: &mut Group, doc: u64, sought: &[u16], text: &[u16]) -> Outcome
    requires there { doc < DOC_COUNT }
    requires some { 0 < length sought.now }
    ensures { let g = documents group.old in
        TellsBy (moved g doc (group_replace_all g doc sought.now text.now)) g result
        (documents group.new) }
{
    let is_changed = group.replace_all(doc, sought, text)?;
    Ok(move_reply(is_changed, group.doc(doc)))
}
