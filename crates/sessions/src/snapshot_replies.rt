//! Replies to the commands on snapshots, and to the question where a cursor may stop.

ghost use Rattle.std.specs.Prelude.{◌≡◌, ◌<◌, IfOk};
ghost use Rattle.script_lines.specs.Replies.{ok_reply};
ghost use Rattle.document_rules.specs.Snapshots.{flat_snapshot, flat_peek_of, flat_close_of};
ghost use Rattle.document_rules.specs.Stops.{flat_stops};
ghost use Rattle.group_rules.specs.declared.TheConstants.{DOC_COUNT};
ghost use Rattle.session_rules.specs.Step.{snapshot_answer, read_answer, close_answer, stops_answer};
ghost use Rattle.sessions.specs.Told.{TellsBy, TellsIn};
ghost use Rattle.sessions.specs.Bytes.{bytes_of};

use crate::outcome::{Outcome, Reply};
use crate::reply::text_reply;
use model_core::Model;
use model_group::Group;
use script_lines::{Short, long_begin, long_end, long_number};
use std::alloc::{AllocError, Global};

pub(crate) fn snapshot_reply(group: &mut Group, doc: u64) -> Outcome
    requires { doc < DOC_COUNT }
    ensures { TellsIn group.old doc (λ f. snapshot_answer f (flat_snapshot f)) result group.new }
{
    let id = group.snapshot(doc)?;
    Ok(Reply::Short(Short::ok(&[id])))
}

/// Moves on in the snapshot only after the reply is made. So on `! memory` the snapshot is unchanged.
pub(crate) fn read_reply(alloc: Global, group: &mut Group, doc: u64, id: u64, count: u64) -> Outcome
    requires { doc < DOC_COUNT }
    ensures { TellsIn group.old doc (λ f. read_answer f id (flat_peek_of f id count)) result group.new }
{
    let mut units = Vec::new(alloc);
    group.doc(doc).peek(id, count, &mut units)?;
    let reply = text_reply(alloc, units.as_slice())?;
    group.skip(doc, id, units.len() as u64);
    Ok(reply)
}

pub(crate) fn close_reply(group: &mut Group, doc: u64, id: u64) -> Outcome
    requires { doc < DOC_COUNT }
    ensures { TellsIn group.old doc (λ f. close_answer f (flat_close_of f id)) result group.new }
{
    group.close(doc, id)?;
    Ok(Reply::Short(Short::ok(&[])))
}

pub(crate) fn stops_reply(alloc: Global, model: &Model, n: u64) -> Outcome
    ensures { let f = model.now.document in TellsBy (stops_answer (flat_stops f n), f) f result f }
{
    let mut columns = Vec::new(alloc);
    model.stops(n, &mut columns)?;
    Ok(numbers_reply(alloc, columns.as_slice())?)
}

fn numbers_reply(alloc: Global, numbers: &[u64]) -> Result<Reply, AllocError>
    ensures { IfOk result (λ reply. bytes_of reply ≡ ok_reply numbers.now) }
{
    let mut reply = Vec::new(alloc);
    long_begin(&mut reply)?;
    for number in numbers {
        long_number(*number, &mut reply)?;
    }
    long_end(&mut reply)?;
    Ok(Reply::Long(reply))
}
