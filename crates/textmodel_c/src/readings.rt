//! Snapshots, and the stops of a cursor.

ghost use Rattle.std.specs.Prelude.{◌≡◌, ◌<◌, [], Err, length};
ghost use Rattle.group_rules.specs.declared.TheConstants.{DOC_COUNT};
ghost use Rattle.document_rules.specs.Snapshots.{flat_snapshot, flat_peek_of, flat_skipped, flat_close_of};
ghost use Rattle.document_rules.specs.Outcomes.{Changes, ChangesWith};
ghost use Rattle.textmodel_c.specs.Documents.{document_in, KeepsOthers, OnDocument};
ghost use Rattle.textmodel_c.specs.Rules.{columns_in, flat_stop_list, in_utf8, units_for};
ghost use Rattle.textmodel_c.specs.Statuses.{number_of};
ghost use Rattle.textmodel_c.specs.Told.{count_in, Changed, FoundFor, Leaves, LeavesWith, Lists, ListsHeld, Reads, ReadsHeld, ReadsUtf8, ReadsUtf8Held, Shelved};

use crate::columns::Columns;
use crate::handle::{Handle, taken_for};
use crate::lists::hand_out_of;
use crate::positions::encoding_of;
use crate::status::Status;
use crate::text::MOST_BYTES_A_UNIT;
use crate::utf8::utf8_out;
use model_core::{Encoding, Model, ModelError, Position};
use model_group::Group;
use std::alloc::Global;

fn snapshot(group: &mut Group, doc: u64) -> Result<u64, ModelError>
    requires { doc < DOC_COUNT }
    ensures { OnDocument doc (λ f g. ChangesWith f.shelf.next_id result f g (flat_snapshot f))
        group.old group.new }
{
    group.snapshot(doc)
}

/// Opens a snapshot of the present text, to be read from its start. Sets `id` to its id. `Limit` if 1,000 are open or the id would be above
/// 2^63 - 1.
#[unsafe(no_mangle)]
pub extern "C" fn tm_snapshot(alloc: Global, handle: &mut Handle, doc: u64, id: &mut u64) -> u32
    ensures document { LeavesWith result doc handle.old.held handle.new.held (id.new ≡ id.old)
        (Shelved result doc id.old id.new) }
{
    let mut contents = taken_for!(handle, doc, alloc);
    let answer = snapshot(&mut contents.session.group, doc);
    handle.put(contents);
    Status::of_given(answer, id).number()
}

fn skip(group: &mut Group, doc: u64, id: u64, count: u64)
    requires { doc < DOC_COUNT }
    ensures { OnDocument doc (λ f g. g ≡ flat_skipped f id count) group.old group.new }
{
    group.skip(doc, id, count);
}

fn peek_out(alloc: Global, model: &Model, id: u64, out: &mut [u16], count: &mut u64) -> Status
    ensures { Lists result out.old out.new count.old count.new
        (flat_peek_of model.now.document id (length out.old)) }
{
    let mut units = Vec::new(alloc);
    let answer = model.peek(id, out.len() as u64, &mut units);
    hand_out_of(answer, &units, out, count)
}

fn read_out(
    alloc: Global,
    group: &mut Group,
    doc: u64,
    id: u64,
    out: &mut [u16],
    count: &mut u64,
) -> Status
    requires { doc < DOC_COUNT }
    ensures document { Reads result id out.old out.new count.old count.new
        (document_in group.old doc) (document_in group.new doc) }
    ensures others { KeepsOthers doc group.old group.new }
{
    let status = peek_out(alloc, group.doc(doc), id, out, count);
    if matches!(status, Status::Ok) {
        skip(group, doc, id, *count);
    }
    status
}

/// Reads on in a snapshot: copies as many of its next units as fit into `out`, one fewer if that would split a surrogate pair. Sets `count`
/// to their number. `Unknown` if no snapshot with this id is open; else `Range` if `out` has room for less than 2 units.
#[unsafe(no_mangle)]
pub extern "C" fn tm_raw_read(
    alloc: Global,
    handle: &mut Handle,
    doc: u64,
    id: u64,
    out: &mut [u16],
    count: &mut u64,
) -> u32
    ensures document { ReadsHeld result doc id handle.old.held handle.new.held
        out.old out.new count.old count.new }
{
    let mut contents = taken_for!(handle, doc, alloc);
    let status = read_out(alloc, &mut contents.session.group, doc, id, out, count);
    handle.put(contents);
    status.number()
}

fn peek_utf8_out(
    alloc: Global,
    model: &Model,
    id: u64,
    out: &mut [u8],
    count: &mut u64,
    units: &mut u64,
) -> Status
    ensures bytes { Lists result out.old out.new count.old count.new
        (in_utf8 (flat_peek_of model.now.document id (units_for (length out.old)))) }
    ensures units { result ≡ Status.Ok
        → units.new ≡ count_in (flat_peek_of model.now.document id (units_for (length out.old))) }
{
    let room = out.len() as u64 / MOST_BYTES_A_UNIT;
    let mut read = Vec::new(alloc);
    if let Err(error) = model.peek(id, room, &mut read) {
        return Status::of_error(error);
    }
    *units = read.len() as u64;
    utf8_out(alloc, Ok(()), &read, out, count)
}

fn read_utf8_out(
    alloc: Global,
    group: &mut Group,
    doc: u64,
    id: u64,
    out: &mut [u8],
    count: &mut u64,
) -> Status
    requires { doc < DOC_COUNT }
    ensures document { ReadsUtf8 result id out.old out.new count.old count.new
        (document_in group.old doc) (document_in group.new doc) }
    ensures others { KeepsOthers doc group.old group.new }
{
    let mut units = 0;
    let status = peek_utf8_out(alloc, group.doc(doc), id, out, count, &mut units);
    if matches!(status, Status::Ok) {
        skip(group, doc, id, units);
    }
    status
}

/// Like `tm_raw_read`, in UTF-8. Reads at most a third as many units as `out` has bytes, since a unit takes at most 3. Sets `count` to the
/// number of bytes. `Unknown` if no snapshot with this id is open; else `Range` if `out` has room for less than 6 bytes.
#[unsafe(no_mangle)]
pub extern "C" fn tm_raw_read_utf8(
    alloc: Global,
    handle: &mut Handle,
    doc: u64,
    id: u64,
    out: &mut [u8],
    count: &mut u64,
) -> u32
    ensures document { ReadsUtf8Held result doc id handle.old.held handle.new.held
        out.old out.new count.old count.new }
{
    let mut contents = taken_for!(handle, doc, alloc);
    let status = read_utf8_out(alloc, &mut contents.session.group, doc, id, out, count);
    handle.put(contents);
    status.number()
}

fn close(group: &mut Group, doc: u64, id: u64) -> Result<(), ModelError>
    requires { doc < DOC_COUNT }
    ensures document { OnDocument doc (λ f g. Changes result f g (flat_close_of f id))
        group.old group.new }
    ensures sure { ¬ (result ≡ Err ModelError.Memory) }
{
    group.close(doc, id)
}

/// Closes a snapshot. Its id is not used again. `Unknown` if no snapshot with this id is open. Never `Memory`.
#[unsafe(no_mangle)]
pub extern "C" fn tm_close(alloc: Global, handle: &mut Handle, doc: u64, id: u64) -> u32
    ensures document { Leaves result doc handle.old.held handle.new.held
        (Changed result doc (λ f. flat_close_of f id)) }
    ensures sure { ¬ (result ≡ number_of Status.Memory) }
{
    let mut contents = taken_for!(handle, doc, alloc);
    let answer = close(&mut contents.session.group, doc, id);
    handle.put(contents);
    Status::of_done(answer).number()
}

// Converts columns of a line from UTF-16 units into the encoding.
fn append_columns(
    alloc: Global,
    model: &Model,
    encoding: Encoding,
    line: u64,
    stops: &[u64],
    out: &mut Vec<u64>,
) -> Result<(), ModelError>
    requires { out.old.items ≡ [] }
    ensures { FoundFor result out.new.items
        (columns_in model.now.document encoding line stops.now) }
{
    let mut columns = Columns::new(alloc, encoding);
    for stop in stops {
        let column = columns.column(
            model,
            Position {
                line,
                column: *stop,
            },
        )?;
        out.push(column).map_err(|_| ModelError::Memory)?;
    }
    Ok(())
}

fn stops_in(
    alloc: Global,
    model: &Model,
    encoding: u32,
    n: u64,
    out: &mut Vec<u64>,
) -> Result<(), ModelError>
    requires { out.old.items ≡ [] }
    ensures { FoundFor result out.new.items (flat_stop_list model.now.document encoding n) }
{
    let encoding = encoding_of(encoding).ok_or(ModelError::Range)?;
    let mut stops = Vec::new(alloc);
    model.stops(n, &mut stops)?;
    append_columns(alloc, model, encoding, n, &stops, out)
}

fn stops_out(
    alloc: Global,
    model: &Model,
    encoding: u32,
    n: u64,
    out: &mut [u64],
    count: &mut u64,
) -> Status
    ensures { Lists result out.old out.new count.old count.new
        (flat_stop_list model.now.document encoding n) }
{
    let mut found = Vec::new(alloc);
    let answer = stops_in(alloc, model, encoding, n, &mut found);
    hand_out_of(answer, &found, out, count)
}

/// Lists the columns of a line at which a cursor may stop. Sets `count` to their number. `encoding` is their unit, as in `tm_position`.
/// `Range` if there is no such line or the encoding is invalid; `Short` if `out` is too short.
#[unsafe(no_mangle)]
pub extern "C" fn tm_raw_stops(
    alloc: Global,
    handle: &mut Handle,
    doc: u64,
    n: u64,
    encoding: u32,
    out: &mut [u64],
    count: &mut u64,
) -> u32
    ensures kept { handle.new.held ≡ handle.old.held }
    ensures stops { ListsHeld result doc handle.old.held out.old out.new count.old count.new
        (λ f. flat_stop_list f encoding n) }
{
    let contents = taken_for!(handle, doc, alloc);
    let status = stops_out(alloc, contents.document(doc), encoding, n, out, count);
    handle.put(contents);
    status.number()
}
