//! Copies lists to the caller.

ghost use Rattle.std.specs.Prelude.{◌≡◌, length};
ghost use Rattle.textmodel_c.specs.Told.{Listed, ListedFor};

use crate::status::Status;
use model_core::ModelError;

// Copies all items to the front of `out`. Sets `count` to their number. Returns `Short` and writes no item if `out` is too short.
fn hand_out<T: Copy>(found: &[T], out: &mut [T], count: &mut u64) -> Status
    ensures { Listed result found.now out.old out.new count.new }
{
    *count = found.len() as u64;
    if found.len() > out.len() {
        return Status::Short;
    }
    let (front, _) = out.split_at_mut(found.len());
    front.copy_from_slice(found);
    Status::Ok
}

/// Copies the items, or returns the status of the error.
pub(crate) fn hand_out_of<T: Copy>(
    answer: Result<(), ModelError>,
    found: &[T],
    out: &mut [T],
    count: &mut u64,
) -> Status
    ensures { ListedFor answer result found.now out.old out.new count.old count.new }
{
    match answer {
        Ok(()) => hand_out(found, out, count),
        Err(error) => Status::of_error(error),
    }
}
