//! A mirror that follows a document by its events.

use super::documents::{open, put};
use mirror_model::{Event, Mirror, Tally};
use model_core::Model;
use std::alloc::{AllocError, Global};
use std::process::Abort;
use std::test::Fail;
use text_lengths::Span;

/// Sends two events: the second too early, then the first twice, then the second again.
pub fn expect_a_mirror_that_follows<R: AllocGlobal + Abort>(
    rt: &R,
    model: &mut Model,
) -> Result<(), Fail> {
    let events = events_of_two_edits(rt.alloc(), model)?;
    expect_text_of_both(rt, &events)
}

fn expect_text_of_both<R: AllocGlobal + Abort>(rt: &R, events: &[Event]) -> Result<(), Fail> {
    let mut mirror = Mirror::of_text(rt.alloc(), 1, vec![in rt.alloc(); 0x61, 0x62]?)?;
    expect_both_taken(rt, &mut mirror, events)
}

fn expect_both_taken<R: AllocGlobal + Abort>(
    rt: &R,
    mirror: &mut Mirror,
    events: &[Event],
) -> Result<(), Fail> {
    let told = mirror.follow(events);
    let wanted = Tally {
        applied: 2,
        old: 1,
        gaps: 1,
    };
    assert_eq!(rt; told, Ok(wanted));
    let mut line = Vec::new(rt.alloc());
    if mirror.line_count() == 1 {
        mirror.line(1, &mut line)?;
    }
    assert_eq!(rt; line.as_slice(), [0x78, 0x61, 0x62, 0x79].as_slice());
    assert_eq!(rt; (mirror.version(), mirror.len()), (3, 4));
    Ok(())
}

/// Returns the events of two edits: `x` before `ab`, and `y` after it.
fn events_of_two_edits(alloc: Global, model: &mut Model) -> Result<Vec<Event>, Fail> {
    open(model, &[0x61, 0x62])?;
    put(alloc, model, Span { start: 0, end: 0 }, &[0x78])?;
    let mut firsts = twice(alloc, model)?;
    put(alloc, model, Span { start: 3, end: 3 }, &[0x79])?;
    let mut seconds = twice(alloc, model)?;
    let mut events = Vec::new(alloc);
    move_one(&mut seconds, &mut events)?;
    move_one(&mut firsts, &mut events)?;
    move_one(&mut firsts, &mut events)?;
    move_one(&mut seconds, &mut events)?;
    Ok(events)
}

/// Returns the last change as an event, twice.
fn twice(alloc: Global, model: &Model) -> Result<Vec<Event>, AllocError> {
    let mut events = Vec::new(alloc);
    for _ in 0..2 {
        if let Some(event) = model.last_event()? {
            events.push(event)?;
        }
    }
    Ok(events)
}

fn move_one(from: &mut Vec<Event>, to: &mut Vec<Event>) -> Result<(), AllocError> {
    if let Some(event) = from.pop() {
        to.push(event)?;
    }
    Ok(())
}
