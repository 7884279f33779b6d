//! A generated script on thousands of decorations, whose replies are also computed from a plain list.

use super::draws::Draws;
use super::flat_marks::{FlatEdit, FlatMark};
use script_checks::{plain_difference, push_times};
use std::alloc::{AllocError, Global};
use std::process::Abort;
use std::test::Fail;

/// The number of units at the start, and the number of decorations.
const UNITS: u64 = 15_000;

const MARKS: u64 = 3_000;

const ROUNDS: u64 = 30;

/// The greatest length of a decoration, of the text that an edit removes or inserts, and of a span in a question.
const WIDEST: u64 = 40;

/// A growing script, with its replies and the data from which they are computed.
#[derive(Drop)]
struct Marked {
    alloc: Global,
    draws: Draws,
    marks: Vec<FlatMark>,
    len: u64,
    version: u64,
    next_id: u64,
    script: String,
    replies: String,
}

impl Marked {
    fn new(alloc: Global, seed: u64) -> Marked {
        Marked {
            alloc,
            draws: Draws::new(seed),
            marks: Vec::new(alloc),
            len: UNITS,
            version: 1,
            next_id: 1,
            script: String::new(alloc),
            replies: String::new(alloc),
        }
    }

    fn open(&mut self) -> Result<(), AllocError> {
        self.script.push_str("{\"cmd\":\"open\",\"text\":\"")?;
        push_times("a", UNITS, &mut self.script)?;
        self.script.push_str("\"}\n")?;
        let reply = format!(in self.alloc; "ok 1 {} 1\n", self.len)?;
        self.replies.push_str(reply.as_str())
    }

    /// Returns a span of the text.
    fn span(&mut self) -> (u64, u64) {
        let start = self.draws.below(self.len.saturating_add(1));
        let end = start.saturating_add(self.draws.below(WIDEST));
        (start, end.min(self.len))
    }

    /// Removes `removed` decorations and adds `added`, in one line.
    fn decorate(&mut self, removed: u64, added: u64) -> Result<(), AllocError> {
        let first = self.next_id;
        self.script
            .push_str("{\"cmd\":\"decorate\",\"owner\":1,\"remove\":[")?;
        for number in 0..removed {
            self.remove_one(if number == 0 { "" } else { "," })?;
        }
        self.script.push_str("],\"add\":[")?;
        for number in 0..added {
            self.add_one(if number == 0 { "" } else { "," })?;
        }
        self.script.push_str("]}\n")?;
        let reply = format!(in self.alloc; "ok {first} {added}\n")?;
        self.replies.push_str(reply.as_str())
    }

    fn remove_one(&mut self, before: &str) -> Result<(), AllocError> {
        let at = self.draws.below(self.marks.len() as u64) as usize;
        if at < self.marks.len() {
            let mark = self.marks.swap_remove(at);
            let part = format!(in self.alloc; "{before}{}", mark.id)?;
            self.script.push_str(part.as_str())?;
        }
        Ok(())
    }

    fn add_one(&mut self, before: &str) -> Result<(), AllocError> {
        let (start, end) = self.span();
        let mark = FlatMark {
            start,
            end,
            id: self.next_id,
            stick: self.draws.below(4),
            collapse: self.draws.below(2) == 1,
        };
        let part = format!(in self.alloc;
            "{before}{{\"at\":[{start},{end}],\"stick\":{},\"collapse\":{}}}",
            mark.stick, mark.collapse
        )?;
        self.script.push_str(part.as_str())?;
        self.next_id = self.next_id.saturating_add(1);
        self.marks.push(mark)?;
        Ok(())
    }

    /// Appends an edit, one in four with force.
    fn edit(&mut self) -> Result<(), AllocError> {
        let (start, end) = self.span();
        let edit = FlatEdit {
            start,
            end,
            units: self.draws.below(WIDEST),
            force: self.draws.below(4) == 0,
        };
        let begin = format!(in self.alloc;
            "{{\"cmd\":\"edit\",\"ops\":[{{\"at\":[{start},{end}],\"force\":{},\"text\":\"",
            edit.force
        )?;
        self.script.push_str(begin.as_str())?;
        push_times("b", edit.units, &mut self.script)?;
        self.script.push_str("\"}]}\n")?;
        for mark in self.marks.iter_mut() {
            *mark = mark.after(&edit);
        }
        let len = self.len.saturating_add(edit.units);
        self.len = len.saturating_sub(edit.removed());
        self.version = self.version.saturating_add(1);
        let reply = format!(in self.alloc; "ok {} {} 1\n", self.version, self.len)?;
        self.replies.push_str(reply.as_str())
    }

    /// Asks for the place of one decoration.
    fn ask_for_one(&mut self) -> Result<(), AllocError> {
        let at = self.draws.below(self.marks.len() as u64) as usize;
        let Some(mark) = self.marks.get(at).copied() else {
            return Ok(());
        };
        let line = format!(in self.alloc; "{{\"cmd\":\"deco\",\"id\":{}}}\n", mark.id)?;
        self.script.push_str(line.as_str())?;
        let reply = format!(in self.alloc; "ok {} {} {} 1\n", mark.start, mark.end, mark.stick)?;
        self.replies.push_str(reply.as_str())
    }

    /// Asks for the decorations that touch a span.
    fn ask_for_span(&mut self, start: u64, end: u64) -> Result<(), AllocError> {
        let line = format!(in self.alloc; "{{\"cmd\":\"decos\",\"at\":[{start},{end}]}}\n")?;
        self.script.push_str(line.as_str())?;
        let mut touching = Vec::new(self.alloc);
        for mark in self.marks.iter() {
            if mark.start <= end && start <= mark.end {
                touching.push(*mark)?;
            }
        }
        touching.sort_unstable();
        self.replies.push_str("ok")?;
        for mark in touching.iter() {
            let part = format!(in self.alloc; " {} {} {}", mark.id, mark.start, mark.end)?;
            self.replies.push_str(part.as_str())?;
        }
        self.replies.push('\n')
    }

    fn go_on(&mut self) -> Result<(), AllocError> {
        self.edit()?;
        self.ask_for_one()?;
        let (start, end) = self.span();
        self.ask_for_span(start, end)?;
        self.decorate(3, 2)
    }
}

/// Edits, removals and questions among many decorations, and at the end the place of each.
#[test]
fn marks_move_as_one_by_one(rt: HostRuntime) -> Result<(), Fail> {
    expect_same_marks(&rt)?;
    Ok(())
}

fn expect_same_marks<R: AllocGlobal + Abort>(rt: &R) -> Result<(), AllocError> {
    let mut marked = Marked::new(rt.alloc(), 7);
    marked.open()?;
    marked.decorate(0, MARKS)?;
    for _round in 0..ROUNDS {
        marked.go_on()?;
    }
    marked.decorate(MARKS / 2, 0)?;
    let len = marked.len;
    marked.ask_for_span(0, len)?;
    let (script, replies) = (marked.script.as_bytes(), marked.replies.as_bytes());
    let found = plain_difference(rt.alloc(), "marks", script, replies, 0)?;
    assert!(rt; found.is_none(), "{found:?}");
    Ok(())
}
