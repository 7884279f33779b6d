//! Changes as edits in sequence.

ghost use Rattle.std.specs.Prelude.{◌≡◌, ◌∷◌, ◌<◌, ◌≤◌, [], length, MatchOption};
ghost use Rattle.std.specs.Option.{ForNone};
ghost use Rattle.edit_stack.specs.Element.{step_of};
ghost use Rattle.model_page.specs.InTurn.{told_op, begun, edits_along, all_edits_along, edits_of_first, parts_along};
ghost use Rattle.model_page.specs.Ways.{rest_on};

use crate::apply::place_at;
use crate::change::{Change, Way, batch_for};
use crate::line_endings::last_ending;
use crate::placed::OpView;
use edit_stack::Element;
use std::marker::Model;
use text_lengths::Span;

/// One of a sequence of edits: the text replaces the span. The offsets refer to the text after the edits before it.
#[derive(Clone, Copy)]
pub struct ContentChange<'c> {
    pub span: Span,
    pub text: &'c [u16],
}

/// The remaining edits of a change on a way. Contracts see them as a list.
#[derive(Drop)]
struct ChangeEdits<'c> {
    change: &'c Change,
    way: Way,
    /// How many ops of the batch, or lines of the text, remain.
    left: usize,
}

impl<'c> Model for ChangeEdits<'c> {
    ghost use Rattle.std.specs.Prelude.{List, ◌≤◌};
    ghost use Rattle.text_rules.specs.declared.Op.{Op};
    ghost use Rattle.model_page.specs.InTurn.{edits_of_first, parts_along};

    ghost Value = { List Op };

    ghost view = { λ e. edits_of_first e.left e.way e.change.now };

    ghost invariant = { λ e. e.left ≤ parts_along e.way e.change.now };
}

impl<'c> ChangeEdits<'c> {
    fn of(change: &'c Change, way: Way) -> ChangeEdits<'c>
        ensures { result ≡ edits_along way change.now }
    {
        let left = parts_of(change, way);
        ChangeEdits { change, way, left }
    }

    /// Returns the next edit; None after the last one.
    fn next(&mut self) -> Option<ContentChange<'c>>
        ensures told { MatchOption result (self.old ≡ [])
            (λ change. self.old ≡ told_op change ∷ self.new) }
        ensures end { ForNone result (self.new ≡ []) }
    {
        match self.change {
            Change::Ops { batch, inverse } => {
                let at = self.left.checked_sub(1)?;
                self.left = at;
                let OpView { span, text, .. } = batch_for(batch, inverse, self.way).op(at);
                Some(ContentChange { span, text })
            }
            Change::Endings(recast) => {
                let (at, edit) = last_ending(recast, self.way, self.left)?;
                self.left = at;
                Some(edit)
            }
        }
    }
}

// Returns the number of ops of the batch on this way, or of lines of the texts.
fn parts_of(change: &Change, way: Way) -> usize
    ensures count { result ≡ parts_along way change.now }
    ensures all { edits_of_first result way change.now ≡ edits_along way change.now }
{
    match change {
        Change::Ops { batch, inverse } => batch_for(batch, inverse, way).len(),
        Change::Endings(recast) => recast.side(way).moves().len(),
    }
}

/// The remaining edits of a step on a way, in order. Contracts see them as a list.
#[derive(Drop)]
pub struct StepEdits<'s> {
    step: &'s Element<Change>,
    way: Way,
    /// How many changes were begun.
    done: usize,
    edits: Option<ChangeEdits<'s>>,
}

impl<'s> Model for StepEdits<'s> {
    ghost use Rattle.std.specs.Prelude.{List, ◌++◌, ◌≤◌, length};
    ghost use Rattle.text_rules.specs.declared.Op.{Op};
    ghost use Rattle.edit_stack.specs.Element.{step_of};
    ghost use Rattle.model_page.specs.InTurn.{all_edits_along, begun};
    ghost use Rattle.model_page.specs.Ways.{rest_on};

    ghost Value = { List Op };

    ghost view = { λ s. begun s.edits ++ all_edits_along s.way (rest_on s.way s.done (step_of s.step.now).changes) };

    ghost invariant = { λ s. s.done ≤ length (step_of s.step.now).changes };
}

impl<'s> StepEdits<'s> {
    /// Starts after the first `done` changes on the way.
    pub fn new(step: &'s Element<Change>, way: Way, done: usize) -> StepEdits<'s>
        requires { done ≤ length (step_of step.now).changes }
        ensures { result ≡ all_edits_along way (rest_on way done (step_of step.now).changes) }
    {
        StepEdits {
            step,
            way,
            done,
            edits: None,
        }
    }

    /// Returns the next edit; None after the last one.
    pub fn next(&mut self) -> Option<ContentChange<'s>>
        ensures told { MatchOption result (self.old ≡ [])
            (λ change. self.old ≡ told_op change ∷ self.new) }
        ensures end { ForNone result (self.new ≡ []) }
    {
        loop {
            if let Some(change) = next_begun(&mut self.edits) {
                return Some(change);
            }
            if self.done == self.step.len() {
                return None;
            }
            let at = place_at(self.way, self.step.len(), self.done);
            self.done += 1;
            self.edits = Some(ChangeEdits::of(self.step.change(at), self.way));
        }
    }
}

// Returns the next edit of the present change; None after its last edit, or if no change was begun.
fn next_begun<'s>(edits: &mut Option<ChangeEdits<'s>>) -> Option<ContentChange<'s>>
    ensures told { MatchOption result (begun edits.old ≡ [])
        (λ change. begun edits.old ≡ told_op change ∷ begun edits.new) }
    ensures end { ForNone result (begun edits.new ≡ []) }
{
    edits.as_mut()?.next()
}
