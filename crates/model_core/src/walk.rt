//! Steps of undo: the next one on either way, and the one that a change joins or begins.

ghost use Rattle.std.specs.Prelude.{◌≡◌, ◌<◌, length, slice_get, is_some, option_map};
ghost use Rattle.std.specs.Option.{option_copied};
ghost use Rattle.edit_stack.specs.Element.{step_of};
ghost use Rattle.model_core.specs.History.{is_alone, kept_with};
ghost use Rattle.model_core.specs.Ways.{next_steps, passed, alternative_after};

use edit_stack::{EditStack, Element};
use model_page::{Change, Way};

/// Returns the next step on the way.
pub(crate) fn next_step(history: &EditStack<Change>, way: Way) -> Option<&Element<Change>>
    ensures { option_map step_of (option_copied result)
        ≡ slice_get (next_steps way history.now.stack) 0 }
{
    match way {
        Way::Back => history.undo_next(),
        Way::On => history.redo_next(),
    }
}

/// Returns whether there is a next step on the way.
#[tactic(auto, using(crate::proofs::Stepping::mapped_twice))]
pub(crate) fn has_next(history: &EditStack<Change>, way: Way) -> bool
    ensures { result ≡ is_some (slice_get (next_steps way history.now.stack) 0) }
{
    next_step(history, way).is_some()
}

/// Returns the alternative version after the step.
pub(crate) fn alternative_after(step: &Element<Change>, way: Way) -> u64
    ensures { result ≡ alternative_after way (step_of step.now) }
{
    match way {
        Way::Back => step.alt_before(),
        Way::On => step.alt_after(),
    }
}

/// Moves the next step to the other list.
pub(crate) fn pass_step(history: &mut EditStack<Change>, way: Way)
    requires { 0 < length (next_steps way history.old.stack) }
    ensures { history.new.stack ≡ passed way history.old.stack }
{
    match way {
        Way::Back => history.undone(),
        Way::On => history.redone(),
    }
}

/// Adds a change, with the alternative versions before and after it. Room for it is reserved.
pub(crate) fn keep(history: &mut EditStack<Change>, change: Change, before: u64, after: u64)
    requires { 0 < history.old.spare }
    ensures { history.new.stack ≡ kept_with history.old.stack change before after }
{
    if is_alone(&change) {
        history.stop();
        history.push(change, before, after);
        history.stop();
    } else {
        history.push(change, before, after);
    }
}

// Returns whether the change is its own step.
fn is_alone(change: &Change) -> bool
    ensures { result ≡ is_alone change.now }
{
    match change {
        Change::Ops { .. } => false,
        Change::Endings(_) => true,
    }
}
