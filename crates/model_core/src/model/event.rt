//! The last change of a document, as an event.

ghost use Rattle.std.specs.Prelude.{◌≡◌, ◌↔◌, ◌<◌, Some, false, length, IfOk, IfSome, IsNone};
ghost use Rattle.batch_rules.specs.Events.{TakeTo};
ghost use Rattle.document_rules.specs.Document.{FlatText, flat_event};
ghost use Rattle.model_core.specs.History.{last_batches, last_of, latest_steps};

use crate::latest::Latest;
use crate::model::Model;
use crate::walk::next_step;
use edit_batches::{Event, SharedBatch};
use edit_stack::EditStack;
use model_page::{Change, Way, batch_along, batches_along};
use std::alloc::{AllocError, Global};

impl Model {
    /// Returns whether there is a last change. False in version 1 only.
    pub fn has_last_event(&self) -> bool
        ensures { (result ≡ false) ↔ (self.now.document.version ≡ 1) }
    {
        match self.latest {
            None => false,
            Some(_) => true,
        }
    }

    /// Returns the last change: the version before it, and its batches in order, which it shares with the history. An undo has the inverse batches. New line
    /// endings are one batch that replaces the whole text. None in version 1 only.
    pub fn last_event(&self) -> Result<Option<Event>, AllocError>
        ensures event { IfOk result (λ event. event ≡ flat_event self.now.document) }
        ensures none { IfOk result (λ event. IsNone event ↔ (self.now.document.version ≡ 1)) }
        ensures texts { IfSome self.now.document.last
            (λ last. TakeTo last.before last.batches self.now.document.units) }
    {
        let Some(latest) = self.latest else {
            return Ok(None);
        };
        let batches = latest_batches(self.alloc, &self.history, latest)?;
        Ok(Some(Event::new(self.version - 1, batches)))
    }
}

// Returns the batches of the last change; of a step that may still grow, only the last one.
fn latest_batches(
    alloc: Global,
    history: &EditStack<Change>,
    latest: Latest,
) -> Result<Vec<SharedBatch>, AllocError>
    requires { 0 < length (latest_steps latest history.now.stack) }
    ensures { (now : FlatText) → IfOk result (λ batches.
        last_batches (last_of (Some latest) now history.now.stack) ≡ Some batches.items) }
{
    let Some(step) = next_step(history, latest.way()) else {
        unreachable!()
    };
    match latest {
        Latest::Made => {
            let batch = batch_along(alloc, step.change(step.len() - 1), Way::On)?;
            let mut batches = Vec::with_capacity(alloc, 1)?;
            batches.push(batch)?;
            Ok(batches)
        }
        Latest::TakenBack => batches_along(alloc, step, Way::Back),
        Latest::MadeAgain => batches_along(alloc, step, Way::On),
    }
}
