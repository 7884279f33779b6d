//! The last change of a document, as edits in sequence.

ghost use Rattle.std.specs.Prelude.{◌≡◌, ◌<◌, ◌∷◌, [], Some, length, IfSome, MatchOption};
ghost use Rattle.std.specs.Option.{ForNone};
ghost use Rattle.document_rules.specs.Document.{FlatText, edits_of, flat_changes};
ghost use Rattle.document_rules.specs.InTurn.{edited_in_turn};
ghost use Rattle.model_page.specs.InTurn.{told_op};
ghost use Rattle.model_core.specs.History.{last_of, latest_steps};

use crate::latest::Latest;
use crate::model::Model;
use crate::walk::next_step;
use edit_stack::EditStack;
use model_page::{Change, ContentChange, StepEdits, Way};

/// The remaining edits of the last change, in order. Contracts see them as a list.
#[derive(Drop)]
pub struct Changes<'m> {
    step: Option<StepEdits<'m>>,
}

impl<'m> std::marker::Model for Changes<'m> {
    ghost use Rattle.std.specs.Prelude.{List};
    ghost use Rattle.text_rules.specs.declared.Op.{Op};
    ghost use Rattle.model_page.specs.InTurn.{begun};

    ghost Value = { List Op };

    ghost view = { λ c. begun c.step };
}

impl<'m> Changes<'m> {
    /// Returns the next edit; None after the last one.
    pub fn next(&mut self) -> Option<ContentChange<'m>>
        ensures told { MatchOption result (self.old ≡ [])
            (λ change. self.old ≡ told_op change ∷ self.new) }
        ensures end { ForNone result (self.new ≡ []) }
    {
        self.step.as_mut()?.next()
    }
}

impl Model {
    /// Returns the edits of the last change: an edit, an undo, a redo or new line endings. Applied in order, they turn the text before it
    /// into the present one. For new line endings they are the endings that differ. Version 1 has none.
    pub fn changes(&self) -> Changes<'_>
        ensures changes { result ≡ flat_changes self.now.document }
        ensures texts { IfSome self.now.document.last
            (λ last. edited_in_turn last.before last.edits ≡ self.now.document.units) }
    {
        let Some(latest) = self.latest else {
            return Changes { step: None };
        };
        Changes {
            step: Some(latest_edits(&self.history, latest)),
        }
    }
}

// Returns the edits of the last change; of a step that may still grow, only those of its last change.
fn latest_edits(history: &EditStack<Change>, latest: Latest) -> StepEdits<'_>
    requires { 0 < length (latest_steps latest history.now.stack) }
    ensures { (now : FlatText) → result ≡ edits_of (last_of (Some latest) now history.now.stack) }
{
    let Some(step) = next_step(history, latest.way()) else {
        unreachable!()
    };
    match latest {
        Latest::Made => StepEdits::new(step, Way::On, step.len() - 1),
        Latest::TakenBack => StepEdits::new(step, Way::Back, 0),
        Latest::MadeAgain => StepEdits::new(step, Way::On, 0),
    }
}
