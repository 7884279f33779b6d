//! Undo and redo.

ghost use Rattle.std.specs.Prelude.{◌≡◌, ◌+◌, ◌<◌, ◌≤◌, true, Ok, length, is_some, slice_get};
ghost use Rattle.document_rules.specs.Outcomes.{Moves};
ghost use Rattle.document_rules.specs.Paired.{IsPairedState};
ghost use Rattle.model_core.specs.Ways.{flat_move, next_steps};
ghost use Rattle.model_core.specs.Prepared.{need_of, Acts, HasActed, IsEnough, PreparesMove};
ghost use Rattle.model_core.specs.Compact.{HasAppendedBy, KeepsBoundBy};
ghost use Rattle.model_core.specs.Going.{HasGone};
ghost use Rattle.model_core.specs.State.{KeepsParse};
ghost use Rattle.document_rules.specs.Document.{greatest_version, flat_stop, flat_undo, flat_redo};

use crate::latest::Latest;
use crate::model::Model;
use crate::model::compact::compact_room;
use crate::ready::{Action, Ready};
use crate::walk::{alternative_after, has_next, next_step, pass_step};
use document_rules::ModelError;
use model_page::{Way, need_of_step};
use text_lengths::raised;
use unit_text::Flat;

impl Model {
    /// Undoes the last step. The version goes up by 1. Returns false if there is no step. `Limit` if the version would pass its limit. All
    /// memory is allocated before the first change.
    pub fn undo(&mut self) -> Result<bool, ModelError>
        ensures document { Moves result self.old.document self.new.document
            (flat_undo self.old.document) }
        ensures paired_state { IsPairedState self.old.document → IsPairedState self.new.document }
        ensures parse { HasGone Way.Back result self.old self.new }
        ensures held { result ≡ Ok true → KeepsBoundBy (Action.Move Way.Back) self.old self.new }
    {
        self.go(Way::Back)
    }

    /// Redoes the step that was undone last. The version goes up by 1. Returns false if there is no step. `Limit` if the version would pass
    /// its limit. All memory is allocated before the first change.
    pub fn redo(&mut self) -> Result<bool, ModelError>
        ensures document { Moves result self.old.document self.new.document
            (flat_redo self.old.document) }
        ensures paired_state { IsPairedState self.old.document → IsPairedState self.new.document }
        ensures parse { HasGone Way.On result self.old self.new }
        ensures held { result ≡ Ok true → KeepsBoundBy (Action.Move Way.On) self.old self.new }
    {
        self.go(Way::On)
    }

    /// Returns whether there is a step to undo.
    pub fn can_undo(&self) -> bool
        ensures { result ≡ is_some (slice_get self.now.document.history.undo 0) }
    {
        self.can_go(Way::Back)
    }

    /// Returns whether there is a step to redo.
    pub fn can_redo(&self) -> bool
        ensures { result ≡ is_some (slice_get self.now.document.history.redo 0) }
    {
        self.can_go(Way::On)
    }

    #[tactic(auto, using(crate::proofs::Stepping::next_on))]
    fn can_go(&self, way: Way) -> bool
        ensures { result ≡ is_some (slice_get (next_steps way self.now.document.history) 0) }
    {
        has_next(&self.history, way)
    }

    // Carries out the next undo or redo. The version goes up by 1. Returns false if there is no step.
    fn go(&mut self, way: Way) -> Result<bool, ModelError>
        ensures document { Moves result self.old.document self.new.document
            (flat_move way self.old.document) }
        ensures paired_state { IsPairedState self.old.document → IsPairedState self.new.document }
        ensures parse { HasGone way result self.old self.new }
        ensures held { result ≡ Ok true → KeepsBoundBy (Action.Move way) self.old self.new }
    {
        let Some(ready) = self.prepare_move(way)? else {
            return Ok(false);
        };
        self.commit(ready);
        Ok(true)
    }

    /// Prepares to undo the last step, and reserves room for it; None if there is no step. `Limit` if the version would pass its limit. The
    /// document is unchanged.
    pub fn prepare_undo(&mut self) -> Result<Option<Ready>, ModelError>
        ensures document { self.new.document ≡ self.old.document }
        ensures parse { KeepsParse self.old self.new }
        ensures ready { PreparesMove Way.Back result self.new }
    {
        self.prepare_move(Way::Back)
    }

    /// Prepares to redo the step that was undone last, and reserves room for it; None if there is no step. `Limit` if the version would
    /// pass its limit. The document is unchanged.
    pub fn prepare_redo(&mut self) -> Result<Option<Ready>, ModelError>
        ensures document { self.new.document ≡ self.old.document }
        ensures parse { KeepsParse self.old self.new }
        ensures ready { PreparesMove Way.On result self.new }
    {
        self.prepare_move(Way::On)
    }

    fn prepare_move(&mut self, way: Way) -> Result<Option<Ready>, ModelError>
        ensures document { self.new.document ≡ self.old.document }
        ensures parse { KeepsParse self.old self.new }
        ensures ready { PreparesMove way result self.new }
    {
        let Some(step) = next_step(&self.history, way) else {
            return Ok(None);
        };
        let next = raised(self.version, 1).ok_or(ModelError::Limit)?;
        let need = need_of_step(step, way).map_err(|_| ModelError::Memory)?;
        self.page.reserve(need).map_err(|_| ModelError::Memory)?;
        let kind = self.page.text().kind();
        let room = compact_room(&self.page, &self.shelf, need);
        Ok(Some(Ready::making(next, kind, Action::Move(way), room)))
    }

    // Carries out the next undo or redo, which makes this version.
    pub(super) fn follow(&mut self, way: Way, version: u64)
        requires next { version ≡ self.old.document.version + 1 }
        requires last { version ≤ greatest_version }
        requires some { 0 < length (next_steps way self.old.document.history) }
        requires room { IsEnough self.old.room
            (need_of (Action.Move way) self.old.document) }
        ensures document { Acts (Action.Move way) self.old.document self.new.document }
        ensures parse { HasActed (Action.Move way) self.old self.new }
        ensures held { HasAppendedBy (Action.Move way) self.old self.new }
    {
        let Some(step) = next_step(&self.history, way) else {
            unreachable!()
        };
        self.page.lead(step, way);
        self.version = version;
        self.alternative = alternative_after(step, way);
        pass_step(&mut self.history, way);
        self.latest = Some(Latest::along(way));
    }

    /// Makes the next edit begin a step of undo.
    pub fn stop(&mut self)
        ensures document { self.new.document ≡ flat_stop self.old.document }
        ensures paired_state { IsPairedState self.old.document → IsPairedState self.new.document }
        ensures parse { KeepsParse self.old self.new }
    {
        self.history.stop();
    }
}
