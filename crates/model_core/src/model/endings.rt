//! Changes the line endings of a document.

ghost use Rattle.std.specs.Prelude.{◌≡◌, true, Ok};
ghost use Rattle.document_rules.specs.Outcomes.{Moves};
ghost use Rattle.document_rules.specs.Paired.{IsPairedState};
ghost use Rattle.document_rules.specs.Document.{is_same_kind, flat_eol};
ghost use Rattle.model_core.specs.Compact.{KeepsBoundBy};
ghost use Rattle.model_core.specs.Edited.{HasRecast};
ghost use Rattle.model_core.specs.Prepared.{recast_of, PreparesEol};
ghost use Rattle.model_core.specs.State.{KeepsParse};

use crate::errors::recast_error_of;
use crate::model::Model;
use crate::model::compact::compact_room;
use crate::ready::{Action, Ready};
use document_rules::ModelError;
use model_page::{Change, PlacedRecast, Way, need_of};
use recasts::Recast;
use text_lengths::raised;
use unit_text::{Flat, Kind};

impl Model {
    /// Changes all line endings to this kind. The version goes up by 1. Returns false if the document has this kind already. `Limit` if the
    /// new text or the version would pass its limit. The change is its own step of undo. Decorations keep their lines and columns. The last
    /// parse stays valid, since no line's content changes.
    pub fn set_eol(&mut self, kind: Kind) -> Result<bool, ModelError>
        ensures document { Moves result self.old.document self.new.document
            (flat_eol self.old.document kind) }
        ensures paired_state { IsPairedState self.old.document → IsPairedState self.new.document }
        ensures parse { HasRecast kind result self.old self.new }
        ensures held { result ≡ Ok true → KeepsBoundBy (recast_of self.old.document kind) self.old self.new }
    {
        let Some(ready) = self.prepare_eol(kind)? else {
            return Ok(false);
        };
        self.commit(ready);
        Ok(true)
    }

    /// Prepares to change all line endings to this kind, and reserves room for it; None if the document has this kind already. `Limit` if
    /// the new text or the version would pass its limit. The document is unchanged.
    pub fn prepare_eol(&mut self, kind: Kind) -> Result<Option<Ready>, ModelError>
        ensures document { self.new.document ≡ self.old.document }
        ensures parse { KeepsParse self.old self.new }
        ensures ready { PreparesEol kind result self.new }
    {
        let old = self.page.text().kind();
        if is_same_kind(kind, old) {
            return Ok(None);
        }
        let recast = Recast::of(self.alloc, self.page.text(), kind).map_err(recast_error_of)?;
        let next = raised(self.version, 1).ok_or(ModelError::Limit)?;
        let placed = PlacedRecast::of(self.alloc, recast).map_err(|_| ModelError::Memory)?;
        let change = Change::Endings(placed);
        self.history.reserve().map_err(|_| ModelError::Memory)?;
        let need = need_of(&change, Way::On);
        self.page.reserve(need).map_err(|_| ModelError::Memory)?;
        let room = compact_room(&self.page, &self.shelf, need);
        Ok(Some(Ready::making(next, old, Action::Make(change), room)))
    }
}

fn is_same_kind(kind: Kind, other: Kind) -> bool
    ensures { result ≡ is_same_kind kind other }
{
    match kind {
        Kind::Mixed => matches!(other, Kind::Mixed),
        Kind::Lf => matches!(other, Kind::Lf),
        Kind::Crlf => matches!(other, Kind::Crlf),
    }
}
