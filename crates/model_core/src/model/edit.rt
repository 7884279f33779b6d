//! Edits of a document: prepared, and carried out.

ghost use Rattle.std.specs.Prelude.{◌≡◌, ◌+◌, ◌≤◌, false, OnOk};
ghost use Rattle.std.specs.List.{All};
ghost use Rattle.unit_text.specs.Units.{IsPaired};
ghost use Rattle.document_rules.specs.Outcomes.{Changes};
ghost use Rattle.document_rules.specs.Paired.{IsPairedState};
ghost use Rattle.model_core.specs.Prepared.{batch_of, need_of, Acts, ActsAlone, ArePairedTexts, CanCommit, HasActed, IsChangeOf, IsEnough, PreparesEdit};
ghost use Rattle.model_core.specs.State.{KeepsParse};
ghost use Rattle.document_rules.specs.Document.{greatest_version, text_now, flat_edit};
ghost use Rattle.model_core.specs.Compact.{CanRewrite, HasAppendedBy, KeepsBoundBy};
ghost use Rattle.model_core.specs.Edited.{HasEdited, ops_as_done};

use crate::errors::error_of;
use crate::latest::Latest;
use crate::model::Model;
use crate::model::compact::compact_room;
use crate::ready::{Action, Ready};
use crate::walk::keep;
use document_rules::ModelError;
use edit_batches::{Batch, Sorted};
use model_page::{Change, CompactRoom, Way, need_of};
use text_lengths::raised;
use text_rules::Op;
use unit_text::Flat;

impl Model {
    /// Carries out the edits, which makes the next version. `Range` if a span is invalid; else `Overlap` if two spans overlap; else `Limit` if
    /// the new text or the version would exceed its limit. The history keeps the edits with the given texts; all other memory is allocated
    /// before the first change. The tree of the last parse stays, and each touched line is marked as new.
    pub fn edit(&mut self, ops: Vec<Op>) -> Result<(), ModelError>
        ensures document { Changes result self.old.document self.new.document
            (flat_edit self.old.document ops.items) }
        ensures paired { IsPaired self.old.document.units → All (λ op. IsPaired op.text) ops.items
            → IsPaired self.new.document.units }
        ensures paired_state { All (λ op. IsPaired op.text) ops.items
            → IsPairedState self.old.document → IsPairedState self.new.document }
        ensures parse { HasEdited ops.items result self.old self.new }
        ensures held { let f = self.old.document in let action = batch_of f (ops_as_done f ops.items) in
            OnOk result (KeepsBoundBy action self.old self.new) }
    {
        let ready = self.prepare(ops)?;
        self.commit(ready);
        Ok(())
    }

    /// Prepares the edits: fails as `edit` does, and reserves all room. The document is unchanged.
    pub fn prepare(&mut self, ops: Vec<Op>) -> Result<Ready, ModelError>
        ensures document { self.new.document ≡ self.old.document }
        ensures parse { KeepsParse self.old self.new }
        ensures ready { PreparesEdit ops.items result self.new }
    {
        let ops = Sorted::of(ops).map_err(|_| ModelError::Memory)?;
        self.page.seek(ops.ops());
        let batch = Batch::checked(ops, self.page.text()).map_err(error_of)?;
        let next = raised(self.version, 1).ok_or(ModelError::Limit)?;
        let change = Change::of_batch(self.alloc, batch, self.page.text()).map_err(
            |_| ModelError::Memory,
        )?;
        self.history.reserve().map_err(|_| ModelError::Memory)?;
        let need = need_of(&change, Way::On);
        self.page.reserve(need).map_err(|_| ModelError::Memory)?;
        let kind = self.page.text().kind();
        let room = compact_room(&self.page, &self.shelf, need);
        Ok(Ready::making(next, kind, Action::Make(change), room))
    }

    /// Carries out a prepared change, which makes the next version, in the reserved room: it takes no memory. The document must have the
    /// version and the kind of line endings for which it was prepared. An edit must fit the text and have the inverse that was prepared; new
    /// line endings must have the text that was prepared, and another kind; an undo or a redo must have a step. The tree of the last parse
    /// stays, and each touched line is marked as new. Then the text, or adjacent pieces of few units, may be rewritten.
    pub fn commit(&mut self, ready: Ready)
        requires can { CanCommit self.old ready }
        ensures document { Acts ready.action self.old.document self.new.document }
        ensures paired_state { ArePairedTexts ready.action
            → IsPairedState self.old.document → IsPairedState self.new.document }
        ensures parse { HasActed ready.action self.old self.new }
        ensures held { KeepsBoundBy ready.action self.old self.new }
        ensures rewritten { CanRewrite ready.room self.new → self.new.overfull ≡ false }
    {
        let due = self.page.is_outgrown();
        let room = self.act(ready);
        self.rewrite(due, room);
    }

    // Carries out a prepared change. Returns the room to rewrite the text.
    fn act(&mut self, ready: Ready) -> Option<CompactRoom>
        requires can { CanCommit self.old ready }
        ensures document { Acts ready.action self.old.document self.new.document }
        ensures parse { HasActed ready.action self.old self.new }
        ensures held { HasAppendedBy ready.action self.old self.new }
        ensures room { result ≡ ready.room }
    {
        let (version, action, room) = ready.into_parts();
        match action {
            Action::Make(change) => self.carry_out(change, version),
            Action::Move(way) => self.follow(way, version),
        }
        room
    }

    /// Like `commit`, as a step of undo of its own: the open step is closed before it and after it.
    pub fn commit_alone(&mut self, ready: Ready)
        requires can { CanCommit self.old ready }
        ensures document { ActsAlone ready.action self.old.document self.new.document }
        ensures paired_state { ArePairedTexts ready.action
            → IsPairedState self.old.document → IsPairedState self.new.document }
        ensures parse { HasActed ready.action self.old self.new }
        ensures held { KeepsBoundBy ready.action self.old self.new }
        ensures rewritten { CanRewrite ready.room self.new → self.new.overfull ≡ false }
    {
        self.stop();
        self.commit(ready);
        self.stop();
    }

    // Makes the change, which makes this version.
    fn carry_out(&mut self, change: Change, version: u64)
        requires next { version ≡ self.old.document.version + 1 }
        requires last { version ≤ greatest_version }
        requires change { IsChangeOf (text_now self.old.document) change }
        requires room { IsEnough self.old.room
            (need_of (Action.Make change) self.old.document) }
        ensures document { Acts (Action.Make change) self.old.document self.new.document }
        ensures parse { HasActed (Action.Make change) self.old self.new }
        ensures held { HasAppendedBy (Action.Make change) self.old self.new }
    {
        // These show the prover that both texts are within the limit, and that the text before is of its kind.
        let _before = self.page.text();
        self.page.follow(&change, Way::On, true);
        let _after = self.page.text();
        keep(&mut self.history, change, self.alternative, version);
        self.version = version;
        self.alternative = version;
        self.latest = Some(Latest::Made);
    }
}
