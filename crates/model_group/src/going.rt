//! Undo and redo.

ghost use Rattle.std.specs.Prelude.{◌≡◌, ◌==◌, ◌+◌, ◌<◌, ◌&&◌, nat_lt, true, false, not, length, Some, None, Ok, IfOk, IfErr, OnOk};
ghost use Rattle.undo_rules.specs.Tags.{is_member};
ghost use Rattle.document_rules.specs.Outcomes.{Moves};
ghost use Rattle.group_rules.specs.declared.TheConstants.{DOC_COUNT};
ghost use Rattle.group_rules.specs.Going.{group_undo, group_redo, group_go, go_by, go_together, gone_in, front_tag, is_front, is_last_version, some_last_from, other_next_from};
ghost use Rattle.group_rules.specs.Group.{doc_in};
ghost use Rattle.group_rules.specs.Outcomes.{MovesAll};
ghost use Rattle.group_rules.specs.Together.{Stay, AllGoOn, gone_with};
ghost use Rattle.model_core.specs.Going.{HasGone};
ghost use Rattle.model_core.specs.Prepared.{PreparesMove};
ghost use Rattle.model_core.specs.Ways.{flat_move};
ghost use Rattle.model_group.specs.Calls.{AllGo, TheyGo, going_with, next_tag};
ghost use Rattle.model_group.specs.State.{KeepAll, OnDoc, documents};
ghost use Rattle.model_group.specs.Prepared.{AreStepsReady, Prepares, going_along};

use crate::errors::group_error_of;
use crate::group::Group;
use crate::members::is_member;
use crate::ready::{DocReady, Manner, commit_all};
use document_rules::ModelError;
use group_rules::{DOC_COUNT, GroupError};
use model_core::{Model, Ready, Tag};
use model_page::Way;

/// The greatest version of a document.
const LAST_VERSION: u64 = 0x7FFF_FFFF_FFFF_FFFF;

impl Group {
    /// Undoes the document's last step. The version goes up by 1. Returns whether there was a step. A joint step is undone in all its
    /// documents. `Limit` if a version would pass its limit; else `Joint` with the lowest of its documents in which it is not the last
    /// step. All memory is allocated before the first change.
    pub fn undo(&mut self, doc: u64) -> Result<bool, GroupError>
        requires { doc < DOC_COUNT }
        ensures documents { MovesAll result (documents self.old) (documents self.new)
            (group_undo (documents self.old) doc) }
        ensures models { AllGo Way.Back doc result self.old self.new }
        ensures stay { Stay (going_with Way.Back self.old doc)
            (documents self.old) (documents self.new) }
        ensures all { result ≡ Ok true → AllGoOn (going_with Way.Back self.old doc)
            (documents self.old) (documents self.new) }
    {
        self.go(Way::Back, doc)
    }

    /// Redoes the step of the document that was undone last. Otherwise like `undo`.
    pub fn redo(&mut self, doc: u64) -> Result<bool, GroupError>
        requires { doc < DOC_COUNT }
        ensures documents { MovesAll result (documents self.old) (documents self.new)
            (group_redo (documents self.old) doc) }
        ensures models { AllGo Way.On doc result self.old self.new }
        ensures stay { Stay (going_with Way.On self.old doc)
            (documents self.old) (documents self.new) }
        ensures all { result ≡ Ok true → AllGoOn (going_with Way.On self.old doc)
            (documents self.old) (documents self.new) }
    {
        self.go(Way::On, doc)
    }

    fn go(&mut self, way: Way, doc: u64) -> Result<bool, GroupError>
        requires { doc < DOC_COUNT }
        ensures documents { MovesAll result (documents self.old) (documents self.new)
            (group_go (going_along way) (documents self.old) doc) }
        ensures models { AllGo way doc result self.old self.new }
        ensures stay { Stay (going_with way self.old doc)
            (documents self.old) (documents self.new) }
        ensures all { result ≡ Ok true → AllGoOn (going_with way self.old doc)
            (documents self.old) (documents self.new) }
    {
        let tag = next_tag(&self.models[doc as usize], way);
        self.go_by(way, doc, tag)
    }

    // Carries out the document's next step, which has the given tag, if any.
    fn go_by(&mut self, way: Way, doc: u64, tag: Option<Tag>) -> Result<bool, GroupError>
        requires there { doc < DOC_COUNT }
        requires next { tag ≡ next_tag way self.old doc }
        ensures documents { MovesAll result (documents self.old) (documents self.new)
            (go_by (going_along way) (documents self.old) doc tag) }
        ensures models { TheyGo way (gone_with doc tag) result self.old self.new }
    {
        match tag {
            Some(tag) => self.go_together(way, doc, tag),
            None => self.go_alone(way, doc),
        }
    }

    // Carries out one step of the document alone.
    fn go_alone(&mut self, way: Way, doc: u64) -> Result<bool, GroupError>
        requires there { doc < DOC_COUNT }
        requires next { None ≡ next_tag way self.old doc }
        ensures documents { let old = documents self.old in
            MovesAll result old (documents self.new)
            (gone_in old doc ((going_along way).rule (doc_in old doc))) }
        ensures models { TheyGo way (λ n. n == doc) result self.old self.new }
    {
        go_next(&mut self.models[doc as usize], way).map_err(group_error_of)
    }

    // Carries out the step of the tag in all its documents, one of which is `doc`.
    fn go_together(&mut self, way: Way, doc: u64, tag: Tag) -> Result<bool, GroupError>
        requires there { doc < DOC_COUNT }
        requires next { Some tag ≡ next_tag way self.old doc }
        ensures documents { MovesAll result (documents self.old) (documents self.new)
            (go_together (going_along way) (documents self.old) tag) }
        ensures models { TheyGo way (λ n. nat_lt n DOC_COUNT && is_member n tag) result
            self.old self.new }
    {
        if self.some_last(tag) {
            return Err(GroupError::Limit);
        }
        if let Some(other) = self.other_next(way, tag) {
            return Err(GroupError::Joint { doc: other });
        }
        let ready = self.prepare_steps(way, tag)?;
        commit_all(&mut self.models, ready, Manner::Plain);
        Ok(true)
    }

    // Returns whether one of the tag's documents has the greatest version.
    fn some_last(&self, tag: Tag) -> bool
        ensures { result ≡ some_last_from 0 tag (documents self.now) }
    {
        for (doc, model) in self.models.iter().enumerate() {
            if is_last(model, doc as u64, tag) {
                return true;
            }
        }
        false
    }

    // Returns the lowest of the tag's documents whose next step is another one.
    fn other_next(&self, way: Way, tag: Tag) -> Option<u64>
        ensures { result ≡ other_next_from 0 (going_along way) tag (documents self.now) }
    {
        for (doc, model) in self.models.iter().enumerate() {
            let doc = doc as u64;
            if is_other(model, way, doc, tag) {
                return Some(doc);
            }
        }
        None
    }

    // Prepares the step in each of the tag's documents.
    #[tactic(auto, using(crate::proofs::Committing::keep_same, crate::proofs::Committing::keep_then, crate::proofs::Goings::no_steps))]
    fn prepare_steps(&mut self, way: Way, tag: Tag) -> Result<Vec<DocReady>, GroupError>
        requires { some_last_from 0 tag (documents self.old) ≡ false }
        ensures count { length self.old ≡ DOC_COUNT }
        ensures kept { KeepAll self.old self.new }
        ensures ready { IfOk result
            (λ ready. AreStepsReady way tag DOC_COUNT self.new ready.items) }
        ensures memory { IfErr result (λ e. e ≡ GroupError.Memory) }
    {
        let mut ready = Vec::with_capacity(self.alloc, DOC_COUNT as usize).map_err(
            |_| GroupError::Memory,
        )?;
        for doc in 0..DOC_COUNT {
            self.prepare_step(way, tag, doc, &mut ready)?;
        }
        Ok(ready)
    }

    // Prepares the step in this document too, if it is one of the tag's.
    #[tactic(auto, using(crate::proofs::Committing::keep_same, crate::proofs::Committing::kept_all))]
    fn prepare_step(
        &mut self,
        way: Way,
        tag: Tag,
        doc: u64,
        ready: &mut Vec<DocReady>,
    ) -> Result<(), GroupError>
        requires there { doc < DOC_COUNT }
        requires last { some_last_from 0 tag (documents self.old) ≡ false }
        requires ready { AreStepsReady way tag doc self.old ready.old.items }
        ensures kept { KeepAll self.old self.new }
        ensures ready { OnOk result (AreStepsReady way tag (doc + 1) self.new ready.new.items) }
        ensures memory { IfErr result (λ e. e ≡ GroupError.Memory) }
    {
        if !is_member(doc, tag) {
            return Ok(());
        }
        match self.prepare_move(way, doc) {
            Ok(Some(one)) => ready
                .push(DocReady { doc, ready: one })
                .map_err(|_| GroupError::Memory),
            Ok(None) => Ok(()),
            Err(error) => Err(group_error_of(error)),
        }
    }

    fn prepare_move(&mut self, way: Way, doc: u64) -> Result<Option<Ready>, ModelError>
        requires { doc < DOC_COUNT }
        ensures { OnDoc doc (Prepares (PreparesMove way result)) self.old self.new }
    {
        prepare_next(&mut self.models[doc as usize], way)
    }
}

// Carries out the next undo or redo.
fn go_next(model: &mut Model, way: Way) -> Result<bool, ModelError>
    ensures document { Moves result model.old.document model.new.document
        (flat_move way model.old.document) }
    ensures parse { HasGone way result model.old model.new }
{
    match way {
        Way::Back => model.undo(),
        Way::On => model.redo(),
    }
}

fn prepare_next(model: &mut Model, way: Way) -> Result<Option<Ready>, ModelError>
    ensures { Prepares (PreparesMove way result) model.old model.new }
{
    match way {
        Way::Back => model.prepare_undo(),
        Way::On => model.prepare_redo(),
    }
}

// Returns whether the document is one of the tag's and has the greatest version.
fn is_last(model: &Model, doc: u64, tag: Tag) -> bool
    requires { doc < DOC_COUNT }
    ensures { result ≡ (is_member doc tag && is_last_version model.now.document) }
{
    is_member(doc, tag) && model.versions().0 >= LAST_VERSION
}

// Returns whether the document is one of the tag's and its next step is another one.
fn is_other(model: &Model, way: Way, doc: u64, tag: Tag) -> bool
    requires { doc < DOC_COUNT }
    ensures { result ≡ (is_member doc tag
        && not (is_front tag ((going_along way).steps model.now.document))) }
{
    is_member(doc, tag) && next_tag(model, way) != Some(tag)
}

// Returns the tag of the next undo or redo step.
fn next_tag(model: &Model, way: Way) -> Option<Tag>
    ensures { result ≡ front_tag ((going_along way).steps model.now.document) }
{
    match way {
        Way::Back => model.undo_tag(),
        Way::On => model.redo_tag(),
    }
}
