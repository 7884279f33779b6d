//! Changes of one document. Each clears its redo steps. A joint step that is lost here becomes an ordinary step of the other documents.

ghost use Rattle.std.specs.Prelude.{◌<◌, length};
ghost use Rattle.hiding_rules.specs.Hidden.{scanner};
ghost use Rattle.document_rules.specs.Outcomes.{Changes, Moves};
ghost use Rattle.group_rules.specs.declared.TheConstants.{DOC_COUNT};
ghost use Rattle.group_rules.specs.Group.{doc_in, lost_by_change, lost_by_open, group_open, group_edit, group_eol, group_replace_all};
ghost use Rattle.group_rules.specs.Together.{Stay, reached};
ghost use Rattle.model_core.specs.Edited.{HasEdited, HasRecast};
ghost use Rattle.model_core.specs.Opened.{HasOpened};
ghost use Rattle.model_core.specs.Prepared.{PreparesEol};
ghost use Rattle.model_core.specs.Replaced.{HasReplaced, PreparesReplace};
ghost use Rattle.model_group.specs.Prepared.{CanIn, Commits, IsChangeIn, IsReadyIn, Prepares, acts_in};
ghost use Rattle.model_group.specs.State.{ActsOn, OnDoc, documents};
ghost use Rattle.unit_text.specs.Kinds.{normalized};

use crate::group::Group;
use crate::losing::{lose_all, lose_redo};
use crate::members::Members;
use crate::ready::{DocReady, Manner, commit_step};
use document_rules::ModelError;
use model_core::{BracketTable, Hiding, Kind, Model, Op, Ready};

impl Group {
    /// Replaces this document by a new one, as `Model::open_doc` does.
    pub fn open_doc(
        &mut self,
        doc: u64,
        text: &[u16],
        table: BracketTable,
        kind: Kind,
        hiding: Hiding,
    ) -> Result<(), ModelError>
        requires { doc < DOC_COUNT }
        ensures documents { Changes result (documents self.old) (documents self.new)
            (group_open (documents self.old) doc text.now (scanner table hiding) kind) }
        ensures models { ActsOn doc (HasOpened (normalized kind text.now) result)
            self.old self.new }
        ensures stay { Stay (reached doc (lost_by_open (doc_in (documents self.old) doc)))
            (documents self.old) (documents self.new) }
    {
        let model = Model::opened(self.alloc, text, table, kind, hiding)?;
        let models = self.models.as_mut_slice();
        lose_all(models, doc);
        models[doc as usize] = model;
        Ok(())
    }

    /// Carries out a batch of edits, as `Model::edit` does.
    pub fn edit(&mut self, doc: u64, ops: Vec<Op>) -> Result<(), ModelError>
        requires { doc < DOC_COUNT }
        ensures documents { Changes result (documents self.old) (documents self.new)
            (group_edit (documents self.old) doc ops.items) }
        ensures models { ActsOn doc (HasEdited ops.items result) self.old self.new }
        ensures stay { Stay (reached doc (lost_by_change (doc_in (documents self.old) doc)))
            (documents self.old) (documents self.new) }
    {
        let ready = self.prepare_batch(doc, ops)?;
        self.commit(DocReady { doc, ready }, Manner::Plain);
        Ok(())
    }

    /// Changes all line endings to this kind, as `Model::set_eol` does.
    pub fn set_eol(&mut self, doc: u64, kind: Kind) -> Result<bool, ModelError>
        requires { doc < DOC_COUNT }
        ensures documents { Moves result (documents self.old) (documents self.new)
            (group_eol (documents self.old) doc kind) }
        ensures models { ActsOn doc (HasRecast kind result) self.old self.new }
        ensures stay { Stay (reached doc (lost_by_change (doc_in (documents self.old) doc)))
            (documents self.old) (documents self.new) }
    {
        let Some(ready) = self.prepare_eol(doc, kind)? else {
            return Ok(false);
        };
        self.commit(DocReady { doc, ready }, Manner::Plain);
        Ok(true)
    }

    /// Replaces all occurrences of a text, as `Model::replace_all` does.
    pub fn replace_all(
        &mut self,
        doc: u64,
        sought: &[u16],
        with: &[u16],
    ) -> Result<bool, ModelError>
        requires there { doc < DOC_COUNT }
        requires some { 0 < length sought.now }
        ensures documents { Moves result (documents self.old) (documents self.new)
            (group_replace_all (documents self.old) doc sought.now with.now) }
        ensures models { ActsOn doc (HasReplaced sought.now with.now result)
            self.old self.new }
        ensures stay { Stay (reached doc (lost_by_change (doc_in (documents self.old) doc)))
            (documents self.old) (documents self.new) }
    {
        let Some(ready) = self.prepare_replace_all(doc, sought, with)? else {
            return Ok(false);
        };
        self.commit(DocReady { doc, ready }, Manner::Alone);
        Ok(true)
    }

    fn prepare_eol(&mut self, doc: u64, kind: Kind) -> Result<Option<Ready>, ModelError>
        requires { doc < DOC_COUNT }
        ensures { OnDoc doc (Prepares (PreparesEol kind result)) self.old self.new }
    {
        self.models[doc as usize].prepare_eol(kind)
    }

    fn prepare_replace_all(
        &mut self,
        doc: u64,
        sought: &[u16],
        with: &[u16],
    ) -> Result<Option<Ready>, ModelError>
        requires there { doc < DOC_COUNT }
        requires some { 0 < length sought.now }
        ensures { OnDoc doc (Prepares (PreparesReplace sought.now with.now result))
            self.old self.new }
    {
        self.models[doc as usize].prepare_replace_all(sought, with)
    }

    // Clears the document's redo steps, then carries out a prepared change.
    fn commit(&mut self, one: DocReady, manner: Manner)
        requires ready { IsReadyIn (CanIn manner) self.old one }
        requires change { IsChangeIn manner one.ready.action }
        ensures { Commits (acts_in manner) one self.old self.new }
    {
        let models = self.models.as_mut_slice();
        lose_redo(models, one.doc, Members::one(one.doc), &[]);
        commit_step(models, one, manner);
    }
}
