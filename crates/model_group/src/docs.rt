//! Calls that concern one document only. Each does what the call of its name does on `Model`.

ghost use Rattle.std.specs.Prelude.{◌≡◌, ◌<◌, Err};
ghost use Rattle.group_rules.specs.declared.TheConstants.{DOC_COUNT};
ghost use Rattle.document_rules.specs.Outcomes.{Changes};
ghost use Rattle.document_rules.specs.Document.{flat_stop, flat_offset};
ghost use Rattle.document_rules.specs.Snapshots.{flat_skipped, flat_close_of};
ghost use Rattle.document_rules.specs.Brackets.{flat_match, flat_level};
ghost use Rattle.group_rules.specs.Group.{doc_in};
ghost use Rattle.model_core.specs.Decorating.{HasDecorated};
ghost use Rattle.model_core.specs.State.{KeepsParse};
ghost use Rattle.model_core.specs.Questions.{AppendsBrackets, AreFewSteps, Asks};
ghost use Rattle.model_group.specs.Calls.{Shelves};
ghost use Rattle.model_group.specs.State.{OnDoc, documents};

use crate::group::Group;
use document_rules::ModelError;
use model_core::{Entry, NewDeco, Position};
use steps::Steps;

impl Group {
    /// Makes the next edit of the document begin a step of undo.
    pub fn stop(&mut self, doc: u64)
        requires { doc < DOC_COUNT }
        ensures { OnDoc doc (λ old new. (new.document ≡ flat_stop old.document)
            × KeepsParse old new) self.old self.new }
    {
        self.models[doc as usize].stop();
    }

    /// Removes decorations of an owner and adds new ones.
    pub fn decorate(
        &mut self,
        doc: u64,
        owner: u64,
        remove: &[u64],
        add: &[NewDeco],
    ) -> Result<u64, ModelError>
        requires { doc < DOC_COUNT }
        ensures { OnDoc doc (λ old new. HasDecorated owner remove.now add.now result
            old.document new.document × KeepsParse old new) self.old self.new }
    {
        self.models[doc as usize].decorate(owner, remove, add)
    }

    /// Opens a snapshot of the present text and returns its id.
    pub fn snapshot(&mut self, doc: u64) -> Result<u64, ModelError>
        requires { doc < DOC_COUNT }
        ensures { OnDoc doc (Shelves result) self.old self.new }
    {
        self.models[doc as usize].snapshot()
    }

    /// Moves on in a snapshot by its next `n` units. Allocates nothing.
    pub fn skip(&mut self, doc: u64, id: u64, n: u64)
        requires { doc < DOC_COUNT }
        ensures { OnDoc doc (λ old new. (new.document ≡ flat_skipped old.document id n)
            × KeepsParse old new) self.old self.new }
    {
        self.models[doc as usize].skip(id, n);
    }

    /// Closes a snapshot. Never fails with `Memory`.
    pub fn close(&mut self, doc: u64, id: u64) -> Result<(), ModelError>
        requires { doc < DOC_COUNT }
        ensures document { OnDoc doc (λ old new. Changes result old.document new.document
            (flat_close_of old.document id) × KeepsParse old new) self.old self.new }
        ensures sure { ¬ (result ≡ Err ModelError.Memory) }
    {
        self.models[doc as usize].close(id)
    }

    /// Converts a position into an offset; None if it is invalid. Remembers the pieces for the next edit.
    pub fn locate(&mut self, doc: u64, p: Position) -> Option<u64>
        requires { doc < DOC_COUNT }
        ensures found { result ≡ flat_offset (doc_in (documents self.old) doc) p }
        ensures same { self.new ≡ self.old }
    {
        self.models[doc as usize].locate(p)
    }

    /// Appends the brackets of these lines. A step is a call that asks the tree of the last parse for a node or a bracket.
    pub fn brackets_in<L>(
        &mut self,
        doc: u64,
        from: u64,
        to: u64,
        out: &mut Vec<Entry>,
        steps: &mut Steps<L>,
    ) -> Result<(), ModelError>
        requires { doc < DOC_COUNT }
        ensures { OnDoc doc (λ m k. AppendsBrackets from to result out.old.items
            out.new.items m k × AreFewSteps steps.old steps.new m) self.old self.new }
    {
        self.models[doc as usize].brackets_in_counted(from, to, out, steps)
    }

    /// Returns the position and the length of the matching bracket. Steps are counted as by `brackets_in`.
    pub fn match_at<L>(
        &mut self,
        doc: u64,
        p: Position,
        steps: &mut Steps<L>,
    ) -> Result<Option<(Position, u64)>, ModelError>
        requires { doc < DOC_COUNT }
        ensures { OnDoc doc (λ old new. Asks (λ f. flat_match f p) result old new
            × AreFewSteps steps.old steps.new old) self.old self.new }
    {
        self.models[doc as usize].match_at_counted(p, steps)
    }

    /// Returns the nesting level at a position. Steps are counted as by `brackets_in`.
    pub fn level_at<L>(
        &mut self,
        doc: u64,
        p: Position,
        steps: &mut Steps<L>,
    ) -> Result<u64, ModelError>
        requires { doc < DOC_COUNT }
        ensures { OnDoc doc (λ old new. Asks (λ f. flat_level f p) result old new
            × AreFewSteps steps.old steps.new old) self.old self.new }
    {
        self.models[doc as usize].level_at_counted(p, steps)
    }
}
