//! The tags of joint steps. None of these calls allocates.

ghost use Rattle.std.specs.Prelude.{◌≡◌, ◌+◌, ◌<◌, ◌^◌, length, slice_get, option_and_then};
ghost use Rattle.undo_rules.specs.Tags.{all_steps, holds, tag_at};
ghost use Rattle.document_rules.specs.Document.{flat_tag, flat_untag, flat_untag_last};
ghost use Rattle.document_rules.specs.Paired.{IsPairedState};
ghost use Rattle.model_core.specs.State.{KeepsParse};
ghost use Rattle.model_core.specs.Ways.{next_steps};

use crate::model::Model;
use crate::walk::next_step;
use model_page::Way;
use undo_rules::Tag;

impl Model {
    /// Gives the tag to the step that was made last.
    pub fn tag_last(&mut self, tag: Tag)
        requires { 0 < length self.old.document.history.undo }
        ensures document { self.new.document ≡ flat_tag self.old.document tag }
        ensures paired_state { IsPairedState self.old.document → IsPairedState self.new.document }
        ensures parse { KeepsParse self.old self.new }
    {
        self.history.tag_last(tag);
    }

    /// Removes this tag from all steps.
    pub fn untag(&mut self, tag: Tag)
        ensures document { self.new.document ≡ flat_untag self.old.document tag }
        ensures paired_state { IsPairedState self.old.document → IsPairedState self.new.document }
        ensures parse { KeepsParse self.old self.new }
    {
        self.history.untag(tag);
    }

    /// Removes the tag from the last `count` steps with a tag that names document `doc`, or from all such steps if there are fewer.
    pub fn untag_last(&mut self, doc: u64, count: u64)
        requires { doc < 64 }
        ensures document { self.new.document ≡ flat_untag_last self.old.document doc count }
        ensures paired_state { IsPairedState self.old.document → IsPairedState self.new.document }
        ensures parse { KeepsParse self.old self.new }
    {
        self.history.untag_last(doc, count);
    }

    /// Returns whether a step has this tag.
    pub fn holds(&self, tag: Tag) -> bool
        ensures { result ≡ holds self.now.document.history tag }
    {
        self.history.holds(tag)
    }

    /// Returns the number of undo steps and of redo steps.
    pub fn counts(&self) -> (u64, u64)
        ensures undo { result.0 ≡ length self.now.document.history.undo }
        ensures redo { result.1 ≡ length self.now.document.history.redo }
        ensures few { result.0 + result.1 < 2 ^ 32 }
    {
        self.history.counts()
    }

    /// Returns the tag of the step with index `k`, None if it has no tag. Steps are in the order in which they were made: undo steps, then
    /// redo steps.
    pub fn tag_at(&self, k: u64) -> Option<Tag>
        requires { k < length (all_steps self.now.document.history) }
        ensures { result ≡ tag_at self.now.document.history k }
    {
        self.history.tag_at(k)
    }

    /// Returns the tag of the next undo step. None if there is no step or it has no tag.
    pub fn undo_tag(&self) -> Option<Tag>
        ensures { result ≡ option_and_then (λ step. step.tag)
            (slice_get self.now.document.history.undo 0) }
    {
        self.next_tag(Way::Back)
    }

    /// Returns the tag of the next redo step. None if there is no step or it has no tag.
    pub fn redo_tag(&self) -> Option<Tag>
        ensures { result ≡ option_and_then (λ step. step.tag)
            (slice_get self.now.document.history.redo 0) }
    {
        self.next_tag(Way::On)
    }

    fn next_tag(&self, way: Way) -> Option<Tag>
        ensures { result ≡ option_and_then (λ step. step.tag)
            (slice_get (next_steps way self.now.document.history) 0) }
    {
        next_step(&self.history, way)?.tag()
    }
}
