//! One step of undo.

ghost use Rattle.std.specs.Prelude.{◌≡◌, ◌-◌, ◌<◌, ◌∷◌, [], Some, length, slice_get};
ghost use Rattle.undo_rules.specs.Tags.{has_tag, is_member, passes, tagged_count, untagged_last, without_tag};
ghost use Rattle.edit_stack.specs.Element.{step_of};

use paged_list::PagedList;
use undo_rules::Tag;

/// One step of undo: its changes, at least one, the alternative versions before and after them, and an optional tag, shared with the steps
/// of other documents that were made together with it.
#[derive(Drop)]
pub struct Element<C> {
    pub(crate) first: C,
    /// The changes after the first.
    pub(crate) more: PagedList<C>,
    pub(crate) alt_before: u64,
    pub(crate) alt_after: u64,
    pub(crate) tag: Option<Tag>,
}

impl<C> Element<C> {
    /// Returns the number of changes.
    pub fn len(&self) -> usize
        ensures { result ≡ length (step_of self.now).changes }
    {
        1 + self.more.len()
    }

    /// Returns a change by its index from 0, in the order in which the changes were made.
    pub fn change(&self, at: usize) -> &C
        requires { at < length (step_of self.now).changes }
        ensures { slice_get (step_of self.now).changes at ≡ Some result.now }
    {
        if at == 0 {
            return &self.first;
        }
        self.more.get(at - 1)
    }

    /// Returns the alternative version before the first change.
    pub fn alt_before(&self) -> u64
        ensures { result ≡ (step_of self.now).alt_before }
    {
        self.alt_before
    }

    /// Returns the alternative version after the last change.
    pub fn alt_after(&self) -> u64
        ensures { result ≡ (step_of self.now).alt_after }
    {
        self.alt_after
    }

    /// Returns the tag, if any.
    pub fn tag(&self) -> Option<Tag>
        ensures { result ≡ (step_of self.now).tag }
    {
        self.tag
    }

    /// Returns whether it has this tag.
    pub(crate) fn has(&self, tag: Tag) -> bool
        ensures { result ≡ has_tag tag (step_of self.now) }
    {
        match self.tag {
            Some(own) => own == tag,
            None => false,
        }
    }

    /// Removes the tag if it is this one.
    pub(crate) fn untag(&mut self, tag: Tag)
        ensures step { step_of self.new ≡ without_tag tag (step_of self.old) }
        ensures room { self.new.more ≡ self.old.more }
    {
        if self.has(tag) {
            self.tag = None;
        }
    }
    /// Removes the tag if `doc` is a member of it and `count` is not 0. Returns how many tags are still to be removed.
    pub(crate) fn untag_of(&mut self, doc: u64, count: u64) -> u64
        requires { doc < 64 }
        ensures step { step_of self.new ∷ [] ≡ untagged_last doc count (step_of self.old ∷ []) }
        ensures left { result ≡ count - tagged_count doc (step_of self.old ∷ []) }
        ensures room { self.new.more ≡ self.old.more }
    {
        if count == 0 || !self.names(doc) {
            return count;
        }
        self.tag = None;
        count - 1
    }

    // Returns whether it has a tag of which `doc` is a member.
    fn names(&self, doc: u64) -> bool
        requires { doc < 64 }
        ensures { result ≡ passes (is_member doc) (step_of self.now).tag }
    {
        match self.tag {
            Some(tag) => (tag.members >> doc) & 1 == 1,
            None => false,
        }
    }
}
