//! The undo and the redo list.

ghost use Rattle.std.specs.Prelude.{◌≡◌, ◌+◌, ◌-◌, ◌^◌, ◌<◌, ◌≤◌, ◌++◌, ◌∷◌, [], is_some, length, map, take, slice_get, OnOk, option_map};
ghost use Rattle.std.specs.List.{list_any};
ghost use Rattle.std.specs.Option.{option_copied};
ghost use Rattle.edit_stack.specs.Element.{step_of};
ghost use Rattle.edit_stack.specs.Lists.{may_join, opened};
ghost use Rattle.undo_rules.specs.Stack.{empty_stack, pushed, stopped, undone, redone};
ghost use Rattle.undo_rules.specs.Tags.{has_tag, without_tag, tagged, tagged_count, untagged, untagged_last, with_steps, all_steps, holds, tag_at};

use crate::element::Element;
use paged_list::PagedList;
use std::alloc::{AllocError, Global};
use std::marker::Model;
use undo_rules::Tag;

/// The steps that can be undone and redone. Only `reserve` allocates.
///
/// An undo or a redo moves no element: both lists are in one, and only the boundary between them moves. Elements that can no longer be
/// redone stay behind the others until they are overwritten; each push drops one of them, so that no push pays for all that was undone
/// before it.
#[derive(Drop)]
pub struct EditStack<C> {
    alloc: Global,
    /// The closed elements in the order in which they were made, then those that can no longer be redone.
    elements: PagedList<Element<C>>,
    /// The number of elements that can be undone. The next to undo is the last of these.
    done: usize,
    /// The number of elements that can be undone or redone. The next to redo is the one at index `done`.
    kept: usize,
    open_element: Option<Element<C>>,
}

impl<C> Model for EditStack<C> {
    ghost use Rattle.edit_stack.specs.Shown.{Shown, shown_code};

    ghost Value = { Shown C };

    ghost coded = { shown_code C.code };

    ghost use Rattle.edit_stack.specs.Lists.{shown, HasRoom};

    ghost view = { shown };

    ghost invariant = { HasRoom };
}

impl<C: Drop> EditStack<C> {
    pub fn new(alloc: Global) -> EditStack<C>
        ensures { result.stack ≡ empty_stack }
    {
        EditStack {
            alloc,
            elements: PagedList::new(alloc),
            done: 0,
            kept: 0,
            open_element: None,
        }
    }

    /// Makes room for one push. On an error the lists are unchanged, and the room is not less.
    pub fn reserve(&mut self) -> Result<(), AllocError>
        ensures room { OnOk result (0 < self.new.spare) }
        ensures stack { self.new.stack ≡ self.old.stack }
        ensures kept { self.old.spare ≤ self.new.spare }
    {
        self.elements.reserve(2)?;
        if let Some(open) = &mut self.open_element {
            open.more.reserve(1)?;
        }
        Ok(())
    }

    /// Records a change from one alternative version to another. It joins the open element or begins one, and what was undone can no longer
    /// be redone.
    pub fn push(&mut self, change: C, alt_before: u64, alt_after: u64)
        requires { 0 < self.old.spare }
        ensures { self.new.stack ≡ pushed self.old.stack change alt_before alt_after }
    {
        self.kept = self.done;
        let_one_go(&mut self.elements, self.kept);
        match &mut self.open_element {
            Some(open) => {
                open.more.push(change);
                open.alt_after = alt_after;
            }
            None => {
                self.open_element = Some(Element {
                    first: change,
                    more: PagedList::new(self.alloc),
                    alt_before,
                    alt_after,
                    tag: None,
                });
            }
        }
    }

    /// Closes the open element, if any, so that the next change begins a new one.
    pub fn stop(&mut self)
        ensures stack { self.new.stack ≡ stopped self.old.stack }
        ensures room { 0 < self.old.spare → 0 < self.new.spare }
    {
        if let Some(open) = self.open_element.take() {
            put_at(&mut self.elements, self.done, open);
            self.kept += 1;
            self.done = self.kept;
        }
    }

    /// Returns the element that the next undo reverts; None if there is none.
    #[tactic(auto, using(crate::proofs::Tags::next_undone))]
    pub fn undo_next(&self) -> Option<&Element<C>>
        ensures { option_map step_of (option_copied result) ≡ slice_get self.now.stack.undo 0 }
    {
        match &self.open_element {
            Some(open) => Some(open),
            None if self.done > 0 => Some(self.elements.get(self.done - 1)),
            None => None,
        }
    }

    /// Returns the element that the next redo repeats; None if there is none.
    #[tactic(auto, using(crate::proofs::Tags::next_redone))]
    pub fn redo_next(&self) -> Option<&Element<C>>
        ensures { option_map step_of (option_copied result) ≡ slice_get self.now.stack.redo 0 }
    {
        if self.done == self.kept {
            return None;
        }
        Some(self.elements.get(self.done))
    }

    /// Records an undo: the next element to undo becomes the next to redo.
    pub fn undone(&mut self)
        requires { 0 < length self.old.stack.undo }
        ensures stack { self.new.stack ≡ undone self.old.stack }
        ensures room { 0 < self.old.spare → 0 < self.new.spare }
    {
        match self.open_element.take() {
            Some(open) => {
                put_at(&mut self.elements, self.done, open);
                self.kept = self.done + 1;
            }
            None => self.done -= 1,
        }
    }

    /// Records a redo: the next element to redo becomes the next to undo.
    pub fn redone(&mut self)
        requires { 0 < length self.old.stack.redo }
        ensures stack { self.new.stack ≡ redone self.old.stack }
        ensures room { 0 < self.old.spare → 0 < self.new.spare }
    {
        self.done += 1;
    }

    /// Tags the next step to undo.
    pub fn tag_last(&mut self, tag: Tag)
        requires { 0 < length self.old.stack.undo }
        ensures stack { self.new.stack ≡ tagged self.old.stack tag }
        ensures room { self.new.spare ≡ self.old.spare }
    {
        match &mut self.open_element {
            Some(open) => open.tag = Some(tag),
            None => self.elements.get_mut(self.done - 1).tag = Some(tag),
        }
    }

    /// Removes this tag from each step that has it.
    pub fn untag(&mut self, tag: Tag)
        ensures stack { self.new.stack ≡ untagged self.old.stack tag }
        ensures room { self.new.spare ≡ self.old.spare }
    {
        if let Some(open) = &mut self.open_element {
            open.untag(tag);
        }
        untag_first(&mut self.elements, self.kept, tag);
    }

    /// Removes the tags from the last `count` steps with a tag of which `doc` is a member, or from all such steps if there are fewer. No
    /// step before them is read.
    pub fn untag_last(&mut self, doc: u64, count: u64)
        requires { doc < 64 }
        ensures stack { self.new.stack ≡ with_steps self.old.stack
            (untagged_last doc count (all_steps self.old.stack)) }
        ensures room { self.new.spare ≡ self.old.spare }
    {
        let left = untag_open(&mut self.open_element, doc, count);
        untag_closed(&mut self.elements, self.kept, doc, left);
    }

    /// Returns whether a step has this tag.
    pub fn holds(&self, tag: Tag) -> bool
        ensures { result ≡ holds self.now.stack tag }
    {
        match &self.open_element {
            Some(open) if open.has(tag) => true,
            _ => has_first(&self.elements, self.kept, tag),
        }
    }

    /// Returns the number of steps that can be undone, and of those that can be redone.
    pub fn counts(&self) -> (u64, u64)
        ensures undo { result.0 ≡ length self.now.stack.undo }
        ensures redo { result.1 ≡ length self.now.stack.redo }
        ensures few { result.0 + result.1 < 2 ^ 32 }
    {
        prove!(self.kept <= self.elements.len());
        let open = if self.open_element.is_some() { 1 } else { 0 };
        ((self.done + open) as u64, (self.kept - self.done) as u64)
    }

    /// Returns the tag of the step of index `k`, counted from 0 in the order in which the steps were made: first those that can be undone,
    /// then those that can be redone. None if that step has no tag.
    pub fn tag_at(&self, k: u64) -> Option<Tag>
        requires { k < length (all_steps self.now.stack) }
        ensures { result ≡ tag_at self.now.stack k }
    {
        let at = k as usize;
        match &self.open_element {
            Some(open) if at == self.done => open.tag,
            _ => self.elements.get(at).tag,
        }
    }
}

/// Removes the tag from the first `kept` elements.
fn untag_first<C: Drop>(elements: &mut PagedList<Element<C>>, kept: usize, tag: Tag)
    requires { kept ≤ length elements.old.items }
    ensures items { map step_of (take kept elements.new.items)
        ≡ map (without_tag tag) (map step_of (take kept elements.old.items)) }
    ensures len { length elements.new.items ≡ length elements.old.items }
    ensures capacity { elements.new.capacity ≡ elements.old.capacity }
{
    for at in 0..kept {
        elements.get_mut(at).untag(tag);
    }
}

/// Calls `Element::untag_of` on the open element, if any. Returns how many tags are still to be removed.
fn untag_open<C: Drop>(open: &mut Option<Element<C>>, doc: u64, count: u64) -> u64
    requires { doc < 64 }
    ensures steps { opened open.new ≡ untagged_last doc count (opened open.old) }
    ensures left { result ≡ count - tagged_count doc (opened open.old) }
    ensures still { is_some open.new ≡ is_some open.old }
    ensures room { may_join open.new ≡ may_join open.old }
{
    match open {
        Some(element) => element.untag_of(doc, count),
        None => count,
    }
}

/// Removes the tags from the last `count` of those of the first `kept` elements that have a tag of which `doc` is a member.
fn untag_closed<C: Drop>(elements: &mut PagedList<Element<C>>, kept: usize, doc: u64, count: u64)
    requires kept { kept ≤ length elements.old.items }
    requires doc { doc < 64 }
    ensures items { map step_of (take kept elements.new.items)
        ≡ untagged_last doc count (map step_of (take kept elements.old.items)) }
    ensures len { length elements.new.items ≡ length elements.old.items }
    ensures capacity { elements.new.capacity ≡ elements.old.capacity }
{
    let mut left = count;
    let mut at = kept;
    while left > 0 && at > 0 {
        at -= 1;
        left = elements.get_mut(at).untag_of(doc, left);
    }
}

/// Returns whether one of the first `kept` elements has the tag.
fn has_first<C: Drop>(elements: &PagedList<Element<C>>, kept: usize, tag: Tag) -> bool
    requires { kept ≤ length elements.now.items }
    ensures { result ≡ list_any (has_tag tag) (map step_of (take kept elements.now.items)) }
{
    for at in 0..kept {
        if elements.get(at).has(tag) {
            return true;
        }
    }
    false
}

/// Puts the element at index `at`, in place of what is there, if anything.
fn put_at<C: Drop>(elements: &mut PagedList<Element<C>>, at: usize, element: Element<C>)
    requires place { at ≤ length elements.old.items }
    requires room { at < elements.old.capacity }
    ensures items { take (at + 1) elements.new.items ≡ take at elements.old.items ++ element ∷ [] }
    ensures len { at < length elements.new.items }
    ensures capacity { elements.new.capacity ≡ elements.old.capacity }
    ensures few { at + 1 < 2 ^ 32 }
{
    if at < elements.len() {
        elements.set(at, element);
    } else {
        elements.push(element);
    }
}

/// Drops the last element unless it is among the first `kept`.
fn let_one_go<C: Drop>(elements: &mut PagedList<Element<C>>, kept: usize)
    requires { kept ≤ length elements.old.items }
    ensures items { take kept elements.new.items ≡ take kept elements.old.items }
    ensures len { kept ≤ length elements.new.items }
    ensures capacity { elements.new.capacity ≡ elements.old.capacity }
{
    if kept < elements.len() {
        elements.pop();
    }
}
