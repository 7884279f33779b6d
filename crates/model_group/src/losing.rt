//! Removes tags of lost steps. Two documents have their shared steps in the same order. So if one loses the tags of its last steps, the
//! other loses those of the last steps that they share. Lists are walked from the end only, and only where a tag is removed.

ghost use Rattle.std.specs.Prelude.{◌≡◌, ◌<◌, ◌≤◌, ◌^◌, true, length, drop, option_to_list};
ghost use Rattle.std.specs.List.{All, flat_map};
ghost use Rattle.undo_rules.specs.Tags.{all_steps};
ghost use Rattle.group_rules.specs.declared.TheConstants.{DOC_COUNT};
ghost use Rattle.group_rules.specs.Group.{doc_in, lost_by_change, lost_by_open, tags_of};
ghost use Rattle.model_group.specs.State.{IsGroup, documents};
ghost use Rattle.model_group.specs.Losing.{has_doc, left_count, names_any, tags_from, IsNext, LoseTags, Names};

use crate::members::{Members, is_member};
use crate::ready::DocReady;
use group_rules::DOC_COUNT;
use model_core::{Model, Tag};

/// Removes the tags of these documents' redo steps.
pub(crate) fn lose_redo_of(models: &mut [Model], ready: &[DocReady], members: Members)
    requires group { IsGroup models.old }
    requires each { All (λ r. (r.doc < DOC_COUNT) × (has_doc members r.doc ≡ true)) ready.now }
    ensures { LoseTags
        (flat_map (λ r. lost_by_change (doc_in (documents models.old) r.doc)) ready.now)
        members models.old models.new }
{
    for i in 0..ready.len() {
        lose_redo(models, ready[i].doc, members, &ready[..i]);
    }
}

/// Removes the tags of the document's redo steps from all documents not in `spared`, which contains this one. For those in `before` this
/// was done just before.
pub(crate) fn lose_redo(models: &mut [Model], doc: u64, spared: Members, before: &[DocReady])
    requires there { doc < DOC_COUNT }
    requires spared { has_doc spared doc ≡ true }
    requires next { let f = doc_in (documents models.old) doc in
        IsNext spared doc (length f.history.undo) before.now models.old }
    requires before { All (λ r. r.doc < DOC_COUNT) before.now }
    ensures { LoseTags (lost_by_change (doc_in (documents models.old) doc)) spared
        models.old models.new }
{
    let (undo, _) = models[doc as usize].counts();
    lose_from(models, doc, undo, spared, before);
}

/// Removes the tags of the document's steps.
pub(crate) fn lose_all(models: &mut [Model], doc: u64)
    requires there { doc < DOC_COUNT }
    requires group { IsGroup models.old }
    ensures { LoseTags (lost_by_open (doc_in (documents models.old) doc)) (2 ^ doc)
        models.old models.new }
{
    lose_from(models, doc, 0, Members::one(doc), &[]);
}

// Removes the tags of the document's steps from index `first` on.
fn lose_from(models: &mut [Model], doc: u64, first: u64, spared: Members, before: &[DocReady])
    requires there { doc < DOC_COUNT }
    requires spared { has_doc spared doc ≡ true }
    requires first { first ≤ length (all_steps (doc_in (documents models.old) doc).history) }
    requires next { IsNext spared doc first before.now models.old }
    requires before { All (λ r. r.doc < DOC_COUNT) before.now }
    ensures { LoseTags (tags_from models.old doc first) spared models.old models.new }
{
    let named = named_from(&models[doc as usize], first);
    if named.is_empty() {
        return;
    }
    for k in 0..DOC_COUNT {
        if named.has(k) && !spared.has(k) {
            let count = left_from(&models[doc as usize], first, k, before);
            models[k as usize].untag_last(doc, count);
        }
    }
}

// Returns the documents named by the tags of these steps.
fn named_from(model: &Model, first: u64) -> Members
    requires { first ≤ length (all_steps model.now.document.history) }
    ensures { Names (tags_of (drop first (all_steps model.now.document.history))) result }
{
    let (undo, redo) = model.counts();
    let mut named = Members::none();
    for at in first..undo + redo {
        named = named.or(Members::of(model.tag_at(at)));
    }
    named
}

// Returns how many of these steps have a tag that document `k` still has.
fn left_from(model: &Model, first: u64, k: u64, before: &[DocReady]) -> u64
    requires first { first ≤ length (all_steps model.now.document.history) }
    requires there { k < DOC_COUNT }
    requires before { All (λ r. r.doc < DOC_COUNT) before.now }
    ensures { result ≡ left_count before.now k
        (tags_of (drop first (all_steps model.now.document.history))) }
{
    let (undo, redo) = model.counts();
    let mut count = 0;
    for at in first..undo + redo {
        count += left_in(before, k, model.tag_at(at));
    }
    count
}

fn left_in(before: &[DocReady], k: u64, tag: Option<Tag>) -> u64
    requires there { k < DOC_COUNT }
    requires before { All (λ r. r.doc < DOC_COUNT) before.now }
    ensures count { result ≡ left_count before.now k (option_to_list tag) }
    ensures few { result ≤ 1 }
{
    match tag {
        Some(tag) if is_member(k, tag) && !names_any(before, tag) => 1,
        _ => 0,
    }
}

// Returns whether the tag names one of these documents.
fn names_any(ready: &[DocReady], tag: Tag) -> bool
    requires { All (λ r. r.doc < DOC_COUNT) ready.now }
    ensures { result ≡ names_any ready.now tag }
{
    for one in ready {
        if is_member(one.doc, tag) {
            return true;
        }
    }
    false
}
