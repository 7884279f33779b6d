//! The checks and the steps of a change.

ghost use Rattle.std.specs.Prelude.{◌≡◌, ◌+◌, ◌-◌, ◌^◌, ◌<◌, ◌≤◌, ◌||◌, ◌++◌, ◌⊎◌, false, true, nat_lt, length, IfOk, IfErr, OnOk};
ghost use Rattle.std.specs.List.{All, list_any, list_all};
ghost use Rattle.decoration_rules.specs.declared.TheConstants.{GREATEST_MODE};
ghost use Rattle.decoration_rules.specs.Moves.{offset_limit};
ghost use Rattle.decoration_rules.specs.Marks.{in_order, is_live, IsInOrder, HasDistinctIds};
ghost use Rattle.decoration_rules.specs.Decorations.{owns, has_repeat, is_bad, kept, new_mark, new_marks, most_decorations, greatest_id};
ghost use Rattle.decorations.specs.Set.{IsNew};

use decoration_rules::{DecoError, GREATEST_MODE, MOST_DECORATIONS, Mark, NewDeco, Sticky};
use interval_deltas::IntervalTree;
use std::alloc::{AllocError, Global};
use text_lengths::GREATEST_NUMBER;
use unit_text::Flat;

/// Returns whether each of the ids is live and has this owner.
pub(crate) fn owns_all(tree: &IntervalTree, owner: u64, ids: &[u64]) -> bool
    ensures { result ≡ list_all (λ id. owns tree.now.marks owner id) ids.now }
{
    ids.iter().all(|id| owns(tree, owner, *id))
}

fn owns(tree: &IntervalTree, owner: u64, id: u64) -> bool
    ensures { result ≡ owns tree.now.marks owner id }
{
    match tree.place(id) {
        Some(mark) => mark.owner == owner,
        None => false,
    }
}

/// Fails with `Unknown` if an id occurs twice, and with `Memory` if memory is short.
pub(crate) fn named_once(alloc: Global, ids: &[u64]) -> Result<(), DecoError>
    ensures ok { OnOk result (has_repeat ids.now ≡ false) }
    ensures err { IfErr result
        (λ e. (e ≡ DecoError.Memory) ⊎ ((e ≡ DecoError.Unknown) × (has_repeat ids.now ≡ true))) }
{
    match has_repeat(alloc, ids) {
        Ok(true) => Err(DecoError::Unknown),
        Ok(false) => Ok(()),
        Err(_) => Err(DecoError::Memory),
    }
}

/// Returns whether an id occurs twice.
fn has_repeat(alloc: Global, ids: &[u64]) -> Result<bool, AllocError>
    ensures { IfOk result (λ answer. answer ≡ has_repeat ids.now) }
{
    let mut sorted = Vec::from_slice(alloc, ids)?;
    sorted.sort_unstable();
    Ok(!sorted.is_sorted_by(|a, b| a < b))
}

/// Returns whether one of the new decorations has a span that is invalid in the text, or an invalid mode.
pub(crate) fn any_is_bad<F: Flat>(add: &[NewDeco], text: &F) -> bool
    ensures { result ≡ list_any (is_bad (F.kind text.now) (F.units text.now)) add.now }
{
    add.iter().any(|new| is_bad(new, text))
}

fn is_bad<F: Flat>(new: &NewDeco, text: &F) -> bool
    ensures { result ≡ is_bad (F.kind text.now) (F.units text.now) new.now }
{
    new.span.end < new.span.start
        || !text.are_places(new.span.start, new.span.end)
        || new.stick > GREATEST_MODE
}

/// Returns whether there would be too many decorations, or an id would exceed the greatest.
pub(crate) fn is_too_much(live: u64, removed: u64, added: u64, next_id: u64) -> bool
    requires removed { removed ≤ live }
    requires live { live ≤ most_decorations }
    requires next { (1 ≤ next_id) × (next_id ≤ greatest_id + 1) }
    ensures { result ≡ (nat_lt most_decorations (live - removed + added)
        || nat_lt greatest_id (next_id + added - 1)) }
{
    if added > MOST_DECORATIONS - (live - removed) {
        return true;
    }
    next_id + added - 1 > GREATEST_NUMBER
}

/// Removes the decorations of these ids.
pub(crate) fn remove_all(tree: &mut IntervalTree, ids: &[u64])
    requires live { list_all (is_live tree.old.marks) ids.now ≡ true }
    requires once { has_repeat ids.now ≡ false }
    ensures marks { tree.new.marks ≡ kept tree.old.marks ids.now }
    ensures room { tree.old.spare ≤ tree.new.spare }
{
    for id in ids {
        tree.remove(*id);
    }
}

/// Inserts the new decorations, with consecutive ids from `first` on.
pub(crate) fn add_all(tree: &mut IntervalTree, owner: u64, first: u64, add: &[NewDeco])
    requires room { length add.now ≤ tree.old.spare }
    requires ids { first + length add.now < 2 ^ 64 }
    requires used { All (λ mark. mark.id < first) tree.old.marks }
    requires ordered { IsInOrder tree.old.marks }
    requires distinct { HasDistinctIds tree.old.marks }
    requires good { All IsNew add.now }
    ensures { tree.new.marks ≡ in_order (tree.old.marks ++ new_marks owner first add.now) }
{
    let mut id = first;
    for new in add {
        tree.insert(new_mark(owner, id, new));
        id += 1;
    }
}

fn new_mark(owner: u64, id: u64, new: &NewDeco) -> Mark
    requires { new.now.stick ≤ GREATEST_MODE }
    ensures { result ≡ new_mark owner id new.now }
{
    Mark {
        id,
        owner,
        span: new.span,
        sticky: Sticky::of_mode(new.stick).unwrap(),
        collapse: new.collapse,
    }
}
