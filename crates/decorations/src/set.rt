//! The set of decorations.

ghost use Rattle.std.specs.Prelude.{◌≡◌, ◌≤◌, ◌<◌, ◌^◌, ◌++◌, ◌↔◌, [], length, map, take, vec_len, IsOk, OnOk, OnErr, IfErr, IsTrue};
ghost use Rattle.std.specs.List.{All, filter};
ghost use Rattle.decoration_rules.specs.Moves.{offset_limit, moved_mark};
ghost use Rattle.decoration_rules.specs.Lines.{AreLineMoves, carried_with_lines};
ghost use Rattle.decoration_rules.specs.Marks.{in_order};
ghost use Rattle.decoration_rules.specs.Decorations.{no_decorations, IsSound, deco_of, deco_at, is_of, decos_in, decorated, RefusedFor, Decorates};

use crate::changes::{add_all, any_is_bad, is_too_much, named_once, owns_all, remove_all};
use crate::owners::Owners;
use decoration_rules::{Deco, DecoError, Edit, LineMove, Mark, NewDeco};
use interval_deltas::IntervalTree;
use std::alloc::{AllocError, Global};
use std::marker::Model;
use text_lengths::Span;
use unit_text::Flat;

/// The live decorations of a document, sorted by start, then by end, then by id. `accept`, `carry` and `get` allocate nothing.
#[derive(Drop)]
pub struct DecoSet {
    alloc: Global,
    tree: IntervalTree,
    /// The number of decorations of each owner.
    owners: Owners,
    /// The next id. Ids count from 1, and none is used again.
    next_id: u64,
}

impl Model for DecoSet {
    ghost use Rattle.decoration_rules.specs.Decorations.{Decorations, IsSound};
    ghost use Rattle.decorations.specs.Owners.{Tells};

    ghost Value = { Decorations };

    ghost view = { λ s. record { marks = s.tree.marks; next_id = s.next_id } };

    ghost invariant = { λ s. IsSound (record { marks = s.tree.marks; next_id = s.next_id })
        × Tells s.owners.counts s.tree.marks };
}

impl DecoSet {
    pub fn new(alloc: Global) -> DecoSet
        ensures value { result ≡ no_decorations }
        ensures sound { IsSound result }
    {
        DecoSet {
            alloc,
            tree: IntervalTree::new(alloc),
            owners: Owners::new(alloc),
            next_id: 1,
        }
    }

    /// Removes decorations of an owner and adds new ones: all or nothing. Returns the first new id, or the next free one if nothing is
    /// added.
    pub fn delta<F: Flat>(
        &mut self,
        owner: u64,
        remove: &[u64],
        add: &[NewDeco],
        text: &F,
    ) -> Result<u64, DecoError>
        requires { length (F.units text.now) < offset_limit }
        ensures change { Decorates result self.old self.new
            (decorated self.old owner remove.now add.now
            (F.kind text.now) (F.units text.now)) }
        ensures sound { IsSound self.new }
    {
        self.check(owner, remove, add, text)?;
        let first = self.next_id;
        let added = add.len() as u64;
        self.tree.reserve(added).map_err(|_| DecoError::Memory)?;
        self.owners.make_room(added).map_err(|_| DecoError::Memory)?;
        remove_all(&mut self.tree, remove);
        add_all(&mut self.tree, owner, first, add);
        self.owners.recount(owner, remove.len() as u64, added);
        self.next_id = first + added;
        Ok(first)
    }

    /// Checks a change, and fails with the first reason to refuse it.
    fn check<F: Flat>(
        &self,
        owner: u64,
        remove: &[u64],
        add: &[NewDeco],
        text: &F,
    ) -> Result<(), DecoError>
        ensures ok { OnOk result (IsOk
            (decorated self.now owner remove.now add.now
            (F.kind text.now) (F.units text.now))) }
        ensures err { IfErr result (λ e. RefusedFor e
            (decorated self.now owner remove.now add.now
            (F.kind text.now) (F.units text.now))) }
    {
        if !owns_all(&self.tree, owner, remove) {
            return Err(DecoError::Unknown);
        }
        named_once(self.alloc, remove)?;
        if any_is_bad(add, text) {
            return Err(DecoError::Range);
        }
        let removed = remove.len() as u64;
        let added = add.len() as u64;
        if is_too_much(self.tree.len(), removed, added, self.next_id) {
            return Err(DecoError::Limit);
        }
        Ok(())
    }

    /// Appends the decorations that overlap the span or touch it: all of them, or those of one owner. On an error `out` is unchanged.
    /// For an owner that has none it returns at once.
    pub fn in_range(
        &self,
        span: Span,
        owner: Option<u64>,
        out: &mut Vec<Deco>,
    ) -> Result<(), AllocError>
        ensures ok { OnOk result (out.new.items ≡ out.old.items ++ decos_in self.now span owner) }
        ensures err { OnErr result (out.new.items ≡ out.old.items) }
    {
        if self.lacks(owner) {
            return Ok(());
        }
        let mut found = Vec::new(self.alloc);
        self.tree.search(span, &mut found)?;
        let before = out.len();
        let pushed = push_owned(found.as_slice(), owner, out);
        if pushed.is_err() {
            out.truncate(before);
        }
        pushed
    }

    /// Returns whether there are no decorations of this owner; for None, whether there are none at all.
    fn lacks(&self, owner: Option<u64>) -> bool
        ensures { IsTrue result ↔ (filter (is_of owner) self.now.marks ≡ []) }
    {
        match owner {
            Some(owner) => !self.owners.has(owner),
            None => self.tree.len() == 0,
        }
    }

    /// Returns the live decoration of this id; None if there is none.
    pub fn get(&self, id: u64) -> Option<Deco>
        ensures { result ≡ deco_at self.now id }
    {
        self.tree.place(id).map(|mark| mark.deco())
    }

    /// Moves each decoration along with an edit of the text.
    pub fn accept(&mut self, edit: &Edit)
        requires upright { edit.now.start ≤ edit.now.end }
        requires fits { All (λ mark. (moved_mark edit.now mark).span.end < offset_limit)
            self.old.marks }
        ensures moved { self.new ≡ record self.old {
          marks = in_order
              (map (moved_mark edit.now) self.old.marks);
        } }
        ensures sound { IsSound self.new }
    {
        self.tree.accept(edit);
    }

    /// Moves each decoration with its lines, for a change of the kind of line endings.
    pub fn carry(&mut self, moves: &[LineMove])
        requires { AreLineMoves moves.now }
        ensures carried { self.new ≡ record self.old {
          marks = carried_with_lines moves.now self.old.marks;
        } }
        ensures sound { IsSound self.new }
    {
        self.tree.carry(moves);
    }
}

// Appends those of the decorations that have the owner, or all for None. On an error `out` may keep some of them.
fn push_owned(marks: &[Mark], owner: Option<u64>, out: &mut Vec<Deco>) -> Result<(), AllocError>
    ensures ok { OnOk result (out.new.items
        ≡ out.old.items ++ map deco_of (filter (is_of owner) marks.now)) }
    ensures before { take (vec_len out.old) out.new.items ≡ out.old.items }
{
    for mark in marks {
        if is_of(owner, mark) {
            out.push(mark.deco())?;
        }
    }
    Ok(())
}

/// Returns whether the decoration has this owner; true for None.
fn is_of(owner: Option<u64>, mark: &Mark) -> bool
    ensures { result ≡ is_of owner mark.now }
{
    match owner {
        Some(owner) => mark.owner == owner,
        None => true,
    }
}
