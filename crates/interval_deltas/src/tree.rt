//! The decorations of a document, in order of position.

ghost use Rattle.std.specs.Prelude.{◌≡◌, ◌+◌, ◌<◌, ◌≤◌, ◌++◌, ◌∷◌, [], true, false, length, map, take, vec_len, OnOk, OnErr};
ghost use Rattle.std.specs.List.{All};
ghost use Rattle.rb_arena.specs.RbTree.{AtPlace, PlaceAfter};
ghost use Rattle.decoration_rules.specs.Moves.{offset_limit, moved_mark};
ghost use Rattle.decoration_rules.specs.Lines.{AreLineMoves, carried_with_lines};
ghost use Rattle.decoration_rules.specs.Marks.{in_order, put_in_order, is_live, mark_of, without, touching, IsInOrder};
ghost use Rattle.interval_deltas.specs.Weave.{is_mark};
ghost use Rattle.interval_deltas.specs.Kept.{AreMarks, marks_of};

use crate::accept::move_in_order;
use crate::carry::carry_in_order;
use crate::kept::capped;
use crate::names::Names;
use crate::search::{first_reaching, last_before, reaching_after};
use crate::weave::{KeptMark, Marks};
use decoration_rules::{Edit, LineMove, Mark};
use raw_arena::NodeId;
use rb_arena::RbTree;
use std::alloc::{AllocError, Global};
use std::marker::Model;
use text_lengths::Span;

/// The decorations of a document, sorted by start, then by end, then by id. Only `reserve` and `search` allocate
/// memory.
#[derive(Drop)]
pub struct IntervalTree {
    /// Sorted by start, then by end, then by id.
    tree: RbTree<Marks>,
    names: Names,
}

impl Model for IntervalTree {
    ghost use Rattle.std.specs.Prelude.{min};
    ghost use Rattle.interval_deltas.specs.Tree.{Shown, IsTree};
    ghost use Rattle.interval_deltas.specs.Kept.{marks_of};

    ghost Value = { Shown };

    ghost view = { λ t. record {
      marks = marks_of t.tree.items;
      spare = min t.tree.spare t.names.spare;
    } };

    ghost invariant = { λ t. IsTree t.tree t.names.entries };
}

impl IntervalTree {
    pub fn new(alloc: Global) -> IntervalTree
        ensures { result.marks ≡ [] }
    {
        IntervalTree {
            tree: RbTree::new(alloc),
            names: Names::new(alloc),
        }
    }

    /// Returns the number of decorations.
    pub fn len(&self) -> u64
        ensures { result ≡ length self.now.marks }
    {
        self.names.len() as u64
    }

    /// Makes room for `n` more decorations. Also after an error the decorations are unchanged and room that was there
    /// stays.
    pub fn reserve(&mut self, n: u64) -> Result<(), AllocError>
        ensures room { OnOk result (n ≤ self.new.spare) }
        ensures marks { self.new.marks ≡ self.old.marks }
        ensures kept { self.old.spare ≤ self.new.spare }
    {
        self.tree.reserve(n)?;
        self.names.reserve(n)
    }

    /// Inserts a decoration, whose id is new.
    pub fn insert(&mut self, mark: Mark)
        requires room { 0 < self.old.spare }
        requires new { is_live self.old.marks mark.id ≡ false }
        requires upright { mark.span.start ≤ mark.span.end }
        requires fits { mark.span.end < offset_limit }
        ensures marks { self.new.marks ≡ put_in_order mark self.old.marks }
        ensures room { self.old.spare ≤ self.new.spare + 1 }
    {
        let kept = KeptMark::of(&mark);
        let at = last_before(&self.tree, kept.place());
        let node = insert_behind(&mut self.tree, at, kept);
        // The contract of `prev` shows that no other decoration has this node.
        let _before = self.tree.prev(node);
        self.names.put(mark.id, node);
    }

    /// Removes the decoration with this id.
    pub fn remove(&mut self, id: u64)
        requires { is_live self.old.marks id ≡ true }
        ensures marks { self.new.marks ≡ without id self.old.marks }
        ensures room { self.old.spare ≤ self.new.spare }
    {
        let Some(node) = self.names.find(id) else {
            return;
        };
        self.tree.remove(node);
        self.names.forget(id);
    }

    /// Moves each decoration under an edit of the text.
    pub fn accept(&mut self, edit: &Edit)
        requires upright { edit.now.start ≤ edit.now.end }
        requires fits { All (λ mark. (moved_mark edit.now mark).span.end < offset_limit)
            self.old.marks }
        ensures moved { self.new.marks ≡ in_order (map (moved_mark edit.now) self.old.marks) }
        ensures room { self.old.spare ≤ self.new.spare }
    {
        let count = self.len();
        move_in_order(&mut self.tree, count, edit);
    }

    /// Carries each decoration along with its lines, as when the line endings of the text change their kind.
    pub fn carry(&mut self, moves: &[LineMove])
        requires { AreLineMoves moves.now }
        ensures carried { self.new.marks ≡ carried_with_lines moves.now self.old.marks }
        ensures room { self.new.spare ≡ self.old.spare }
    {
        let count = self.len();
        carry_in_order(&mut self.tree, count, moves);
    }

    /// Returns the decoration with this id; None if there is none.
    pub fn place(&self, id: u64) -> Option<Mark>
        ensures { result ≡ mark_of self.now.marks id }
    {
        let node = self.names.find(id)?;
        Some(self.tree.get(node).mark())
    }

    /// Appends the decorations that share a unit with the span or touch it to `out`. After an error `out` is unchanged.
    pub fn search(&self, span: Span, out: &mut Vec<Mark>) -> Result<(), AllocError>
        ensures ok { OnOk result (out.new.items ≡ out.old.items ++ touching span self.now.marks) }
        ensures err { OnErr result (out.new.items ≡ out.old.items) }
    {
        let before = out.len();
        let found = push_touching(&self.tree, self.len(), span, out);
        if found.is_err() {
            out.truncate(before);
        }
        found
    }
}

/// Inserts a decoration right after the node `id`, or before all others if `id` is None.
fn insert_behind(tree: &mut RbTree<Marks>, id: Option<NodeId>, mark: KeptMark) -> NodeId
    requires room { 0 < tree.old.spare }
    requires named { PlaceAfter tree.old.items id }
    requires value { is_mark mark }
    requires values { AreMarks tree.old.items }
    ensures items { AtPlace tree.old.items id (λ us vs.
        tree.new.items ≡ us ++ (result, mark) ∷ vs) }
    ensures loose { tree.new.loose ≡ tree.old.loose }
    ensures spare { tree.new.spare + 1 ≡ tree.old.spare }
{
    match id {
        Some(id) => tree.insert_after(id, mark),
        None => tree.insert_first(mark),
    }
}

// Appends the decorations that touch the span. The tree holds `count` of them. After an error some may have been
// appended.
fn push_touching(
    tree: &RbTree<Marks>,
    count: u64,
    span: Span,
    out: &mut Vec<Mark>,
) -> Result<(), AllocError>
    requires count { count ≡ length tree.now.items }
    requires values { AreMarks tree.now.items }
    requires ordered { IsInOrder (marks_of tree.now.items) }
    ensures ok { OnOk result (out.new.items
        ≡ out.old.items ++ touching span (marks_of tree.now.items)) }
    ensures before { take (vec_len out.old) out.new.items ≡ out.old.items }
{
    let start = capped(span.start);
    let mut next = first_reaching(tree, start);
    for _turn in 0..count {
        let Some(found) = next else {
            return Ok(());
        };
        let mark = found.1.mark();
        if mark.span.start > span.end {
            return Ok(());
        }
        out.push(mark)?;
        next = reaching_after(tree, found.0, start);
    }
    Ok(())
}
