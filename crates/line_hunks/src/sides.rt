//! The runs on both sides of a gap.

ghost use Rattle.std.specs.Prelude.{◌≡◌, ◌+◌, ◌^◌, ◌<◌, ◌≤◌, None, [], ◌∷◌, OnOk, IfNone, MatchOption};
ghost use Rattle.rb_arena.specs.RbTree.{PlaceAfter, HasPut, AtPlace, SumsPut, first_or};
ghost use Rattle.line_hunks.specs.Run.{lines_in};
ghost use Rattle.line_hunks.specs.Weave.{adding, has_line, is_few};
ghost use Rattle.line_hunks.specs.Sides.{turned, Holds};

use crate::find::find;
use crate::run::{Place, Run};
use crate::weave::RunWeave;
use raw_arena::NodeId;
use rb_arena::RbTree;
use std::alloc::{AllocError, Global};
use std::marker::Model;

/// The runs before and after a gap, each with at least one line, in one tree. Only `reserve` allocates memory.
#[derive(Drop)]
pub(crate) struct Sides {
    tree: RbTree<RunWeave>,
    /// The run right before the gap; None if there is none.
    before: Option<NodeId>,
    /// The number of lines before the gap.
    lines: u64,
}

impl Model for Sides {
    ghost use Rattle.line_hunks.specs.Sides.{Shown, shown, IsParted};

    ghost Value = { Shown };

    ghost view = { λ s. shown s.tree.items s.lines s.tree.spare };

    ghost invariant = { λ s. IsParted s.tree.items s.before s.lines };
}

impl Sides {
    /// Creates a gap without runs on either side.
    pub(crate) fn new(alloc: Global) -> Sides
        ensures front { result.front ≡ [] }
        ensures back { result.back ≡ [] }
    {
        Sides {
            tree: RbTree::new(alloc),
            before: None,
            lines: 0,
        }
    }

    /// Makes room for `more` more runs. Also after an error the runs are unchanged and room that was there stays.
    pub(crate) fn reserve(&mut self, more: u64) -> Result<(), AllocError>
        ensures room { OnOk result (more ≤ self.new.room) }
        ensures front { self.new.front ≡ self.old.front }
        ensures back { self.new.back ≡ self.old.back }
        ensures kept { self.old.room ≤ self.new.room }
    {
        self.tree.reserve(more)
    }

    /// Returns the number of lines before the gap.
    pub(crate) fn front_lines(&self) -> u64
        ensures { result ≡ lines_in self.now.front }
    {
        self.lines
    }

    /// Returns the number of lines on both sides.
    pub(crate) fn lines(&self) -> u64
        ensures lines { result ≡ lines_in self.now.front + lines_in self.now.back }
        ensures small { result < 2 ^ 62 }
    {
        self.tree.sum()
    }

    /// Inserts a run right before the gap.
    pub(crate) fn push_front(&mut self, run: Run)
        requires room { 0 < self.old.room }
        requires some { 0 < run.lines }
        requires fits { lines_in self.old.front + run.lines + lines_in self.old.back < 2 ^ 62 }
        ensures front { self.new.front ≡ run ∷ self.old.front }
        ensures back { self.new.back ≡ self.old.back }
        ensures room { self.new.room + 1 ≡ self.old.room }
    {
        self.before = Some(put_after(&mut self.tree, self.before, run));
        self.lines += run.lines;
    }

    /// Inserts a run right after the gap.
    pub(crate) fn push_back(&mut self, run: Run)
        requires room { 0 < self.old.room }
        requires some { 0 < run.lines }
        requires fits { lines_in self.old.front + run.lines + lines_in self.old.back < 2 ^ 62 }
        ensures front { self.new.front ≡ self.old.front }
        ensures back { self.new.back ≡ run ∷ self.old.back }
        ensures room { self.new.room + 1 ≡ self.old.room }
    {
        put_after(&mut self.tree, self.before, run);
    }

    /// Removes and returns the run right before the gap; None if there is none.
    pub(crate) fn pop_front(&mut self) -> Option<Run>
        ensures front { MatchOption result (self.old.front ≡ [])
            (λ run. self.old.front ≡ run ∷ self.new.front) }
        ensures none { IfNone result (self.new.front ≡ []) }
        ensures back { self.new.back ≡ self.old.back }
        ensures room { MatchOption result (self.new.room ≡ self.old.room)
            (λ run. self.new.room ≡ self.old.room + 1) }
    {
        let id = self.before?;
        let run = self.tree.get(id);
        self.before = self.tree.prev(id);
        self.tree.remove(id);
        self.lines -= run.lines;
        Some(run)
    }

    /// Removes and returns the run right after the gap; None if there is none.
    pub(crate) fn pop_back(&mut self) -> Option<Run>
        ensures back { MatchOption result (self.old.back ≡ [])
            (λ run. self.old.back ≡ run ∷ self.new.back) }
        ensures none { IfNone result (self.new.back ≡ []) }
        ensures front { self.new.front ≡ self.old.front }
        ensures room { MatchOption result (self.new.room ≡ self.old.room)
            (λ run. self.new.room ≡ self.old.room + 1) }
    {
        let id = next_after(&self.tree, self.before)?;
        let run = self.tree.get(id);
        self.tree.remove(id);
        Some(run)
    }

    /// Removes all runs.
    pub(crate) fn clear(&mut self)
        ensures front { self.new.front ≡ [] }
        ensures back { self.new.back ≡ [] }
        ensures room { self.old.room ≤ self.new.room }
    {
        while self.pop_front().is_some() {}
        while self.pop_back().is_some() {}
    }

    /// Moves the gap. Inserts the run `gap`, and removes and returns the run of the line with `lines` lines before it,
    /// which is in the gap now.
    pub(crate) fn seek(&mut self, gap: Run, lines: u64) -> Run
        requires room { 0 < self.old.room }
        requires some { 0 < gap.lines }
        requires within { lines < lines_in self.old.front + gap.lines + lines_in self.old.back }
        requires fits { lines_in self.old.front + gap.lines + lines_in self.old.back < 2 ^ 62 }
        ensures order { turned self.new.front (result ∷ self.new.back)
            ≡ turned self.old.front (gap ∷ self.old.back) }
        ensures before { lines_in self.new.front ≤ lines }
        ensures reach { lines < lines_in self.new.front + result.lines }
        ensures room { self.new.room ≡ self.old.room }
    {
        self.push_back(gap);
        let (id, place) = find(&self.tree, lines);
        self.before = self.tree.prev(id);
        self.tree.remove(id);
        self.lines = lines - place.before;
        place.run
    }

    /// Finds the line with `lines` lines before it, among the runs on both sides and the run `gap` between them.
    pub(crate) fn place(&self, gap: Run, lines: u64) -> Place
        requires within { lines < lines_in self.now.front + gap.lines + lines_in self.now.back }
        ensures { Holds self.now gap lines result }
    {
        if lines < self.lines {
            return find(&self.tree, lines).1;
        }
        let behind = lines - self.lines;
        if behind < gap.lines {
            return Place {
                run: gap,
                before: behind,
            };
        }
        find(&self.tree, lines - gap.lines).1
    }
}

/// Inserts a run right after the node `id`, or before all others if `id` is None.
fn put_after(tree: &mut RbTree<RunWeave>, id: Option<NodeId>, run: Run) -> NodeId
    requires room { 0 < tree.old.spare }
    requires named { PlaceAfter tree.old.items id }
    requires some { has_line run }
    requires few { SumsPut adding is_few tree.old.items id run }
    ensures items { HasPut tree.old.items tree.new.items id (result, run) }
    ensures spare { tree.new.spare + 1 ≡ tree.old.spare }
{
    match id {
        Some(id) => tree.insert_after(id, run),
        None => tree.insert_first(run),
    }
}

/// Returns the run right after the node `id`, or the first run if `id` is None.
fn next_after(tree: &RbTree<RunWeave>, id: Option<NodeId>) -> Option<NodeId>
    requires { PlaceAfter tree.now.items id }
    ensures { AtPlace tree.now.items id (λ us vs. result ≡ first_or None vs) }
{
    match id {
        Some(id) => tree.next(id),
        None => tree.first(),
    }
}
