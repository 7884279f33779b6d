//! Searches in the tree, without a count of their steps.
ghost use Rattle.rb_arena.specs.Searching.{Found};
ghost use Rattle.rb_arena.specs.RbTree.{AtItem, IsItem};
ghost use Rattle.decoration_rules.specs.Marks.{IsInOrder};
ghost use Rattle.interval_deltas.specs.Weave.{marks, mark_turn};
ghost use Rattle.interval_deltas.specs.Kept.{AreMarks, marks_of, IsPlace, mark_at, PartedAt, FirstReaching, ShowsFirst};

use crate::ends::Greatest;
use crate::weave::{KeptMark, Marks, Place, Sought, placed};
use raw_arena::NodeId;
use rb_arena::RbTree;
use steps::Steps;

fn search(tree: &RbTree<Marks>, sought: Sought) -> Option<(NodeId, KeptMark, Greatest)>
    ensures { Found marks mark_turn sought tree.now.items result }
{
    tree.descend(sought, &mut Steps::new())
}

/// Searches among the decorations after the node `id`.
fn search_after(
    tree: &RbTree<Marks>,
    id: NodeId,
    sought: Sought,
) -> Option<(NodeId, KeptMark, Greatest)>
    requires { IsItem tree.now.items id }
    ensures { AtItem tree.now.items id (λ us x vs. Found marks mark_turn sought vs result) }
{
    tree.descend_after(id, sought, &mut Steps::new())
}

/// Finds the last decoration before a place.
pub(crate) fn last_before(tree: &RbTree<Marks>, place: Place) -> Option<NodeId>
    requires values { AreMarks tree.now.items }
    requires ordered { IsInOrder (marks_of tree.now.items) }
    requires place { IsPlace place }
    ensures { PartedAt tree.now.items (mark_at place) result }
{
    let (id, mark, _) = search(tree, Sought::Place(place))?;
    if placed(&mark, &place).is_lt() {
        Some(id)
    } else {
        tree.prev(id)
    }
}

/// Finds the first decoration that ends at the offset or later.
pub(crate) fn first_reaching(tree: &RbTree<Marks>, offset: i64) -> Option<(NodeId, KeptMark)>
    ensures { FirstReaching offset tree.now.items result }
{
    reached(search(tree, Sought::Reaching(offset)), offset)
}

/// Finds the first decoration after the node `id` that ends at the offset or later.
pub(crate) fn reaching_after(
    tree: &RbTree<Marks>,
    id: NodeId,
    offset: i64,
) -> Option<(NodeId, KeptMark)>
    requires { IsItem tree.now.items id }
    ensures { AtItem tree.now.items id (λ us x vs. FirstReaching offset vs result) }
{
    reached(search_after(tree, id, Sought::Reaching(offset)), offset)
}

/// Returns the decoration at which a search for the offset ended, if it ends at the offset or later.
fn reached(found: Option<(NodeId, KeptMark, Greatest)>, offset: i64) -> Option<(NodeId, KeptMark)>
    ensures { ShowsFirst offset found result }
{
    let (id, mark, _) = found?;
    if mark.end.offset() < offset {
        None
    } else {
        Some((id, mark))
    }
}
