//! Carries the decorations of a tree along with their lines.
ghost use Rattle.std.specs.Prelude.{◌≡◌, [], length};
ghost use Rattle.std.specs.List.Sorted.{IsPermutation};
ghost use Rattle.decoration_rules.specs.Lines.{AreLineMoves, carried_mark};
ghost use Rattle.decoration_rules.specs.Marks.{IsInOrder, HasDistinctIds};
ghost use Rattle.interval_deltas.specs.Kept.{AreMarks, marks_of, changed_items};

use crate::carrier::Carrier;
use crate::sort::sort_in;
use crate::weave::Marks;
use decoration_rules::LineMove;
use rb_arena::RbTree;

/// Carries all `count` decorations along with their lines and sorts them.
pub(crate) fn carry_in_order(tree: &mut RbTree<Marks>, count: u64, moves: &[LineMove])
    requires count { count ≡ length tree.old.items }
    requires lines { AreLineMoves moves.now }
    requires values { AreMarks tree.old.items }
    requires ordered { IsInOrder (marks_of tree.old.items) }
    requires distinct { HasDistinctIds (marks_of tree.old.items) }
    requires loose { tree.old.loose ≡ [] }
    ensures carried { IsPermutation (changed_items (carried_mark moves.now) tree.old.items)
        tree.new.items }
    ensures ordered { IsInOrder (marks_of tree.new.items) }
    ensures values { AreMarks tree.new.items }
    ensures loose { tree.new.loose ≡ [] }
    ensures spare { tree.new.spare ≡ tree.old.spare }
{
    let mut carrier = Carrier::new(moves);
    tree.rewrite(&mut carrier);
    let (first, last) = carrier.crossed();
    sort_in(tree, count, first, last);
}
