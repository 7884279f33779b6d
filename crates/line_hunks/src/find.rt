//! A search in the tree, without a count of its steps.

ghost use Rattle.std.specs.Prelude.{◌≡◌, ◌<◌};
ghost use Rattle.line_hunks.specs.Run.{lines_in};
ghost use Rattle.line_hunks.specs.Sides.{runs_of, FindsLine};

use crate::run::Place;
use crate::weave::RunWeave;
use raw_arena::NodeId;
use rb_arena::RbTree;
use steps::Steps;

/// Finds the line with `lines` lines before it. Returns the node of its run, and its place in the run.
pub(crate) fn find(tree: &RbTree<RunWeave>, lines: u64) -> (NodeId, Place)
    requires { lines < lines_in (runs_of tree.now.items) }
    ensures { FindsLine tree.now.items lines result.0 result.1 }
{
    let Some(found) = tree.descend(lines, &mut Steps::new()) else {
        unreachable!();
    };
    let place = Place {
        run: found.1,
        before: lines - found.2,
    };
    (found.0, place)
}
