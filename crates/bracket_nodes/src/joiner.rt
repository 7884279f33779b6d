// Joins many nodes to one list.
ghost use Rattle.std.specs.Prelude.{◌≡◌, ℕ, ◌+◌, ◌<◌, ◌^◌, ◌++◌, [], IfOk, IfSome, IfNone, OnOk};
ghost use Rattle.bracket_tree_rules.specs.Items.{all_length, all_tokens, all_entries};
ghost use Rattle.bracket_tree_rules.specs.Tree.{weight, items, tree_length, tree_tokens, tree_entries, all_items, all_weight, nothing};
ghost use Rattle.text_lengths.specs.declared.Length.{Length};
ghost use Rattle.bracket_nodes.specs.Shapes.{link_tree};
ghost use Rattle.bracket_nodes.specs.Joining.{Takes, IsSame, IsStep, joined_items, joined_weight, count};

use crate::leaf::Leaf;
use crate::lists::{are_breaks, join, join_three};
use crate::node::{Link, Node};
use std::alloc::{AllocError, Global};
use std::mem;

/// Returns the list of the nodes, in order, as a (2,3)-tree; without nodes, the empty list. At any place and level it
/// shows what the nodes show there one after another.
pub fn concat(alloc: Global, nodes: Vec<Node>) -> Result<Node, AllocError>
    requires fits { all_weight nodes.items < 2 ^ 64 }
    ensures in_order { IfOk result (λ list. items list ≡ all_items nodes.items) }
    ensures weighs { IfOk result (λ list. weight list ≡ all_weight nodes.items) }
    ensures length { IfOk result (λ list. tree_length list ≡ all_length nodes.items) }
    ensures tokens { IfOk result (λ list. (p : Length)
        → tree_tokens p list ≡ all_tokens p nodes.items) }
    ensures entries { IfOk result (λ list. (p : Length) (level : ℕ)
        → tree_entries p level list ≡ all_entries p level nodes.items) }
{
    let mut joiner = Joiner::new(alloc);
    for node in nodes {
        joiner.push(alloc, node)?;
    }
    joiner.finish(alloc)
}

// Nodes being joined, as lists of which none is higher than the one before it. So each node is joined few times, and
// three lists are joined at once where possible.
#[derive(Drop)]
pub(crate) struct Joiner {
    pub lists: Vec<Link>,
    // The last list, or nothing. Kept apart, so that a single list takes no room in `lists`.
    pub last: Link,
}

impl Joiner {
    pub fn new(alloc: Global) -> Joiner
        ensures items { joined_items result ≡ [] }
        ensures weight { joined_weight result ≡ 0 }
    {
        Joiner {
            lists: Vec::new(alloc),
            last: nothing(),
        }
    }

    /// Appends a node.
    #[inline(never)]
    pub fn push(&mut self, alloc: Global, node: Node) -> Result<(), AllocError>
        requires fits { joined_weight self.old + weight node < 2 ^ 64 }
        ensures { OnOk result (Takes self.old node self.new) }
    {
        let mut list = node.link;
        while let Some(top) = self.pop() {
            match self.step(&top, &list) {
                Step::Stay => {
                    self.put(top)?;
                    self.put(list)?;
                    return Ok(());
                }
                Step::Join => {
                    list = join(alloc, top, list)?;
                }
                Step::JoinThree(before) => {
                    list = join_three(alloc, before, top, list)?;
                }
            }
        }
        self.put(list)?;
        Ok(())
    }

    // Decides how to add `list` after `top`, the last list, which was removed. For `JoinThree` the list before `top`
    // is removed too.
    fn step(&mut self, top: &Link, list: &Link) -> Step
        ensures { IsStep self.old self.new result }
    {
        let height = list.height();
        let above = top.height();
        if height < above {
            return Step::Stay;
        }
        if above < height || are_breaks(top, list) {
            return Step::Join;
        }
        match self.lists.last() {
            Some(before) if before.height() == height => {}
            _ => return Step::Stay,
        }
        match self.pop() {
            Some(before) => Step::JoinThree(before),
            None => Step::Stay,
        }
    }

    // Appends a list.
    fn put(&mut self, list: Link) -> Result<(), AllocError>
        ensures { OnOk result (Takes self.old (link_tree list) self.new) }
    {
        if self.last.is_nothing() {
            self.last = list;
            return Ok(());
        }
        let before = mem::replace(&mut self.last, list);
        self.lists.push(before)?;
        Ok(())
    }

    // Removes and returns the last list; None if there is none.
    fn pop(&mut self) -> Option<Link>
        ensures some { IfSome result (λ list. Takes self.new (link_tree list) self.old) }
        ensures fewer { IfSome result (λ _. count self.new < count self.old) }
        ensures none { IfNone result (IsSame self.old self.new) }
    {
        let last = mem::replace(&mut self.last, nothing());
        if last.is_nothing() {
            let before = self.lists.pop()?;
            return Some(before);
        }
        Some(last)
    }

    /// Returns the list of all nodes.
    #[inline(never)]
    pub fn finish(mut self, alloc: Global) -> Result<Node, AllocError>
        requires fits { joined_weight self < 2 ^ 64 }
        ensures in_order { IfOk result (λ list. items list ≡ joined_items self) }
        ensures weighs { IfOk result (λ list. weight list ≡ joined_weight self) }
    {
        let mut list = self.last;
        while let Some(before) = self.lists.pop() {
            list = join(alloc, before, list)?;
        }
        Ok(Node { link: list })
    }
}

// How a list is added after the last one.
#[derive(Drop)]
enum Step {
    // It is appended as it is.
    Stay,
    // It is joined to the last one.
    Join,
    // It is joined to the last one and the list before that.
    JoinThree(Link),
}

fn nothing() -> Link
    ensures { link_tree result ≡ nothing }
{
    Link::Here(Leaf::nothing())
}
