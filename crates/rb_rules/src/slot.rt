//! Nodes of a tree.
ghost use Rattle.std.specs.Prelude.{◌≡◌};

use raw_arena::NodeId;

/// A side of a node.
#[derive(Clone, Copy, PartialEq, Eq, Debug)]
pub enum Side {
    Left,
    Right,
}

/// The data of a node: its item, a shift for its right subtree, the sum of its left subtree and the sum of its whole subtree. All are
/// relative to the shifts on the path to the node.
#[derive(Clone, Copy)]
pub struct Data<X, S, B> {
    pub item: X,
    pub delta: B,
    pub before: S,
    pub whole: S,
}

/// A node: links, colour and data.
#[derive(Clone, Copy)]
pub struct Slot<D> {
    pub parent: Option<NodeId>,
    pub left: Option<NodeId>,
    pub right: Option<NodeId>,
    pub data: D,
    pub red: bool,
}

impl Side {
    ghost use Rattle.rb_rules.specs.Tree.{other};

    pub fn other(self) -> Side
        ensures { result ≡ other self }
    {
        match self {
            Side::Left => Side::Right,
            Side::Right => Side::Left,
        }
    }
}

impl<D: Copy> Slot<D> {
    ghost use Rattle.rb_rules.specs.Memory.{child, with_child, sided, side_by_name};

    /// Returns the child on the side `side`.
    pub fn child(&self, side: Side) -> Option<NodeId>
        ensures { result ≡ child side self.now }
    {
        match side {
            Side::Left => self.left,
            Side::Right => self.right,
        }
    }

    /// Returns the side of the child `id`: Left if it is the left child, otherwise Right.
    pub fn side_of(&self, id: NodeId) -> Side
        ensures { result ≡ side_by_name self.now id }
    {
        match self.left {
            Some(left) if left.is(id) => Side::Left,
            _ => Side::Right,
        }
    }

    /// Returns a copy of the node with another child on the side `side`.
    pub fn with_child(&self, side: Side, child: Option<NodeId>) -> Slot<D>
        ensures { result ≡ with_child side child self.now }
    {
        match side {
            Side::Left => Slot {
                left: child,
                ..*self
            },
            Side::Right => Slot {
                right: child,
                ..*self
            },
        }
    }

    /// Makes a node with the child `near` on the side `side` and `far` on the other.
    pub fn sided(
        side: Side,
        parent: Option<NodeId>,
        near: Option<NodeId>,
        far: Option<NodeId>,
        red: bool,
        datum: D,
    ) -> Slot<D>
        ensures { result ≡ sided side parent near far red datum }
    {
        match side {
            Side::Left => Slot {
                parent,
                left: near,
                right: far,
                data: datum,
                red,
            },
            Side::Right => Slot {
                parent,
                left: far,
                right: near,
                data: datum,
                red,
            },
        }
    }
}
