// Constructors of nodes, each of which computes what the node keeps of its subtree.
ghost use Rattle.std.specs.Prelude.{◌≡◌, ◌+◌, ◌-◌, ◌<◌, ◌^◌, false, IfOk, IfSome, unwrap_or, Some, None};
ghost use Rattle.std.specs.Option.{ForSome};
ghost use Rattle.text_lengths.specs.Length.{length_plus};
ghost use Rattle.bracket_tree_rules.specs.Tree.{text, pair, stray, capped, wide, width_of, is_missing, weight, IsGap, IsPair};
ghost use Rattle.bracket_nodes.specs.Bracket.{IsBracketLength, columns_of};
ghost use Rattle.bracket_nodes.specs.Forms.{form_tree};
ghost use Rattle.bracket_nodes.specs.Kept.{inside_level};
ghost use Rattle.bracket_nodes.specs.Shapes.{link_tree};

use crate::kept::{Kept, leaf_kept, wide};
use crate::kinds::Kinds;
use crate::leaf::Leaf;
use crate::node::{Inner, Link, Node, Shape};
use bracket_rules::MOST_PAIRS;
use std::alloc::{AllocError, Global};
use std::rc::Rc;
use text_lengths::Length;

/// Makes a text without brackets: columns of one line, or the break that ends a line together with the text before it.
pub fn text_node(alloc: Global, length: Length) -> Result<Node, AllocError>
    requires { IsGap length }
    ensures { IfOk result (λ node. node ≡ text length) }
{
    if let Some(leaf) = Leaf::text(length) {
        return Ok(of_leaf(leaf));
    }
    let kept = leaf_kept(length, Kinds::none(), None);
    let shape = Shape::Text(length);
    shared(alloc, Inner { shape, kept })
}

/// Makes a pair of brackets of this kind with its content; it is unclosed if `closing` is None.
pub fn pair_node(
    alloc: Global,
    kind: u64,
    opening: Length,
    inside: Node,
    closing: Option<Length>,
) -> Result<Node, AllocError>
    requires has_kind { kind < MOST_PAIRS }
    requires opening { IsBracketLength opening }
    requires closing { ForSome closing IsBracketLength }
    requires not_missing { is_missing kind inside ≡ false }
    requires fits { opening.columns + (weight inside + width_of (columns_of closing)) < 2 ^ 64 }
    ensures { IfOk result (λ node. node ≡ pair kind opening.columns inside (columns_of closing)) }
{
    let closing = closing.map(|length| length.columns);
    if let Some(leaf) = short_pair(kind, opening.columns, &inside.link, closing) {
        return Ok(of_leaf(leaf));
    }
    shared(alloc, pair(kind, opening.columns, inside.link, closing))
}

/// Makes an unexpected closing bracket of this kind: it closes no open bracket.
pub fn stray_node(alloc: Global, kind: u64, bracket: Length) -> Result<Node, AllocError>
    requires has_kind { kind < MOST_PAIRS }
    requires bracket { IsBracketLength bracket }
    ensures { IfOk result (λ node. node ≡ stray kind bracket.columns) }
{
    if let Some(leaf) = Leaf::stray(kind, bracket.columns) {
        return Ok(of_leaf(leaf));
    }
    let kept = leaf_kept(bracket, Kinds::one(kind), Some(0));
    let shape = Shape::Stray(kind, bracket.columns);
    shared(alloc, Inner { shape, kept })
}

/// Makes an opening bracket of this kind beyond the limit on open brackets.
#[inline(never)]
pub fn capped_node(alloc: Global, kind: u64, bracket: Length) -> Result<Node, AllocError>
    requires has_kind { kind < MOST_PAIRS }
    requires bracket { IsBracketLength bracket }
    ensures { IfOk result (λ node. node ≡ capped kind bracket.columns) }
{
    if let Some(leaf) = Leaf::capped(kind, bracket.columns) {
        return Ok(of_leaf(leaf));
    }
    let kept = Kept {
        capped: true,
        ..leaf_kept(bracket, Kinds::none(), None)
    };
    let shape = Shape::Capped(kind, bracket.columns);
    shared(alloc, Inner { shape, kept })
}

fn of_leaf(leaf: Leaf) -> Node
    ensures { result ≡ form_tree leaf }
{
    Node {
        link: Link::Here(leaf),
    }
}

fn shared(alloc: Global, inner: Inner) -> Result<Node, AllocError>
    ensures { IfOk result (λ node. node ≡ inner) }
{
    let link = Link::Shared(Rc::new(alloc, inner)?);
    Ok(Node { link })
}

// Returns the pair, if it takes no memory of its own.
fn short_pair(kind: u64, opening: u64, inside: &Link, closing: Option<u64>) -> Option<Leaf>
    requires { IsPair kind opening (link_tree inside.now) closing }
    ensures { IfSome result (λ leaf. form_tree leaf
        ≡ pair kind opening (link_tree inside.now) closing) }
{
    match inside {
        Link::Here(leaf) => leaf.pair(kind, opening, closing),
        Link::Shared(_) => None,
    }
}

fn pair(kind: u64, opening: u64, inside: Link, closing: Option<u64>) -> Inner
    requires pair { IsPair kind opening (link_tree inside) closing }
    requires fits { opening + (weight (link_tree inside) + width_of closing) < 2 ^ 64 }
    ensures { result ≡ pair kind opening (link_tree inside) closing }
{
    let part = inside.kept();
    let kept = Kept {
        length: pair_length(opening, part.length, closing.unwrap_or(0)),
        missing: part.missing,
        closed: closing.is_some() && part.closed,
        capped: part.capped,
        height: 0,
        highest: part.highest,
        nesting: part.nesting + 1,
        last_level: inside_level(part.last_level, closing),
    };
    let shape = Shape::Pair(kind, opening, inside, closing);
    Inner { shape, kept }
}

fn pair_length(opening: u64, inside: Length, closing: u64) -> Length
    requires { opening + (inside.lines + inside.columns + closing) < 2 ^ 64 }
    ensures { result ≡ length_plus (length_plus (wide opening) inside) (wide closing) }
{
    wide(opening).plus(&inside).plus(&wide(closing))
}

fn inside_level(level: Option<u64>, closing: Option<u64>) -> Option<u64>
    requires { unwrap_or level 0 < 2 ^ 64 - 1 }
    ensures { result ≡ inside_level level closing }
{
    match closing {
        None => Some(level.unwrap_or(0) + 1),
        Some(_) => Some(0),
    }
}
