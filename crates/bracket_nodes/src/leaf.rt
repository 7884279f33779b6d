// Nodes without memory of their own: they are stored in the link to them.
ghost use Rattle.std.specs.Prelude.{◌≡◌, ◌+◌, ◌<◌, ◌≤◌, ◌^◌, IfSome, IsTrue};
ghost use Rattle.bracket_tree_rules.specs.Tree.{text, pair, stray, capped, nothing, two, tree_length, height, weight, is_nothing, IsGap, IsPair, IsLone};
ghost use Rattle.bracket_nodes.specs.Forms.{form_tree, breaks, short_inside, short_tree, IsSound};
ghost use Rattle.bracket_nodes.specs.Kept.{Keeps};

use crate::kept::{Kept, leaf_kept, wide};
use crate::kinds::Kinds;
use bracket_rules::MOST_PAIRS;
use std::marker::Model;
use text_lengths::Length;

/// The length of a line break.
pub(crate) const LINE_BREAK: Length = Length {
    lines: 1,
    columns: 0,
};

/// The greatest height of a list of line breaks without memory of its own; a higher one is read as this height.
pub(crate) const HIGHEST_BREAKS: u8 = 63;

/// The form of a node without memory of its own.
#[derive(Clone, Copy, Drop)]
pub(crate) enum Form {
    Nothing,
    // A text of this many columns of a line.
    Text(u16),
    // Line breaks, as a list of this height in which every list has two parts.
    Breaks(u8),
    Stray(u8, u16),
    Capped(u8, u16),
    Pair(ShortPair),
}

/// A pair that contains columns of one line, or nothing.
#[derive(Clone, Copy, Drop)]
pub(crate) struct ShortPair {
    pub inside: u16,
    pub kind: u8,
    pub opening: u8,
    pub closing: Option<u8>,
}

/// A node without memory of its own.
#[derive(Clone, Copy, Drop)]
pub(crate) struct Leaf {
    form: Form,
}

impl Model for Leaf {
    ghost use Rattle.bracket_nodes.specs.declared.leaf.Form.{Form};

    ghost Value = { Form };

    ghost use Rattle.bracket_nodes.specs.Forms.{form_tree, IsSound};

    ghost view = { λ leaf. leaf.form };

    ghost invariant = { λ leaf. IsSound (form_tree leaf.form) };

    ghost inverse = { λ form. record { form = form } };
}

impl Leaf {
    /// Makes the node of this form.
    pub fn new(form: Form) -> Leaf
        requires { IsSound (form_tree form) }
        ensures { result ≡ form }
    {
        Leaf { form }
    }

    /// Returns the form.
    pub fn form(self) -> Form
        ensures form { result ≡ self }
        ensures sound { IsSound (form_tree self) }
    {
        self.form
    }

    /// Returns the empty list.
    pub fn nothing() -> Leaf
        ensures { form_tree result ≡ nothing }
    {
        Leaf {
            form: Form::Nothing,
        }
    }

    /// Returns a text of this length, if it fits a leaf.
    pub fn text(length: Length) -> Option<Leaf>
        requires { IsGap length }
        ensures { IfSome result (λ leaf. form_tree leaf ≡ text length) }
    {
        if length.lines == 1 {
            return Some(Leaf {
                form: Form::Breaks(0),
            });
        }
        let columns = narrow(length.columns)?;
        Some(Leaf {
            form: Form::Text(columns),
        })
    }

    /// Returns an unexpected closing bracket, if it fits a leaf.
    pub fn stray(kind: u64, width: u64) -> Option<Leaf>
        requires { IsLone kind width }
        ensures { IfSome result (λ leaf. form_tree leaf ≡ stray kind width) }
    {
        let width = narrow(width)?;
        Some(Leaf {
            form: Form::Stray(kind as u8, width),
        })
    }

    /// Returns an opening bracket beyond the limit on open brackets, if it fits a leaf.
    pub fn capped(kind: u64, width: u64) -> Option<Leaf>
        requires { IsLone kind width }
        ensures { IfSome result (λ leaf. form_tree leaf ≡ capped kind width) }
    {
        let width = narrow(width)?;
        Some(Leaf {
            form: Form::Capped(kind as u8, width),
        })
    }

    /// Returns a pair that contains this node, if it fits a leaf.
    pub fn pair(self, kind: u64, opening: u64, closing: Option<u64>) -> Option<Leaf>
        requires { IsPair kind opening (form_tree self) closing }
        ensures { IfSome result (λ leaf. form_tree leaf
            ≡ pair kind opening (form_tree self) closing) }
    {
        let inside = self.columns()?;
        let opening = narrow_width(opening)?;
        let closing = narrow_closing(closing)?;
        Some(Leaf {
            form: Form::Pair(ShortPair {
                inside,
                kind: kind as u8,
                opening,
                closing,
            }),
        })
    }

    // Returns the number of columns of a text in one line, or 0 for the empty list; None for any other node.
    fn columns(self) -> Option<u16>
        ensures { IfSome result (λ columns. short_inside columns ≡ form_tree self) }
    {
        match self.form {
            Form::Nothing => Some(0),
            Form::Text(columns) => Some(columns),
            _ => None,
        }
    }

    /// Returns the list of the two nodes, if it fits a leaf.
    pub fn two(self, other: Leaf) -> Option<Leaf>
        requires { weight (form_tree self) + weight (form_tree other) < 2 ^ 64 }
        ensures { IfSome result (λ leaf. form_tree leaf
            ≡ two (form_tree self) (form_tree other)) }
    {
        match (self.form, other.form) {
            (Form::Breaks(first), Form::Breaks(second))
                if first == second && first < HIGHEST_BREAKS => Some(Leaf {
                form: Form::Breaks(first + 1),
            }),
            _ => None,
        }
    }

    /// Whether the list of the two nodes fits a leaf.
    pub fn goes_with(self, other: Leaf) -> bool {
        matches!((self.form, other.form), (Form::Breaks(a), Form::Breaks(b)) if a == b && a < HIGHEST_BREAKS)
    }
}

impl Form {
    /// Returns what is kept of the node.
    pub fn kept(self) -> Kept
        requires { IsSound (form_tree self) }
        ensures { Keeps (form_tree self) result }
    {
        match self {
            Form::Nothing => leaf_kept(wide(0), Kinds::none(), None),
            Form::Text(columns) => leaf_kept(wide(columns as u64), Kinds::none(), None),
            Form::Breaks(height) => breaks_kept(height.min(HIGHEST_BREAKS)),
            Form::Stray(kind, width) => {
                leaf_kept(wide(width as u64), Kinds::one(kind as u64), Some(0))
            }
            Form::Capped(_, width) => Kept {
                capped: true,
                ..leaf_kept(wide(width as u64), Kinds::none(), None)
            },
            Form::Pair(pair) => short_pair_kept(pair),
        }
    }

    #[tactic(auto, using(crate::proofs::Runs::breaks_some))]
    /// Whether the node is the empty list.
    pub fn is_nothing(self) -> bool
        ensures { result ≡ is_nothing (form_tree self) }
    {
        match self {
            Form::Nothing => true,
            Form::Text(_)
            | Form::Breaks(_)
            | Form::Stray(_, _)
            | Form::Capped(_, _)
            | Form::Pair(_) => false,
        }
    }

    #[tactic(auto, using(crate::proofs::Runs::breaks_height))]
    /// Returns the height of a list of several nodes, else 0.
    pub fn height(self) -> u8
        ensures { result ≡ height (form_tree self) }
    {
        match self {
            Form::Breaks(height) => height.min(HIGHEST_BREAKS),
            Form::Nothing
            | Form::Text(_)
            | Form::Stray(_, _)
            | Form::Capped(_, _)
            | Form::Pair(_) => 0,
        }
    }

    /// Returns the node's length, also if the node breaks the rules of nodes.
    pub fn length(self) -> Length
        ensures { result ≡ tree_length (form_tree self) }
    {
        match self {
            Form::Nothing => wide(0),
            Form::Text(columns) => wide(columns as u64),
            Form::Breaks(height) => breaks_length(height.min(HIGHEST_BREAKS)),
            Form::Stray(_, width) | Form::Capped(_, width) => wide(width as u64),
            Form::Pair(pair) => pair.length(),
        }
    }

    /// Whether the node meets the rules of nodes.
    pub fn is_sound(self) -> bool
        ensures { IsTrue result → IsSound (form_tree self) }
    {
        match self {
            Form::Nothing => true,
            Form::Breaks(_) => true,
            Form::Text(columns) => columns > 0,
            Form::Stray(kind, width) | Form::Capped(kind, width) => {
                (kind as u64) < MOST_PAIRS && width > 0
            }
            Form::Pair(pair) => pair.is_sound(),
        }
    }
}

impl ShortPair {
    /// Returns the content of the pair.
    pub fn inside(&self) -> Form
        ensures { form_tree result ≡ short_inside self.now.inside }
    {
        if self.inside == 0 {
            return Form::Nothing;
        }
        Form::Text(self.inside)
    }

    fn length(&self) -> Length
        ensures { result ≡ tree_length (short_tree self.now) }
    {
        let closing = self.closing.unwrap_or(0) as u64;
        wide(self.opening as u64 + self.inside as u64 + closing)
    }

    fn is_sound(self) -> bool
        ensures { IsTrue result → IsSound (short_tree self) }
    {
        if (self.kind as u64) >= MOST_PAIRS || self.opening == 0 {
            return false;
        }
        match self.closing {
            None => true,
            Some(width) => width > 0,
        }
    }

    /// Returns the width of the closing bracket, if there is one.
    pub fn closing(&self) -> Option<u64>
        ensures { result ≡ self.now.closing }
    {
        match self.closing {
            None => None,
            Some(width) => Some(width as u64),
        }
    }
}

fn breaks_length(height: u8) -> Length
    requires { height ≤ HIGHEST_BREAKS }
    ensures { result ≡ tree_length (breaks height) }
{
    Length {
        lines: 1 << height,
        columns: 0,
    }
}

fn breaks_kept(height: u8) -> Kept
    requires { height ≤ HIGHEST_BREAKS }
    ensures { Keeps (breaks height) result }
{
    let length = breaks_length(height);
    Kept {
        height,
        highest: height,
        ..leaf_kept(length, Kinds::none(), None)
    }
}

fn short_pair_kept(pair: ShortPair) -> Kept
    requires { IsSound (short_tree pair) }
    ensures { Keeps (short_tree pair) result }
{
    let length = pair.length();
    let level = if pair.closing.is_some() { 0 } else { 1 };
    Kept {
        closed: pair.closing.is_some(),
        nesting: 1,
        ..leaf_kept(length, Kinds::none(), Some(level))
    }
}

// Returns the number in 16 bits, if it fits.
fn narrow(n: u64) -> Option<u16>
    ensures { IfSome result (λ m. m ≡ n) }
{
    if n <= u16::MAX as u64 {
        return Some(n as u16);
    }
    None
}

// Returns the width in 8 bits, if it fits.
fn narrow_width(width: u64) -> Option<u8>
    ensures { IfSome result (λ w. w ≡ width) }
{
    if width <= u8::MAX as u64 {
        return Some(width as u8);
    }
    None
}

fn narrow_closing(closing: Option<u64>) -> Option<Option<u8>>
    ensures { IfSome result (λ c. c ≡ closing) }
{
    match closing {
        None => Some(None),
        Some(width) => {
            let width = narrow_width(width)?;
            Some(Some(width))
        }
    }
}
