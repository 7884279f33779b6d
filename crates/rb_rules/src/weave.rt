//! Sums and shifts in the nodes of a tree.
ghost use Rattle.std.specs.Prelude.{◌≡◌, Option, Some, IfSome, IsSome, IsTrue};
ghost use Rattle.rb_rules.specs.Weaving.{Weaving, Lawful, HeldItem, HeldSum, HeldBy, Sums, Widens};

/// The direction of a search at a node.
#[derive(Clone, Copy, PartialEq, Eq, Debug)]
pub enum Turn {
    Stop,
    Left,
    Right,
}

/// The sums and shifts of a tree: each node keeps the sum of its subtree, and a shift moves all items of a subtree at once.
///
/// The ghost members give the meaning, on unbounded numbers. Each function computes one of them. Its result must be the relative form of
/// a value.
pub trait Weave {
    /// An item of the list.
    type Item: Copy;

    /// A sum of consecutive items.
    type Sum: Copy;

    /// A shift: an amount by which items move.
    type By: Copy;

    /// A search key.
    type Key: Copy;

    ghost weaving: { Weaving Self.Item Self.Sum Self.By };

    /// The items that are values.
    ghost is_item: { Self.Item → Type 0 };

    /// The sums that are values. The parts of such a sum are values too.
    ghost is_value: { Self.Sum → Type 0 };

    /// A property of every sum of items that are values.
    ghost is_sum: { Self.Sum → Type 0 };

    /// The shifts that a path may have.
    ghost is_near: { Self.By → Type 0 };

    /// `within reach by`: the shift `by` lies within the reach `reach`.
    ghost within: { Self.By → Self.By → Type 0 };

    /// `widened reach by`: a reach that contains the shifts within `reach`, both unchanged and moved by `by`; None if it would be too
    /// great.
    ghost widened: { Self.By → Self.By → Option Self.By };

    /// The direction of a search for a key at an item, from the sum of the items before it and the item.
    ghost use Rattle.rb_rules.specs.declared.weave.Turn.{Turn};

    ghost turn: { Self.Key → Self.Sum → Self.Item → Turn };

    fn none() -> Self::Sum
        ensures { result ≡ weaving.none };

    fn one(item: Self::Item) -> Self::Sum
        ensures { result ≡ weaving.one item };

    fn join(first: Self::Sum, second: Self::Sum) -> Self::Sum
        requires { HeldSum weaving is_near is_sum is_value (weaving.join first second) }
        ensures { result ≡ weaving.join first second };

    /// Returns true only if the sums are equal. If a new item leaves its node's sum equal, the sums above it are not recomputed.
    fn same(first: Self::Sum, second: Self::Sum) -> bool
        ensures { IsTrue result → first ≡ second };

    fn still() -> Self::By
        ensures { result ≡ weaving.still };

    /// Returns the only shift if items never move, so that the shift of a path needs no walk; None if items may move.
    fn only_shift() -> Option<Self::By>
        ensures { IfSome result (λ only. (by : Self.By) → by ≡ only) };

    fn plus(first: Self::By, second: Self::By) -> Self::By
        requires { HeldBy weaving is_near (weaving.plus first second) }
        ensures { result ≡ weaving.plus first second };

    fn minus(whole: Self::By, part: Self::By) -> Self::By
        requires { HeldBy weaving is_near (weaving.minus whole part) }
        ensures { result ≡ weaving.minus whole part };

    fn shift(by: Self::By, item: Self::Item) -> Self::Item
        requires { HeldItem weaving is_near is_item (weaving.shift by item) }
        ensures { result ≡ weaving.shift by item };

    fn shift_sum(by: Self::By, sum: Self::Sum) -> Self::Sum
        requires { HeldSum weaving is_near is_sum is_value (weaving.shift_sum by sum) }
        ensures { result ≡ weaving.shift_sum by sum };

    fn widen(reach: Self::By, by: Self::By) -> Option<Self::By>
        ensures { result ≡ widened reach by };

    fn turn_at(key: Self::Key, before: Self::Sum, item: Self::Item) -> Turn
        ensures { result ≡ turn key before item };

    ghost laws: { Lawful weaving };

    ghost sums: { Sums weaving is_item is_sum };

    ghost starts_near: { is_near weaving.still };

    ghost within_near: { (reach by : Self.By) → within reach by → is_near by };

    ghost starts_within: { within weaving.still weaving.still };

    ghost widens: { Widens weaving within widened };

    /// A shift that takes a value to a value is not too great: it has a reach of its own.
    ghost fits: { (by : Self.By) (x : Self.Item) → is_item x → is_item (weaving.shift by x) → IsSome (widened weaving.still by) };

    ghost parts: { (a b : Self.Sum) → is_value (weaving.join a b) → is_value a × is_value b };

    /// A sum that is a value is still one without a part in its middle.
    ghost thins: { (a b c : Self.Sum) → is_value (weaving.join a (weaving.join b c)) → is_value (weaving.join a c) };
}
