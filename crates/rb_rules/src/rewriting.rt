//! Rewriting of a tree's items in place.
ghost use Rattle.std.specs.Prelude.{◌≡◌, IsTrue};
ghost use Rattle.rb_rules.specs.Rewriting.{Leaves};

use crate::weave::Weave;

/// A rewriting of the items of a list in place, in order. `self` is the state between two items.
pub trait Rewriting<W: Weave> {
    /// The new form of an item, from the state before it.
    ghost rewritten: { Self → W.Item → W.Item };

    /// The state after an item.
    ghost onward: { Self → W.Item → Self };

    /// Returns true only if each list of values with the sum `sum` is left unchanged, and the state too.
    fn skips(&self, sum: W::Sum) -> bool
        ensures { IsTrue result → Leaves W.weaving W.is_item rewritten onward self.now sum };

    fn rewrite(&mut self, item: W::Item) -> W::Item
        requires old { W.is_item item }
        requires new { W.is_item (rewritten self.old item) }
        ensures item { result ≡ rewritten self.old item }
        ensures onward { self.new ≡ onward self.old item };
}
