//! An old text that counts its queries.

use bracket_nodes::{Kinds, NodeRef};
use node_reuse::{Old, Token};
use steps::Steps;
use text_lengths::Length;

/// What a reader sees of an old text, and the number of its queries.
#[derive(Drop)]
pub(crate) struct Counting<'c, O> {
    pub old: O,
    pub calls: &'c mut u64,
}

impl<O: Old> Old for Counting<'_, O> {
    ghost text = { λ c. O.text c.old };

    fn longest_at<L>(
        &mut self,
        place: Length,
        opened: Kinds,
        level: u64,
        steps: &mut Steps<L>,
    ) -> Option<NodeRef<'_>> {
        *self.calls = self.calls.saturating_add(1);
        self.old.longest_at(place, opened, level, steps)
    }

    fn new_from<L>(&mut self, line: u64, steps: &mut Steps<L>) -> u64 {
        *self.calls = self.calls.saturating_add(1);
        self.old.new_from(line, steps)
    }

    fn token_at<L>(&mut self, place: Length, steps: &mut Steps<L>) -> Option<Token> {
        *self.calls = self.calls.saturating_add(1);
        self.old.token_at(place, steps)
    }
}
