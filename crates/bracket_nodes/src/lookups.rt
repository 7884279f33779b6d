// Looks up what is at a place: walks down one path of the tree.
ghost use Rattle.std.specs.Prelude.{◌≡◌, ◌+◌, ◌<◌, ◌≤◌, ◌^◌, ◌&&◌, ℕ, unwrap_or, Some, IfSome, IfNone};
ghost use Rattle.std.specs.Option.{option_map};
ghost use Rattle.text_lengths.specs.Length.{length_plus, is_before};
ghost use Rattle.bracket_rules.specs.Parse.{partner_at};
ghost use Rattle.bracket_tree_rules.specs.Tree.{tree_length, is_some_width, tree_level, tree_partner, IsTree};
ghost use Rattle.bracket_nodes.specs.Kept.{last_level};
ghost use Rattle.bracket_nodes.specs.LevelSteps.{IsLevelStep};
ghost use Rattle.bracket_nodes.specs.Parts.{entries_at, reach};
ghost use Rattle.bracket_nodes.specs.Seen.{seen_tree};
ghost use Rattle.bracket_nodes.specs.Walks.{HasRoom, level_from, place_and_len, NoOwnPartnerAt};

use crate::kept::wide;
use crate::link::{Seen, Shown};
use crate::node::Node;
use crate::placed::Placed;
use text_lengths::Length;

impl Node {
    /// Returns the level at a place of the tree, counted from its start: the level after the last entry that starts
    /// before it, or 0.
    pub fn level_at(&self, place: Length) -> u64
        ensures { result ≡ tree_level self.now place }
    {
        let mut walk = LevelWalk {
            here: Placed::whole(self.link.seen()),
            level: 0,
            before: 0,
        };
        loop {
            match walk.step(&place) {
                LevelStep::On(next) => walk = next,
                LevelStep::At(level) => return level,
            }
        }
    }

    /// Finds the partner of the paired bracket that starts at this place of the tree: returns the partner's place and
    /// width. None if no paired bracket starts there.
    pub fn partner_of(&self, place: Length) -> Option<(Length, u64)>
        ensures { result ≡ option_map place_and_len (tree_partner self.now place) }
    {
        let mut here = Placed::whole(self.link.seen());
        loop {
            if let Some(found) = partner_here(&here, &place) {
                return Some(found);
            }
            here = here.part_at(&place)?;
        }
    }
}

// The state of a walk down to the level at a place: the node reached, its level, and the level before its entries.
#[derive(Clone, Copy)]
struct LevelWalk<'a> {
    here: Placed<'a>,
    level: u64,
    before: u64,
}

// The next state of a walk, or the level found.
#[derive(Clone, Copy)]
enum LevelStep<'a> {
    On(LevelWalk<'a>),
    At(u64),
}

impl<'a> LevelWalk<'a> {
    #[tactic(auto, using(crate::proofs::LevelWalk::level_steps))]
    // Moves to the part that determines the level at the place, or returns that level.
    fn step(&self, place: &Length) -> LevelStep<'a>
        requires { HasRoom self.now.here.start self.now.level (seen_tree self.now.here.node) }
        ensures { IsLevelStep self.now place.now result }
    {
        let node = self.here.node;
        match node.shown() {
            Shown::Text(_) | Shown::Capped(_, _) | Shown::Nothing => LevelStep::At(self.before),
            Shown::Stray(_, _) => {
                let is_past = self.here.start.before(place);
                LevelStep::At(if is_past { self.level } else { self.before })
            }
            Shown::Pair(_, opening, inside, closing) => {
                if !self.here.start.before(place) {
                    return LevelStep::At(self.before);
                }
                let inside = self.here.inside(opening, inside);
                if closes_before(closing, &inside.node.end(&inside.start), place) {
                    return LevelStep::At(self.level);
                }
                LevelStep::On(within(inside, self.level + 1, self.level + 1))
            }
            Shown::Two(a, b) => {
                let first = within(self.here.first(a), self.level, self.before);
                let second = first.past(b);
                if !second.here.start.before(place) {
                    return LevelStep::On(first);
                }
                LevelStep::On(second)
            }
            Shown::Three(a, b, c) => {
                let first = within(self.here.first(a), self.level, self.before);
                let second = first.past(b);
                if !second.here.start.before(place) {
                    return LevelStep::On(first);
                }
                let third = second.past(c);
                if !third.here.start.before(place) {
                    return LevelStep::On(second);
                }
                LevelStep::On(third)
            }
        }
    }

    // Moves on to `node`, the next part of the same list.
    fn past(&self, node: Seen<'a>) -> LevelWalk<'a>
        requires { HasRoom self.now.here.start self.now.level (seen_tree self.now.here.node) }
        ensures start { result.here.start
            ≡ length_plus self.now.here.start (tree_length (seen_tree self.now.here.node)) }
        ensures fits { result.here.start.lines + result.here.start.columns ≤ reach self.now.here }
        ensures node { seen_tree result.here.node ≡ seen_tree node.entry }
        ensures level { result.level ≡ self.now.level }
        ensures before { result.before
            ≡ level_from self.now.level self.now.before (last_level (seen_tree self.now.here.node)) }
    {
        let last = self.here.node.kept().last_level;
        let before = level_from(self.level, self.before, last);
        within(self.here.next(node), self.level, before)
    }
}

fn within<'a>(here: Placed<'a>, level: u64, before: u64) -> LevelWalk<'a>
    ensures start { result.here.start ≡ here.entry.start }
    ensures node { (seen_tree result.here.node) ≡ (seen_tree here.entry.node) }
    ensures level { result.level ≡ level }
    ensures before { result.before ≡ before }
{
    LevelWalk {
        here,
        level,
        before,
    }
}

// Whether there is a closing bracket and it starts, at `ends`, before the place.
fn closes_before(closing: Option<u64>, ends: &Length, place: &Length) -> bool
    ensures { result ≡ (is_some_width closing && is_before ends.now place.now) }
{
    closing.is_some() && ends.before(place)
}

fn level_from(level: u64, before: u64, last: Option<u64>) -> u64
    requires { level + unwrap_or last 0 < 2 ^ 64 }
    ensures { result ≡ level_from level before last }
{
    match last {
        None => before,
        Some(last) => level + last,
    }
}

#[tactic(auto, using(crate::proofs::PartnerWalk::own_partners))]
// Returns the place and width of the partner of a bracket at the place that belongs to the node itself and not to a
// part of it.
fn partner_here(here: &Placed, place: &Length) -> Option<(Length, u64)>
    requires tree { IsTree (seen_tree here.now.node) }
    requires fits { reach here.now < 2 ^ 64 }
    ensures some { IfSome result (λ found. (level : ℕ) →
        option_map place_and_len (partner_at place.now (entries_at here.now level)) ≡ Some found) }
    ensures none { IfNone result (NoOwnPartnerAt here.now.start (seen_tree here.now.node) place.now) }
{
    let node = here.node;
    let Shown::Pair(_, opening, inside, Some(closing)) = node.shown() else {
        return None;
    };
    let ends = inside.end(&here.start.plus(&wide(opening)));
    if here.start == *place {
        return Some((ends, closing));
    }
    if ends == *place {
        return Some((here.start, opening));
    }
    None
}
