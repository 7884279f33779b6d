//! Follows many events.

ghost use Rattle.std.specs.Prelude.{◌≡◌, List, ℕ};
ghost use Rattle.std.specs.List.{All};
ghost use Rattle.mirror_rules.specs.Following.{LeadsAlong};
ghost use Rattle.mirror_model.specs.Outcomes.{Follows, HoldsTexts};

use crate::mirror::Mirror;
use edit_batches::Event;
use mirror_rules::{Halt, HaltCause, MirrorError, Tally};

impl Mirror {
    /// Takes the events in order and counts the results. Stops at the first that does not fit or for which memory is short; the mirror is
    /// then as it was before that event. If each event leads from the document's text of its version to the text of the next one, then a
    /// mirror with the text of its version has the text of its new version afterwards, however events are lost or repeated, and none of
    /// them misfits.
    pub fn follow(&mut self, events: &[Event]) -> Result<Tally, Halt>
        ensures events { Follows result self.old self.new events.now }
        ensures texts { (t : ℕ → List ℕ) → All (LeadsAlong t) events.now
            → self.old.units ≡ t self.old.version → HoldsTexts t result self.old self.new }
    {
        let mut tally = Tally {
            applied: 0,
            old: 0,
            gaps: 0,
        };
        for event in events {
            match self.take(event) {
                Ok(true) => tally.applied += 1,
                Ok(false) => tally.old += 1,
                Err(MirrorError::Gap { .. }) => tally.gaps += 1,
                Err(MirrorError::Misfit { batch }) => {
                    let cause = HaltCause::Misfit { batch };
                    return Err(Halt { tally, cause });
                }
                Err(MirrorError::Memory) => {
                    let cause = HaltCause::Memory;
                    return Err(Halt { tally, cause });
                }
            }
        }
        Ok(tally)
    }
}
