//! A text with line endings of two kinds.

ghost use Rattle.std.specs.Prelude.{◌≡◌, ◌<◌, ◌≤◌, Err, IfOk, length};
ghost use Rattle.unit_text.specs.Kinds.{normalized, IsOfKind};
ghost use Rattle.decoration_rules.specs.Lines.{AreLineMoves};
ghost use Rattle.decoration_rules.specs.LineMoves.{line_moves, HaveSameContents};

use crate::lines::{line_moves, turned};
use crate::side::Side;
use std::alloc::{AllocError, Global};
use std::marker::Model;
use text_rules::MOST_TEXT_UNITS;
use thiserror::Error;
use unit_text::{Flat, Kind, norm_of};

/// Why a text was not recast.
#[derive(Clone, Copy, PartialEq, Eq, Debug, Error)]
pub enum RecastError {
    /// The new text would have more units than a text may have.
    #[error("the new text would be too long")]
    Limit,
    /// There was no memory for the new text.
    #[error("out of memory")]
    Memory,
}

impl From<AllocError> for RecastError {
    ghost use Rattle.std.specs.Prelude.{◌≡◌};
    ghost use Rattle.recasts.specs.declared.recast.RecastError.TheVariants.{Memory};

    ghost from_gives = { λ _ e. e ≡ Memory };

    fn from(_error: AllocError) -> RecastError {
        RecastError::Memory
    }
}

/// A text, and the same text with line endings of another kind, with the moves of the lines in both directions.
#[derive(Drop)]
pub struct Recast {
    before: Side,
    after: Side,
}

impl Model for Recast {
    ghost use Rattle.decoration_rules.specs.Recasts.{RecastState, recast_of, AreSides};

    ghost Value = { RecastState };

    ghost view = { λ r. recast_of r.before r.after };

    ghost invariant = { λ r. AreSides r.before r.after };
}

impl Recast {
    /// Returns the recast of the text to the kind. Fails with `Limit` if the new text would have more than [`MOST_TEXT_UNITS`] units, and
    /// with `Memory` if memory is short.
    pub fn of<F: Flat>(alloc: Global, text: &F, kind: Kind) -> Result<Recast, RecastError>
        requires fits { length (F.units text.now) ≤ MOST_TEXT_UNITS }
        requires endings { IsOfKind (F.kind text.now) (F.units text.now) }
        ensures ok { IfOk result (λ r. r ≡ record {
          before = F.units text.now;
          from = F.kind text.now;
          after = normalized kind (F.units text.now);
          to = kind;
        }) }
        ensures fits { IfOk result (λ r. length r.after ≤ MOST_TEXT_UNITS) }
        ensures limit { result ≡ Err RecastError.Limit
            → MOST_TEXT_UNITS < length (normalized kind (F.units text.now)) }
    {
        let before = copied(alloc, text)?;
        let after = normalized(alloc, &before, kind)?;
        if after.len() as u64 > MOST_TEXT_UNITS {
            return Err(RecastError::Limit);
        }
        let on = line_moves(alloc, &before, &after)?;
        let back = turned(alloc, &on)?;
        Ok(Recast {
            before: Side::new(before, text.kind(), back),
            after: Side::new(after, kind, on),
        })
    }

    /// Returns the old text, and the moves of the lines back to it.
    pub fn before(&self) -> &Side
        ensures side { result.now ≡ record {
          units = self.now.before;
          kind = self.now.from;
          moves = line_moves self.now.after self.now.before;
        } }
        ensures same { self.now.after ≡ normalized self.now.to self.now.before }
        ensures contents { HaveSameContents self.now.after self.now.before }
        ensures endings { IsOfKind self.now.from self.now.before }
        ensures lines { AreLineMoves result.now.moves }
        ensures fits { length self.now.before ≤ MOST_TEXT_UNITS }
    {
        &self.before
    }

    /// Returns the text with the new line endings, and the moves of the lines to it.
    pub fn after(&self) -> &Side
        ensures side { result.now ≡ record {
          units = self.now.after;
          kind = self.now.to;
          moves = line_moves self.now.before self.now.after;
        } }
        ensures same { self.now.after ≡ normalized self.now.to self.now.before }
        ensures contents { HaveSameContents self.now.before self.now.after }
        ensures endings { IsOfKind self.now.to self.now.after }
        ensures lines { AreLineMoves result.now.moves }
        ensures fits { length self.now.after ≤ MOST_TEXT_UNITS }
    {
        &self.after
    }
}

/// Copies the units of the whole text.
fn copied<F: Flat>(alloc: Global, text: &F) -> Result<Vec<u16>, AllocError>
    ensures { IfOk result (λ copy. copy.items ≡ F.units text.now) }
{
    let mut copy = Vec::with_capacity(alloc, text.len() as usize)?;
    text.copy(0, text.len(), &mut copy)?;
    Ok(copy)
}

/// Returns a copy of the units with the line endings of the kind.
fn normalized(alloc: Global, units: &[u16], kind: Kind) -> Result<Vec<u16>, AllocError>
    ensures { IfOk result (λ others. others.items ≡ normalized kind units.now) }
{
    let mut others = Vec::new(alloc);
    norm_of(units, kind, &mut others)?;
    Ok(others)
}
