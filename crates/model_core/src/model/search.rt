//! Finds a text in the document, and replaces all occurrences.

ghost use Rattle.std.specs.Prelude.{◌≡◌, ◌+◌, ◌*◌, ◌++◌, ◌<◌, ◌≤◌, Ok, Err, true, length, IfOk, IfErr, OnOk, OnErr};
ghost use Rattle.unit_text.specs.Units.{IsPaired};
ghost use Rattle.document_rules.specs.Refusals.{limit};
ghost use Rattle.document_rules.specs.Outcomes.{Moves};
ghost use Rattle.document_rules.specs.Paired.{IsPairedState};
ghost use Rattle.search_rules.specs.Occurrences.{AreOccurrences};
ghost use Rattle.search_rules.specs.Replacing.{flat_find, flat_replace_all, replaced, replacing, TakesBack};
ghost use Rattle.model_core.specs.Compact.{KeepsBoundBy};
ghost use Rattle.model_core.specs.Replaced.{replacement_of, IsForRoom, HasReplaced, PreparesReplace};
ghost use Rattle.model_core.specs.State.{KeepsParse};

use crate::model::Model;
use crate::ready::Ready;
use document_rules::ModelError;
use model_find::{find_in, ops_for};
use std::alloc::AllocError;
use steps::Steps;
use text_lengths::Span;
use text_rules::{MOST_TEXT_UNITS, Op};
use unit_text::{Flat, Units};

impl Model {
    /// Appends the spans at which the sought units occur, from left to right and without overlaps. The comparison is literal. Both ends of
    /// a span are valid offsets. On an error `out` is unchanged. Allocates the spans and one number for each sought unit.
    pub fn find(&self, sought: &[u16], out: &mut Vec<Span>) -> Result<(), AllocError>
        requires some { 0 < length sought.now }
        ensures ok { OnOk result (out.new.items
            ≡ out.old.items ++ flat_find self.now.document sought.now) }
        ensures occurrences { let f = self.now.document in
            AreOccurrences f.kind f.units sought.now (flat_find f sought.now) }
        ensures err { OnErr result (out.new.items ≡ out.old.items) }
    {
        self.find_counted(sought, out, &mut Steps::new())
    }

    /// Like `find`, and counts steps. A step is a look at a unit, of the text or of the sought ones.
    pub fn find_counted<L>(
        &self,
        sought: &[u16],
        out: &mut Vec<Span>,
        looks: &mut Steps<L>,
    ) -> Result<(), AllocError>
        requires some { 0 < length sought.now }
        ensures ok { OnOk result (out.new.items
            ≡ out.old.items ++ flat_find self.now.document sought.now) }
        ensures occurrences { let f = self.now.document in
            AreOccurrences f.kind f.units sought.now (flat_find f sought.now) }
        ensures err { OnErr result (out.new.items ≡ out.old.items) }
        ensures cost { looks.new
            ≤ looks.old + 4 * (length self.now.document.units + length sought.now) }
    {
        let text = self.page.text();
        find_in(text.runs_from(0), text.kind(), sought, out, looks)
    }

    /// Replaces all occurrences that `find` finds. The version goes up by 1. Returns false if there are none. `Limit` if the new text or
    /// the version would pass its limit. The change is its own step of undo. It does not force decorations.
    pub fn replace_all(&mut self, sought: &[u16], with: &[u16]) -> Result<bool, ModelError>
        requires some { 0 < length sought.now }
        ensures document { Moves result self.old.document self.new.document
            (flat_replace_all self.old.document sought.now with.now) }
        ensures refused { IfErr result IsForRoom }
        ensures text { let f = self.old.document in result ≡ Ok true
            → self.new.document.units ≡ replaced f.kind f.units (flat_find f sought.now) with.now }
        ensures back { result ≡ Ok true → TakesBack self.old.document self.new.document }
        ensures paired_state { IsPaired with.now
            → IsPairedState self.old.document → IsPairedState self.new.document }
        ensures parse { HasReplaced sought.now with.now result self.old self.new }
        ensures held { result ≡ Ok true → KeepsBoundBy
            (replacement_of self.old.document sought.now with.now) self.old self.new }
    {
        let Some(ready) = self.prepare_replace_all(sought, with)? else {
            return Ok(false);
        };
        self.commit_alone(ready);
        Ok(true)
    }

    /// Prepares to replace all occurrences that `find` finds, and reserves room for it; None if there are none. `Limit` if the new text or
    /// the version would pass its limit. The document is unchanged.
    pub fn prepare_replace_all(
        &mut self,
        sought: &[u16],
        with: &[u16],
    ) -> Result<Option<Ready>, ModelError>
        requires some { 0 < length sought.now }
        ensures document { self.new.document ≡ self.old.document }
        ensures parse { KeepsParse self.old self.new }
        ensures ready { PreparesReplace sought.now with.now result self.new }
    {
        if self.outgrows(sought, with).map_err(|_| ModelError::Memory)? {
            return Err(ModelError::Limit);
        }
        let ops = self
            .replacing(sought, with)
            .map_err(|_| ModelError::Memory)?;
        if ops.is_empty() {
            return Ok(None);
        }
        Ok(Some(self.prepare(ops)?))
    }

    // Returns the edits that replace all occurrences.
    fn replacing(&self, sought: &[u16], with: &[u16]) -> Result<Vec<Op>, AllocError>
        requires some { 0 < length sought.now }
        ensures { IfOk result (λ ops. ops.items
            ≡ replacing (flat_find self.now.document sought.now) with.now) }
    {
        let text = self.page.text();
        ops_for(
            self.alloc,
            text.runs_from(0),
            text.kind(),
            sought,
            with,
            &mut Steps::new(),
        )
    }

    // Returns true only if the replacement would make the text too long. Finds this out before the new text is copied for each occurrence.
    fn outgrows(&self, sought: &[u16], with: &[u16]) -> Result<bool, AllocError>
        requires some { 0 < length sought.now }
        ensures { result ≡ Ok true
            → flat_replace_all self.now.document sought.now with.now ≡ Err limit }
    {
        let text = self.page.text();
        // At most every unit is replaced, and line endings at most double the new text.
        let most_added = text
            .len()
            .saturating_mul(with.len() as u64)
            .saturating_mul(2);
        if text.len().saturating_add(most_added) <= MOST_TEXT_UNITS {
            return Ok(false);
        }
        let mut found = Vec::new(self.alloc);
        self.find(sought, &mut found)?;
        let mut new = Units::copy_of(self.alloc, with)?;
        new.normalize(text.kind())?;
        let count = found.len() as u64;
        let added = count.saturating_mul(new.as_slice().len() as u64);
        let removed = count.saturating_mul(sought.len() as u64);
        Ok(added > MOST_TEXT_UNITS - text.len().saturating_sub(removed))
    }
}
