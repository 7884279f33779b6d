//! One mirror, and one event.

ghost use Rattle.std.specs.Prelude.{◌≡◌, ◌<◌, ◌≤◌, ◌++◌, length, OnOk, OnErr, IfOk, List, ℕ, Some, None};
ghost use Rattle.text_rules.specs.Lines.{Line, lines_of, line_at};
ghost use Rattle.batch_rules.specs.Batches.{most_units};
ghost use Rattle.batch_rules.specs.Events.{first_misfit, after_batches};
ghost use Rattle.mirror_rules.specs.Mirrors.{taken};
ghost use Rattle.mirror_model.specs.Outcomes.{Takes};

use edit_batches::{Event, SharedBatch};
use mirror_rules::MirrorError;
use std::alloc::{AllocError, Global};
use std::marker::Model;
use text_batches::{apply_to_text, need_of_batches};
use text_buffer::TextBuffer;
use unit_text::{Flat, Kind};

/// A copy of a document's text at some version.
#[derive(Drop)]
pub struct Mirror {
    version: u64,
    text: TextBuffer,
}

impl Model for Mirror {
    ghost use Rattle.std.specs.Prelude.{◌≡◌, ◌≤◌, length};
    ghost use Rattle.unit_text.specs.declared.kind.Kind.TheVariants.{Mixed};
    ghost use Rattle.batch_rules.specs.Batches.{most_units};
    ghost use Rattle.mirror_rules.specs.Mirrors.{MirrorState};

    ghost Value = { MirrorState };

    ghost view = { λ m. record { version = m.version; units = m.text.units } };

    ghost invariant = { λ m. (m.text.kind ≡ Mixed) × (length m.text.units ≤ most_units) };
}

impl Mirror {
    /// Makes a mirror of this text and version. Takes over the vector.
    pub fn of_text(alloc: Global, version: u64, text: Vec<u16>) -> Result<Mirror, AllocError>
        requires { length text.items ≤ most_units }
        ensures { IfOk result (λ m. m ≡ record { version = version; units = text.items }) }
    {
        let text = TextBuffer::of_vec(alloc, text, Kind::Mixed)?;
        Ok(Mirror { version, text })
    }

    /// Returns the version of the text.
    pub fn version(&self) -> u64
        ensures { result ≡ self.now.version }
    {
        self.version
    }

    /// Returns the length of the text in units.
    pub fn len(&self) -> u64
        ensures { result ≡ length self.now.units }
    {
        self.text.len()
    }

    /// Returns the number of lines.
    pub fn line_count(&self) -> u64
        ensures { result ≡ length (lines_of self.now.units) }
    {
        self.text.line_count()
    }

    /// Appends the content of a line, counted from 1. On an error `out` is unchanged.
    pub fn line(&self, n: u64, out: &mut Vec<u16>) -> Result<(), AllocError>
        requires first { 0 < n }
        requires there { n ≤ length (lines_of self.now.units) }
        ensures ok { (line : Line) → line_at self.now.units n ≡ Some line
            → OnOk result (out.new.items ≡ out.old.items ++ line.content) }
        ensures err { OnErr result (out.new.items ≡ out.old.items) }
    {
        self.text.line(n, out)
    }

    /// Takes an event. Returns true if it was the next one: its batches are carried out and the version goes up by 1. Returns false if the
    /// mirror has its version already. `Gap` if earlier events are missing; `Misfit` if a batch of the next event has an op beyond the text
    /// or makes the text too long. Nothing changes unless it returns true.
    pub fn take(&mut self, event: &Event) -> Result<bool, MirrorError>
        ensures { Takes result self.old self.new (taken self.old event.now) }
    {
        let (have, need) = (self.version, event.from());
        if need < have {
            return Ok(false);
        }
        if need > have {
            return Err(MirrorError::Gap { have, need });
        }
        if let Some(batch) = first_misfit(self.text.len(), event.batches()) {
            return Err(MirrorError::Misfit { batch });
        }
        self.carry_out(event.batches())
            .map_err(|_| MirrorError::Memory)?;
        self.version += 1;
        Ok(true)
    }

    // Carries out batches that fit. Reserves all room before the first change. Pieces of few units may be rewritten then.
    fn carry_out(&mut self, batches: &[SharedBatch]) -> Result<(), AllocError>
        requires { first_misfit self.old.units batches.now ≡ None }
        ensures version { self.new.version ≡ self.old.version }
        ensures done { OnOk result (self.new.units ≡ after_batches self.old.units batches.now) }
        ensures same { OnErr result (self.new.units ≡ self.old.units) }
    {
        let need = need_of_batches(batches)?;
        self.text.reserve(need)?;
        for batch in batches {
            apply_to_text(&mut self.text, batch.batch().ops());
        }
        self.text.rewrite_crowded();
        Ok(())
    }
}

// Returns the number of the first batch that does not fit a text of this length, counted from 1.
fn first_misfit(len: u64, batches: &[SharedBatch]) -> Option<u64>
    ensures { (x : List ℕ) → length x ≡ len → result ≡ first_misfit x batches.now }
{
    let mut len = len;
    let mut number = 0;
    for batch in batches {
        number += 1;
        match batch.batch().length_after(len) {
            Some(after) => len = after,
            None => return Some(number),
        }
    }
    None
}
