//! The edits of a document's last change, one after another.

ghost use Rattle.std.specs.Prelude.{◌≡◌, ◌==◌, ◌&&◌, ◌++◌, nat_lt, length, Some, slice_get, drop, IfOk};
ghost use Rattle.std.specs.Bool.{OnTrue, OnFalse};
ghost use Rattle.document_rules.specs.Document.{flat_changes};
ghost use Rattle.model_page.specs.InTurn.{told_op};
ghost use Rattle.textmodel_c.specs.Tellings.{change_of, edits_in, units_in, told_edit, told_text, telling_of};

use model_core::{Changes, ContentChange, Model as Document};
use std::alloc::{AllocError, Global};
use std::marker::Model;

/// An edit of a document's last change: `units` units replace those from `start` up to `end`. These offsets refer to the text after the
/// edits before it.
#[repr(C)]
#[derive(Clone, Copy)]
pub struct Change {
    pub start: u64,
    pub end: u64,
    pub units: u64,
}

/// The progress of `tm_next_change`: the present edit of the last change, and those after it.
#[derive(Drop)]
pub struct Telling {
    doc: u64,
    /// The version that the change made.
    version: u64,
    edits: Vec<Change>,
    /// The texts of all edits, one after another.
    texts: Vec<u16>,
    /// The index of the present edit, and the offset of its text in `texts`.
    at: usize,
    from: usize,
}

impl Model for Telling {
    ghost use Rattle.std.specs.Prelude.{◌≡◌, ◌+◌, ◌<◌, length, drop};
    ghost use Rattle.textmodel_c.specs.Tellings.{TellingState, edits_in, units_in};

    ghost Value = { TellingState };

    ghost view = { λ t. record {
      doc = t.doc;
      version = t.version;
      edits = edits_in (drop t.at t.edits.items) (drop t.from t.texts.items);
    } };

    ghost invariant = { λ t. (t.at < length t.edits.items)
        × (t.from + units_in (drop t.at t.edits.items) ≡ length t.texts.items) };
}

impl Telling {
    /// Starts with the first edit of the document's last change; None if there is no edit.
    pub(crate) fn of(
        alloc: Global,
        doc: u64,
        model: &Document,
    ) -> Result<Option<Telling>, AllocError>
        ensures { let f = model.now.document in
            IfOk result (λ telling. telling ≡ telling_of doc f.version (flat_changes f)) }
    {
        let (edits, texts) = collected(alloc, model.changes())?;
        if edits.is_empty() {
            return Ok(None);
        }
        Ok(Some(Telling {
            doc,
            version: model.versions().0,
            edits,
            texts,
            at: 0,
            from: 0,
        }))
    }

    /// Returns whether this is for the given document and version.
    pub(crate) fn is_of(&self, doc: u64, version: u64) -> bool
        ensures { result ≡ (self.now.doc == doc && self.now.version == version) }
    {
        self.doc == doc && self.version == version
    }

    /// Moves on to the next edit; returns false if there is none.
    pub(crate) fn go_on(&mut self) -> bool
        ensures some { result ≡ nat_lt 1 (length self.old.edits) }
        ensures told { OnTrue result (self.new ≡ record self.old { edits = drop 1 self.old.edits }) }
        ensures same { OnFalse result (self.new ≡ self.old) }
    {
        if self.at + 1 == self.edits.len() {
            return false;
        }
        self.from += self.edits[self.at].units as usize;
        self.at += 1;
        true
    }

    /// Returns the present edit.
    pub(crate) fn last(&self) -> Change
        ensures { told_edit self.now.edits ≡ Some result }
    {
        self.edits[self.at]
    }

    /// Returns the text of the present edit.
    pub(crate) fn text(&self) -> &[u16]
        ensures { result.now ≡ told_text self.now.edits }
    {
        let units = self.edits[self.at].units as usize;
        let (_, rest) = self.texts.split_at(self.from);
        let (text, _) = rest.split_at(units);
        text
    }
}

// Collects the edits, and their texts one after another.
fn collected(alloc: Global, mut changes: Changes<'_>) -> Result<(Vec<Change>, Vec<u16>), AllocError>
    ensures edits { IfOk result (λ both. edits_in both.0.items both.1.items ≡ changes.entry) }
    ensures texts { IfOk result (λ both. units_in both.0.items ≡ length both.1.items) }
{
    let mut edits = Vec::new(alloc);
    let mut texts = Vec::new(alloc);
    while let Some(change) = changes.next() {
        edits.push(change_of(change))?;
        texts.extend_from_slice(change.text)?;
    }
    Ok((edits, texts))
}

fn change_of(change: ContentChange<'_>) -> Change
    ensures { result ≡ change_of (told_op change.entry) }
{
    Change {
        start: change.span.start,
        end: change.span.end,
        units: change.text.len() as u64,
    }
}
