//! Opens documents.

ghost use Rattle.std.specs.Prelude.{◌≡◌, ◌≤◌, ◌∷◌, [], false, length, replicate, None, OnOk, OnErr, IfOk, IfErr};
ghost use Rattle.unit_text.specs.Units.{IsPaired};
ghost use Rattle.unit_text.specs.declared.kind.Kind.TheVariants.{Mixed};
ghost use Rattle.unit_text.specs.Kinds.{normalized, IsOfKind};
ghost use Rattle.batch_rules.specs.Batches.{most_units};
ghost use Rattle.model_page.specs.State.{IsNew};
ghost use Rattle.document_rules.specs.Outcomes.{Changes, RefusedFor};
ghost use Rattle.hiding_rules.specs.Hidden.{scanner, standard_scanner};
ghost use Rattle.document_rules.specs.Paired.{IsPairedState};
ghost use Rattle.mark_rules.specs.declared.Mark.TheVariants.{New};
ghost use Rattle.model_core.specs.Opened.{Opens, HasOpened, IsUnparsed};
ghost use Rattle.document_rules.specs.Document.{new_document, unless_too_long, flat_open};

use crate::model::Model;
use bracket_scan::{BracketTable, Hiding};
use document_rules::ModelError;
use edit_batches::MOST_TEXT_UNITS;
use edit_stack::EditStack;
use model_page::Page;
use snapshots::Shelf;
use std::alloc::Global;
use unit_text::{Kind, is_of_kind, norm_of};

impl Model {
    /// Makes an empty document with version 1.
    pub fn new(alloc: Global) -> Model
        ensures document { result.document ≡ new_document [] standard_scanner Mixed }
        ensures parsed { result.parsed ≡ None }
        ensures tree { result.tree ≡ None }
        ensures marks { result.marks ≡ New ∷ [] }
        ensures fresh { result.fresh ≡ false }
        ensures pieces { result.pieces ≡ 0 }
    {
        Model {
            alloc,
            page: Page::new(alloc),
            version: 1,
            alternative: 1,
            history: EditStack::new(alloc),
            shelf: Shelf::new(alloc),
            latest: None,
            overfull: false,
        }
    }

    /// Makes a document with this text, these brackets, and the comments and strings in which brackets are ignored. All line endings are
    /// changed to the kind. `Limit` if the text is then too long, `Memory` if there is no memory for it.
    pub fn opened(
        alloc: Global,
        text: &[u16],
        table: BracketTable,
        kind: Kind,
        hiding: Hiding,
    ) -> Result<Model, ModelError>
        ensures document { Opens result (flat_open text.now (scanner table hiding) kind) }
        ensures paired_state { IsPaired text.now
            → IfOk result (λ model. IsPairedState model.document) }
        ensures parse { IfOk result (IsUnparsed (normalized kind text.now)) }
    {
        let page = page_of(alloc, text, table, kind, hiding)?;
        Ok(Model {
            alloc,
            page,
            version: 1,
            alternative: 1,
            history: EditStack::new(alloc),
            shelf: Shelf::new(alloc),
            latest: None,
            overfull: false,
        })
    }

    /// Replaces the document by a new one, as `opened` makes it. On an error the document is unchanged.
    pub fn open_doc(
        &mut self,
        text: &[u16],
        table: BracketTable,
        kind: Kind,
        hiding: Hiding,
    ) -> Result<(), ModelError>
        ensures document { Changes result self.old.document self.new.document
            (flat_open text.now (scanner table hiding) kind) }
        ensures paired_state { IsPaired text.now → IsPairedState self.old.document
            → IsPairedState self.new.document }
        ensures parse { HasOpened (normalized kind text.now) result self.old self.new }
    {
        *self = Model::opened(self.alloc, text, table, kind, hiding)?;
        Ok(())
    }
}

// Makes a page of the text with all line endings of the kind. Does not copy a text that has them already.
fn page_of(
    alloc: Global,
    text: &[u16],
    table: BracketTable,
    kind: Kind,
    hiding: Hiding,
) -> Result<Page, ModelError>
    ensures new { IfOk result (IsNew (normalized kind text.now) kind (scanner table hiding)) }
    ensures fits { OnOk result (length (normalized kind text.now) ≤ most_units) }
    ensures refused { IfErr result (λ e. RefusedFor e (flat_open text.now (scanner table hiding) kind)) }
{
    if is_of_kind(text, kind) {
        return new_page(alloc, text, table, kind, hiding);
    }
    let mut units = Vec::new(alloc);
    norm_of(text, kind, &mut units).map_err(|_| ModelError::Memory)?;
    new_page(alloc, &units, table, kind, hiding)
}

// Makes a page of a text of this kind.
fn new_page(
    alloc: Global,
    units: &[u16],
    table: BracketTable,
    kind: Kind,
    hiding: Hiding,
) -> Result<Page, ModelError>
    requires { IsOfKind kind units.now }
    ensures new { IfOk result (IsNew units.now kind (scanner table hiding)) }
    ensures fits { OnOk result (length units.now ≤ most_units) }
    ensures refused { IfErr result (λ e. RefusedFor e (unless_too_long units.now (scanner table hiding) kind)) }
{
    if units.len() as u64 > MOST_TEXT_UNITS {
        return Err(ModelError::Limit);
    }
    Page::open(alloc, units, kind, table, hiding).map_err(|_| ModelError::Memory)
}
