//! A page: a document without its versions and its history.

ghost use Rattle.std.specs.Prelude.{◌≡◌, ◌≤◌, ◌&&◌, [], None, Some, length, if◌then◌else◌, IfOk, OnOk};
ghost use Rattle.batch_rules.specs.Batches.{most_units};
ghost use Rattle.hiding_rules.specs.Hidden.{scanner, standard_scanner};
ghost use Rattle.decoration_rules.specs.Decorations.{Decorates};
ghost use Rattle.unit_text.specs.declared.kind.Kind.TheVariants.{Mixed};
ghost use Rattle.unit_text.specs.Kinds.{IsOfKind};
ghost use Rattle.text_rules.specs.Positions.{is_position, offset_of};
ghost use Rattle.model_page.specs.Carrying.{AreIn};
ghost use Rattle.model_page.specs.State.{HasRoom, IsNew, IsUntouched, KeepsRoom, decorated_on};

use crate::last_parse::{LastParse, unparsed};
use bracket_scan::{BracketTable, Hiding};
use decorations::{DecoError, DecoSet, NewDeco};
use std::alloc::{AllocError, Global};
use std::marker::Model;
use text_buffer::{Need, TextBuffer};
use text_lengths::Position;
use text_rules::Op;
use unit_text::Kind;

/// A text with its decorations and the last parse of its brackets.
///
/// The text is within the limit of units, and the decorations are within the text. The tree of the last parse fits every line that no edit
/// has touched since.
#[derive(Drop)]
pub struct Page {
    pub(crate) alloc: Global,
    pub(crate) text: TextBuffer,
    pub(crate) decorations: DecoSet,
    pub(crate) table: BracketTable,
    pub(crate) hiding: Hiding,
    pub(crate) last: LastParse,
}

impl Model for Page {
    ghost use Rattle.std.specs.Coded.{codes};
    ghost use Rattle.bracket_tree_rules.specs.TreeCode.{tree_code};
    ghost use Rattle.model_page.specs.Asked.{read_tree_code};
    ghost use Rattle.model_page.specs.State.{PageState, IsPage};

    ghost Value = { PageState };

    ghost coded = { Prim.hlevel (codes, tree_code, read_tree_code) };

    ghost use Rattle.model_page.specs.View.{page_of};

    ghost view = { page_of };

    ghost invariant = { λ p. IsPage (page_of p) };
}

impl Page {
    /// Makes an empty text with the standard brackets.
    pub fn new(alloc: Global) -> Page
        ensures page { IsNew [] Mixed standard_scanner result }
        ensures pieces { length result.text.spans ≡ 0 }
    {
        Page {
            alloc,
            text: TextBuffer::new(alloc),
            decorations: DecoSet::new(alloc),
            table: BracketTable::standard(),
            hiding: Hiding::none(),
            last: LastParse::none(alloc),
        }
    }

    /// Makes a page of these units, whose line endings are of the kind, with these brackets. Those in comments and strings are ignored.
    pub fn open(
        alloc: Global,
        units: &[u16],
        kind: Kind,
        table: BracketTable,
        hiding: Hiding,
    ) -> Result<Page, AllocError>
        requires fits { length units.now ≤ most_units }
        requires endings { IsOfKind kind units.now }
        ensures { IfOk result (IsNew units.now kind (scanner table hiding)) }
    {
        let (text, last) = unparsed(alloc, units, kind)?;
        Ok(Page {
            alloc,
            text,
            decorations: DecoSet::new(alloc),
            table,
            hiding,
            last,
        })
    }

    /// Returns the text.
    pub fn text(&self) -> &TextBuffer
        ensures text { result.now ≡ self.now.text }
        ensures endings { IsOfKind self.now.text.kind self.now.text.units }
        ensures fits { length self.now.text.units ≤ most_units }
    {
        &self.text
    }

    /// Returns the decorations. They are within the text.
    pub fn decorations(&self) -> &DecoSet
        ensures decorations { result.now ≡ self.now.decorations }
        ensures inside { AreIn (length self.now.text.units) self.now.decorations }
    {
        &self.decorations
    }

    /// Removes decorations of an owner and adds new ones, as `DecoSet::delta` does.
    pub fn decorate(
        &mut self,
        owner: u64,
        remove: &[u64],
        add: &[NewDeco],
    ) -> Result<u64, DecoError>
        ensures change { Decorates result self.old.decorations self.new.decorations
            (decorated_on self.old owner remove.now add.now) }
        ensures same { self.new ≡ record self.old { decorations = self.new.decorations } }
    {
        self.decorations.delta(owner, remove, add, &self.text)
    }

    /// Reserves room for edits. Never reduces it. On an error the page is unchanged.
    pub fn reserve(&mut self, need: Need) -> Result<(), AllocError>
        ensures room { OnOk result (HasRoom self.new need) }
        ensures kept { KeepsRoom self.old self.new }
        ensures same { IsUntouched self.old self.new }
    {
        self.text.reserve(need)?;
        self.last.reserve(need.edits)
    }

    /// Looks up the ends of the ops, so that carrying them out needs no search. Does nothing if memory is short.
    pub fn seek(&mut self, ops: &[Op])
        ensures { self.new ≡ self.old }
    {
        self.text.seek(ops);
    }

    /// Converts a position into an offset; None if it is invalid. Remembers the pieces for the next edit.
    pub fn locate(&mut self, position: Position) -> Option<u64>
        ensures offset { result ≡ (if is_position self.old.text.units position
            then Some (offset_of self.old.text.units position) else None) }
        ensures same { self.new ≡ self.old }
    {
        self.text.locate(position)
    }
}
