//! The document.

mod brackets;
pub(crate) mod changes;
mod columns;
mod compact;
mod decorate;
mod edit;
mod endings;
mod event;
mod history;
mod open;
mod queries;
mod search;
mod snapshot;
mod tags;

use crate::latest::Latest;
use edit_stack::EditStack;
use model_page::{Change, Page};
use snapshots::Shelf;
use std::alloc::Global;

/// A document: its page, its versions, its steps of undo and redo, and its snapshots.
#[derive(Drop)]
pub struct Model {
    alloc: Global,
    page: Page,
    version: u64,
    alternative: u64,
    history: EditStack<Change>,
    shelf: Shelf,
    latest: Option<Latest>,
    /// Whether the buffers held too much before the last change, and could not be reduced.
    overfull: bool,
}

impl std::marker::Model for Model {
    ghost use Rattle.std.specs.Prelude.{◌≤◌, length};
    ghost use Rattle.document_rules.specs.Document.{greatest_version};
    ghost use Rattle.std.specs.Coded.{codes};
    ghost use Rattle.bracket_tree_rules.specs.TreeCode.{tree_code};
    ghost use Rattle.model_page.specs.Asked.{read_tree_code};
    ghost use Rattle.model_page.specs.State.{flat_text, is_fresh};
    ghost use Rattle.model_core.specs.State.{ModelState};
    ghost use Rattle.chunk_buffers.specs.Chunks.{unit_count};
    ghost use Rattle.snapshots.specs.Shown.{shown};
    ghost use Rattle.model_core.specs.Shelving.{IsShelf};
    ghost use Rattle.model_core.specs.History.{history_of, last_of, HasLatest, IsHistory};

    ghost Value = { ModelState };

    ghost coded = { Prim.hlevel (codes, tree_code, read_tree_code) };

    ghost view = { λ m. record {
      document = record {
        units = m.page.text.units;
        kind = m.page.text.kind;
        version = m.version;
        alternative = m.alternative;
        decorations = m.page.decorations;
        scanner = m.page.scanner;
        history = history_of (flat_text m.page.text) m.history.stack;
        shelf = shown m.page.text.buffers m.shelf;
        last = last_of m.latest (flat_text m.page.text) m.history.stack;
      };
      parsed = m.page.parsed;
      tree = m.page.tree;
      marks = m.page.marks;
      states = m.page.states;
      fresh = is_fresh m.page;
      pieces = length m.page.text.spans;
      held = unit_count m.page.text.buffers;
      overfull = m.overfull;
      room = record {
        text = m.page.text.room;
        marks = m.page.spare;
        changes = m.history.spare;
      };
    } };

    ghost invariant = { λ m. (m.version ≤ greatest_version)
        × IsHistory (flat_text m.page.text) m.history.stack
        × IsShelf m.page.text.buffers m.shelf
        × HasLatest m.latest m.version m.history.stack };
}
