//! The snapshots of a document.

ghost use Rattle.std.specs.Prelude.{◌≡◌, Err};
ghost use Rattle.document_rules.specs.Outcomes.{Changes, ChangesWith, Appends};
ghost use Rattle.document_rules.specs.Paired.{IsPairedState};
ghost use Rattle.model_core.specs.State.{KeepsParse};
ghost use Rattle.document_rules.specs.Snapshots.{flat_snapshot, flat_peek_of, flat_skipped, flat_close_of, EndsBesidePairs};

use crate::errors::shelf_error_of;
use crate::model::Model;
use document_rules::ModelError;

impl Model {
    /// Opens a snapshot of the present text, to be read from its start, and returns its id. Copies no units. Later edits do not change it.
    /// `Limit` if 1,000 are open or the id would be above 2^63 - 1.
    pub fn snapshot(&mut self) -> Result<u64, ModelError>
        ensures document { ChangesWith self.old.document.shelf.next_id result
            self.old.document self.new.document (flat_snapshot self.old.document) }
        ensures paired_state { IsPairedState self.old.document → IsPairedState self.new.document }
        ensures parse { KeepsParse self.old self.new }
    {
        let mut spans = Vec::new(self.alloc);
        self.page
            .text()
            .spans(&mut spans)
            .map_err(|_| ModelError::Memory)?;
        self.shelf.take(spans).map_err(shelf_error_of)
    }

    /// Appends the next `count` units of a snapshot, or all that are left if there are fewer; one fewer if that would split a surrogate
    /// pair. Does not move on: `skip` does. `Unknown` if no snapshot with this id is open; else `Range` if `count` is below 2. On an error
    /// `out` is unchanged.
    pub fn peek(&self, id: u64, count: u64, out: &mut Vec<u16>) -> Result<(), ModelError>
        ensures { Appends result out.old.items out.new.items
            (flat_peek_of self.now.document id count) }
    {
        let chunks = self.page.text().chunks();
        self.shelf
            .peek(id, count, chunks, out)
            .map_err(shelf_error_of)
    }

    /// Moves on in a snapshot by its next `n` units. Does nothing if no snapshot with this id is open. Allocates nothing.
    pub fn skip(&mut self, id: u64, n: u64)
        ensures document { self.new.document ≡ flat_skipped self.old.document id n }
        ensures paired_state { EndsBesidePairs self.old.document id n
            → IsPairedState self.old.document → IsPairedState self.new.document }
        ensures parse { KeepsParse self.old self.new }
    {
        self.shelf.skip(id, n);
    }

    /// Closes a snapshot. Its id is not used again. `Unknown` if no snapshot with this id is open. Never fails with `Memory`.
    pub fn close(&mut self, id: u64) -> Result<(), ModelError>
        ensures document { Changes result self.old.document self.new.document
            (flat_close_of self.old.document id) }
        ensures paired_state { IsPairedState self.old.document → IsPairedState self.new.document }
        ensures parse { KeepsParse self.old self.new }
        ensures sure { ¬ (result ≡ Err ModelError.Memory) }
    {
        self.shelf.close(id).map_err(shelf_error_of)
    }
}
