//! The brackets of a document.

ghost use Rattle.std.specs.Prelude.{◌≡◌};
ghost use Rattle.std.specs.Option.{option_copied};
ghost use Rattle.document_rules.specs.Brackets.{flat_match, flat_level};
ghost use Rattle.model_page.specs.Asked.{told_parse};
ghost use Rattle.model_core.specs.Questions.{AppendsBrackets, AreFewSteps, Asks};

use crate::model::Model;
use crate::places::{is_position, place_of, told};
use bracket_nodes::Entry;
use document_rules::ModelError;
use node_reuse::Parsed;
use steps::Steps;
use text_lengths::Position;

impl Model {
    /// Returns the last parse, of the present text or an earlier one; None before the first parse since `new` or `open_doc`.
    pub fn parsed(&self) -> Option<&Parsed>
        ensures { option_copied result ≡ told_parse self.now.parsed }
    {
        self.page.parsed()
    }

    /// Returns whether the last parse is of the present text.
    pub fn is_fresh(&self) -> bool
        ensures { result ≡ self.now.fresh }
    {
        self.page.is_fresh()
    }

    /// Appends the brackets of the lines `from` to `to`, both counted from 1 and both included, in the order of the text. `Range` if a line
    /// is missing or `from` is above `to`. On an error `out`, the tree of the last parse and the marks are unchanged.
    pub fn brackets_in(
        &mut self,
        from: u64,
        to: u64,
        out: &mut Vec<Entry>,
    ) -> Result<(), ModelError>
        ensures { AppendsBrackets from to result out.old.items out.new.items self.old self.new }
    {
        self.brackets_in_counted(from, to, out, &mut Steps::new())
    }

    /// Like `brackets_in`, and counts steps. A step is a call that asks the tree of the last parse for a node or a bracket.
    pub fn brackets_in_counted<L>(
        &mut self,
        from: u64,
        to: u64,
        out: &mut Vec<Entry>,
        steps: &mut Steps<L>,
    ) -> Result<(), ModelError>
        ensures brackets { AppendsBrackets from to result out.old.items out.new.items
            self.old self.new }
        ensures steps { AreFewSteps steps.old steps.new self.old }
    {
        if from == 0 || to < from || self.page.text().line_count() < to {
            return Err(ModelError::Range);
        }
        let listed = self.page.brackets_in(from - 1, to - 1, out, steps);
        listed.map_err(|_| ModelError::Memory)
    }

    /// Finds the bracket that matches the one at this position. Returns its position and its length in units; None if no bracket of a pair
    /// starts there. `Range` if the position is invalid. Never `Memory` if the last parse is of the present text. On an error the tree and
    /// the marks are unchanged.
    pub fn match_at(&mut self, p: Position) -> Result<Option<(Position, u64)>, ModelError>
        ensures { Asks (λ f. flat_match f p) result self.old self.new }
    {
        self.match_at_counted(p, &mut Steps::new())
    }

    /// Like `match_at`, and counts steps as `brackets_in_counted` does.
    pub fn match_at_counted<L>(
        &mut self,
        p: Position,
        steps: &mut Steps<L>,
    ) -> Result<Option<(Position, u64)>, ModelError>
        ensures asks { Asks (λ f. flat_match f p) result self.old self.new }
        ensures steps { AreFewSteps steps.old steps.new self.old }
    {
        if !is_position(self.page.text(), p) {
            return Err(ModelError::Range);
        }
        self.page.renew(steps).map_err(|_| ModelError::Memory)?;
        Ok(told(self.page.tree().partner_of(place_of(p))))
    }

    /// Returns how many brackets are open after those that start before the position. `Range` if it is invalid. Never `Memory` if the last
    /// parse is of the present text. On an error the tree and the marks are unchanged.
    pub fn level_at(&mut self, p: Position) -> Result<u64, ModelError>
        ensures { Asks (λ f. flat_level f p) result self.old self.new }
    {
        self.level_at_counted(p, &mut Steps::new())
    }

    /// Like `level_at`, and counts steps as `brackets_in_counted` does.
    pub fn level_at_counted<L>(
        &mut self,
        p: Position,
        steps: &mut Steps<L>,
    ) -> Result<u64, ModelError>
        ensures asks { Asks (λ f. flat_level f p) result self.old self.new }
        ensures steps { AreFewSteps steps.old steps.new self.old }
    {
        if !is_position(self.page.text(), p) {
            return Err(ModelError::Range);
        }
        self.page.renew(steps).map_err(|_| ModelError::Memory)?;
        Ok(self.page.tree().level_at(place_of(p)))
    }
}
