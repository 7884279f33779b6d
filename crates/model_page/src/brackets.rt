//! The brackets of a page.

ghost use Rattle.std.specs.Prelude.{◌≡◌, ◌++◌, Some, true, IfOk, OnOk, OnErr};
ghost use Rattle.std.specs.Option.{option_copied};
ghost use Rattle.bracket_rules.specs.Table.{is_table};
ghost use Rattle.model_page.specs.Counting.{TakesFewSteps};
ghost use Rattle.model_page.specs.Entries.{entries_in};
ghost use Rattle.model_page.specs.State.{Renews, is_fresh};
ghost use Rattle.model_page.specs.Asked.{told_parse, AreStatesOf};
ghost use Rattle.model_page.specs.Staying.{fresh_tree, IsKept, IsParseOf};

use crate::last_parse::ReadParse;
use crate::page::Page;
use crate::text_lines::TextLines;
use bracket_nodes::{Entry, Node};
use line_states::LineStates;
use node_reuse::{Parsed, reparse};
use std::alloc::{AllocError, Global};
use steps::Steps;

impl Page {
    /// Returns the last parse, of the present text or an earlier one; None before the first parse.
    pub fn parsed(&self) -> Option<&Parsed>
        ensures { option_copied result ≡ told_parse self.now.parsed }
    {
        self.last.parsed()
    }

    /// Returns whether the last parse is of the present text.
    pub fn is_fresh(&self) -> bool
        ensures { result ≡ is_fresh self.now }
    {
        self.last.fresh().is_some()
    }

    /// Returns the tree of the last parse, which is of the present text.
    pub fn tree(&self) -> &Node
        requires { is_fresh self.now ≡ true }
        ensures tree { fresh_tree self.now.tree self.now.marks ≡ Some result.now }
        ensures kept { IsKept (Some result.now) self.now.scanner self.now.text.units }
    {
        self.last.fresh().unwrap()
    }

    /// Parses the text again unless the last parse is of the present text. Fails only when it parses; everything is then unchanged. A step
    /// is a call that asks the old text.
    pub fn renew<L>(&mut self, steps: &mut Steps<L>) -> Result<(), AllocError>
        ensures parse { Renews result self.old self.new }
        ensures sure { is_fresh self.old ≡ true → OnErr result ⊥ }
        ensures steps { TakesFewSteps self.old.tree self.old.states self.old.marks
            self.old.scanner self.old.text.units steps.old steps.new }
        ensures no_step { is_fresh self.old ≡ true → steps.new ≡ steps.old }
    {
        if !self.is_fresh() {
            let (parse, states) = self.parse_again(steps)?;
            self.last.put(parse, states);
        }
        Ok(())
    }

    /// Appends the brackets of the lines `from` to `to`, both counted from 0 and both included, in the order of the text. Parses the text
    /// first unless the last parse is of the present text. On an error `out` and the page are unchanged. A step is a call that asks the old
    /// text.
    pub fn brackets_in<L>(
        &mut self,
        from: u64,
        to: u64,
        out: &mut Vec<Entry>,
        steps: &mut Steps<L>,
    ) -> Result<(), AllocError>
        ensures ok { OnOk result (out.new.items ≡ out.old.items ++ entries_in self.old from to) }
        ensures err { OnErr result (out.new.items ≡ out.old.items) }
        ensures table { OnOk result (is_table self.old.scanner.table ≡ true) }
        ensures parse { Renews result self.old self.new }
        ensures steps { TakesFewSteps self.old.tree self.old.states self.old.marks
            self.old.scanner self.old.text.units steps.old steps.new }
        ensures no_step { is_fresh self.old ≡ true → steps.new ≡ steps.old }
    {
        if let Some(tree) = self.last.fresh() {
            return tree.entries(from, to, out);
        }
        let (parse, states) = self.parse_again(steps)?;
        parse.parsed.tree().entries(from, to, out)?;
        self.last.put(parse, states);
        Ok(())
    }

    // Parses the text, and returns the states of its lines too. Reuses the last parse: reads only lines that are new or begin in another
    // state. A step is a call that asks the old text.
    fn parse_again<L>(&self, steps: &mut Steps<L>) -> Result<(ReadParse, LineStates), AllocError>
        ensures parsed { IfOk result (λ new. IsParseOf self.now.scanner self.now.text.units
            self.now.states self.now.marks new.0) }
        ensures states { IfOk result (λ new.
            AreStatesOf self.now.scanner self.now.text.units new.1) }
        ensures steps { TakesFewSteps self.now.tree self.now.states self.now.marks
            self.now.scanner self.now.text.units steps.old steps.new }
    {
        let (table, hiding) = (&self.table, &self.hiding);
        let mut lines = TextLines::new(&self.text);
        let settled = self.last.settle(self.alloc, table, hiding, &mut lines)?;
        let old = self.last.old(self.alloc, &settled);
        let parsed = reparse(self.alloc, old, &settled, table, hiding, &mut lines, steps)?;
        // For the proof: no list of the tree is high.
        let _highest = parsed.tree().highest();
        let parse = ReadParse {
            parsed,
            read: lines.asked,
        };
        Ok((parse, settled.into_states()))
    }
}
