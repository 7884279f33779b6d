//! The scan of a line in which comments and strings hide brackets.

ghost use Rattle.std.specs.Prelude.{◌≡◌, ◌<◌, ◌++◌, suc, true, length, take, IfSome, IfOk, OnOk, OnErr};
ghost use Rattle.std.specs.Option.{option_to_list};
ghost use Rattle.bracket_rules.specs.Table.{is_table, longest, units_after_first};
ghost use Rattle.hiding_rules.specs.Hidden.{scanner, code, ending, hidden_scan};
ghost use Rattle.bracket_scan.specs.Starts.{IsWithin};
ghost use Rattle.std.specs.List.{position_or_len};
ghost use Rattle.bracket_scan.specs.Parts.{IsPart, may_show, may_matter};

use super::BracketTable;
use bracket_rules::Token;
use hiding_marks::Hiding;
use hiding_rules::{LineState, Within};
use std::alloc::AllocError;

// The first part of some units: its token, if it is one; its length in units, which may reach past the end of the line;
// and what the position after it lies in.
#[derive(Clone, Copy)]
struct Part {
    token: Option<Token>,
    len: usize,
    behind: Within,
}

impl BracketTable {
    /// Appends the tokens of a line that begins in `state` to `out`, without those that comments and strings hide a
    /// part of. Returns the state in which the line ends. If memory is short, `out` is unchanged.
    pub fn scan_from(
        &self,
        hiding: &Hiding,
        state: LineState,
        line: &[u16],
        out: &mut Vec<Token>,
    ) -> Result<LineState, AllocError>
        ensures tokens { let scanned = hidden_scan (scanner self.now hiding.now) state line.now in
            OnOk result (out.new.items ≡ out.old.items ++ scanned.tokens) }
        ensures state { let scanned = hidden_scan (scanner self.now hiding.now) state line.now in
            IfOk result (λ ends. ends ≡ scanned.state) }
        ensures err { OnErr result (out.new.items ≡ out.old.items) }
        ensures table { is_table self.now ≡ true }
    {
        // What it holds is a table.
        let _texts = &self.texts;
        if let LineState::Code = state
            && hiding.is_none()
        {
            self.scan(line, out)?;
            return Ok(LineState::Code);
        }
        let count = out.len();
        let scanned = self.push_shown(hiding, state, line, out);
        if scanned.is_err() {
            out.truncate(count);
        }
        scanned
    }

    /// Returns the state in which a line that begins in `state` ends. Allocates no memory.
    pub fn end_state(&self, hiding: &Hiding, state: LineState, line: &[u16]) -> LineState
        ensures { result ≡ (hidden_scan (scanner self.now hiding.now) state line.now).state }
    {
        if let LineState::Code = state
            && !hiding.has_block()
        {
            return LineState::Code;
        }
        self.end_behind(hiding, state, line)
    }

    // If memory is short, some of the tokens may have been appended.
    fn push_shown(
        &self,
        hiding: &Hiding,
        state: LineState,
        line: &[u16],
        out: &mut Vec<Token>,
    ) -> Result<LineState, AllocError>
        ensures tokens { let scanned = hidden_scan (scanner self.now hiding.now) state line.now in
            OnOk result (out.new.items ≡ out.old.items ++ scanned.tokens) }
        ensures state { let scanned = hidden_scan (scanner self.now hiding.now) state line.now in
            IfOk result (λ ends. ends ≡ scanned.state) }
        ensures err { OnErr result (take (length out.old.items) out.new.items ≡ out.old.items) }
    {
        let mut at = 0;
        let mut within = Within::State(state);
        while at < line.len() {
            let part = self.part(hiding, at as u64, within, &line[at..]);
            push_some(out, part.token)?;
            at += part.len;
            within = part.behind;
        }
        Ok(ending(within))
    }

    // Returns the state after the last part of the line.
    fn end_behind(&self, hiding: &Hiding, state: LineState, line: &[u16]) -> LineState
        ensures { result ≡ (hidden_scan (scanner self.now hiding.now) state line.now).state }
    {
        let mut at = 0;
        let mut within = Within::State(state);
        while at < line.len() {
            let part = self.part(hiding, at as u64, within, &line[at..]);
            at += part.len;
            within = part.behind;
        }
        ending(within)
    }

    // Returns the first part of the units. The first unit is at position `at`; `within` says what it lies in.
    fn part(&self, hiding: &Hiding, at: u64, within: Within, units: &[u16]) -> Part
        requires { 0 < length units.now }
        ensures { IsPart (scanner self.now hiding.now) at within units.now result }
    {
        // What it holds is a table.
        let _texts = &self.texts;
        if let Within::Comment = within {
            // A line comment takes up the rest of its line.
            return Part {
                token: None,
                len: units.len(),
                behind: within,
            };
        }
        let passed = self.passing(hiding, within, units);
        if 0 < passed {
            return Part {
                token: None,
                len: passed,
                behind: within,
            };
        }
        match hiding.hidden(within, units) {
            Some(stretch) => Part {
                token: None,
                len: stretch.units as usize,
                behind: stretch.behind,
            },
            None => self.shown(at, units),
        }
    }

    // Returns the number of units before the first one that may matter.
    fn passing(&self, hiding: &Hiding, within: Within, units: &[u16]) -> usize
        ensures { let matters = may_matter (scanner self.now hiding.now) within in
            result ≡ position_or_len matters units.now }
    {
        let next = units
            .iter()
            .position(|unit| self.may_matter(hiding, within, *unit));
        match next {
            Some(passed) => passed,
            None => units.len(),
        }
    }

    // Returns whether a bracket or a mark may begin with this unit, or the context may end.
    fn may_matter(&self, hiding: &Hiding, within: Within, unit: u16) -> bool
        ensures { result ≡ may_matter (scanner self.now hiding.now) within unit }
    {
        self.may_show(within, unit) || hiding.may_react(within, unit)
    }

    // Returns whether a text of the table may begin with this unit.
    fn may_show(&self, within: Within, unit: u16) -> bool
        ensures { result ≡ may_show self.now within unit }
    {
        match within {
            Within::State(LineState::Code) => self.may_begin(unit),
            Within::State(LineState::Block) | Within::Comment | Within::String(_) => false,
        }
    }

    // Returns a token, or one unit if no token begins with it.
    fn shown(&self, at: u64, units: &[u16]) -> Part
        requires { 0 < length units.now }
        ensures token { result.token ≡ longest at 0 self.now units.now }
        ensures within { IfSome result.token (IsWithin (length units.now)) }
        ensures len { result.len ≡ suc (units_after_first result.token) }
        ensures behind { result.behind ≡ code }
    {
        // What it holds is a table.
        let _texts = &self.texts;
        let token = if self.may_begin(units[0]) {
            self.longest(at, units)
        } else {
            None
        };
        let len = match token {
            Some(token) => token.len as usize,
            None => 1,
        };
        Part {
            token,
            len,
            behind: Within::State(LineState::Code),
        }
    }
}

fn push_some(out: &mut Vec<Token>, token: Option<Token>) -> Result<(), AllocError>
    ensures ok { OnOk result (out.new.items ≡ out.old.items ++ option_to_list token) }
    ensures err { OnErr result (out.new.items ≡ out.old.items) }
{
    if let Some(token) = token {
        out.push(token)?;
    }
    Ok(())
}

fn ending(within: Within) -> LineState
    ensures { result ≡ ending within }
{
    match within {
        Within::State(state) => state,
        Within::Comment | Within::String(_) => LineState::Code,
    }
}
