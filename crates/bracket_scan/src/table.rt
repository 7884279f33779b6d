// Tables, and the scan of a line.
ghost use Rattle.std.specs.Prelude.{◌≡◌, ◌<◌, ◌↔◌, ◌++◌, ◌∷◌, ℕ, List, true, false, length, take, IsTrue, IfSome, IfOk, OnOk, OnErr};
ghost use Rattle.bracket_rules.specs.Table.{is_table, standard_table, longest, tokens_of};
ghost use Rattle.std.specs.List.{position};
ghost use Rattle.bracket_scan.specs.Firsts.{may_begin, Indexes};
ghost use Rattle.bracket_scan.specs.Starts.{IsWithin};
ghost use Rattle.bracket_scan.specs.Texts.{Dispatches};

mod hidden;

use crate::firsts::{firsts_of, is_first, standard_firsts};
use crate::rules::is_table;
use crate::starts::{BUCKETS, Start, longest_among, starts_in};
use bracket_rules::Token;
use std::alloc::{AllocError, Global};
use std::marker::Model;
use thiserror::Error;
use unit_text::Units;

/// The reason why no table was created.
#[derive(Clone, Copy, PartialEq, Eq, Debug, Error)]
pub enum TableError {
    /// The pairs are not a table: there are none or more than 64, a text is empty, has more than 32 units or contains a
    /// line break, or two texts are equal.
    #[error("the pairs are no bracket table")]
    BadTable,
    /// Memory for the table is short.
    #[error("out of memory")]
    Memory,
}

/// A bracket table: pairs of an opening and a closing text. The kind of a pair is its index.
#[derive(Drop)]
pub struct BracketTable {
    texts: Texts,
}

#[derive(Drop)]
enum Texts {
    // `()`, `[]` and `{}`, without allocated memory.
    Standard,
    // The pairs, for each bucket of units the texts whose first unit is in it, and the index of the first units.
    Listed(Vec<(Units, Units)>, Vec<Vec<Start>>, Vec<bool>),
}

impl Model for BracketTable {
    ghost use Rattle.bracket_rules.specs.Table.{Table};

    ghost Value = { Table };

    ghost use Rattle.bracket_scan.specs.Texts.{pairs_of, AreTexts};

    ghost view = { λ table. pairs_of table.texts };

    ghost invariant = { λ table. AreTexts table.texts };
}

impl BracketTable {
    /// Returns the table of `()`, `[]` and `{}`.
    pub fn standard() -> BracketTable
        ensures { result ≡ standard_table }
    {
        BracketTable {
            texts: Texts::Standard,
        }
    }

    /// Creates the table of these pairs. Fails with `BadTable` if they are not a table, and with `Memory` if memory is
    /// short.
    pub fn new(alloc: Global, pairs: &[(Units, Units)]) -> Result<BracketTable, TableError>
        ensures ok { IfOk result (λ table. table ≡ pairs.now) }
        ensures bad { (result ≡ Err TableError.BadTable) ↔ (is_table pairs.now ≡ false) }
    {
        if !is_table(pairs) {
            return Err(TableError::BadTable);
        }
        match listed(alloc, pairs) {
            Ok(table) => Ok(table),
            Err(AllocError) => Err(TableError::Memory),
        }
    }

    /// Appends the tokens of the line to `out`, from left to right: at each position the longest text of the table that
    /// begins there. If memory is short, `out` is unchanged.
    pub fn scan(&self, line: &[u16], out: &mut Vec<Token>) -> Result<(), AllocError>
        ensures ok { OnOk result (out.new.items ≡ out.old.items ++ tokens_of self.now line.now) }
        ensures err { OnErr result (out.new.items ≡ out.old.items) }
        ensures table { is_table self.now ≡ true }
    {
        // The invariant shows that the pairs are a table.
        let _texts = &self.texts;
        let count = out.len();
        let scanned = self.push_tokens(line, out);
        if scanned.is_err() {
            out.truncate(count);
        }
        scanned
    }

    // If memory is short, some of the tokens may have been appended.
    fn push_tokens(&self, line: &[u16], out: &mut Vec<Token>) -> Result<(), AllocError>
        ensures ok { OnOk result (out.new.items ≡ out.old.items ++ tokens_of self.now line.now) }
        ensures err { OnErr result (take (length out.old.items) out.new.items ≡ out.old.items) }
    {
        // The invariant shows that the pairs are a table.
        let _texts = &self.texts;
        let mut at = 0;
        while let Some(passed) = self.next_start(&line[at..]) {
            at += passed;
            match self.longest(at as u64, &line[at..]) {
                Some(token) => {
                    out.push(token)?;
                    at += token.len as usize;
                }
                None => at += 1,
            }
        }
        Ok(())
    }

    // Returns the first position at which a text of the table may begin.
    fn next_start(&self, units: &[u16]) -> Option<usize>
        ensures { result ≡ position (may_begin self.now) units.now }
    {
        let firsts = self.firsts();
        units.iter().position(|unit| is_first(firsts, *unit))
    }

    // Returns whether a text of the table may begin with this unit.
    fn may_begin(&self, unit: u16) -> bool
        ensures { result ≡ may_begin self.now unit }
    {
        is_first(self.firsts(), unit)
    }

    // Returns the index of the first units of the table.
    fn firsts(&self) -> &[bool]
        ensures { Indexes self.now result.now }
    {
        match &self.texts {
            Texts::Standard => standard_firsts(),
            Texts::Listed(_, _, firsts) => firsts,
        }
    }

    // Returns the longest text of the table with which the units begin, as a token at position `at`.
    fn longest(&self, at: u64, units: &[u16]) -> Option<Token>
        requires { 0 < length units.now }
        ensures longest { result ≡ longest at 0 self.now units.now }
        ensures within { IfSome result (IsWithin (length units.now)) }
    {
        match &self.texts {
            Texts::Standard => standard_token(at, units[0]),
            Texts::Listed(pairs, starts, _) => {
                let bucket = (units[0] % BUCKETS) as usize;
                longest_among(pairs, at, &starts[bucket], units)
            }
        }
    }
}

fn listed(alloc: Global, pairs: &[(Units, Units)]) -> Result<BracketTable, AllocError>
    requires { IsTrue (is_table pairs.now) }
    ensures { IfOk result (λ table. table ≡ pairs.now) }
{
    let starts = starts_of(alloc, pairs)?;
    let firsts = firsts_of(alloc, pairs)?;
    let pairs = copies_of(alloc, pairs)?;
    Ok(BracketTable {
        texts: Texts::Listed(pairs, starts, firsts),
    })
}

fn copies_of(alloc: Global, pairs: &[(Units, Units)]) -> Result<Vec<(Units, Units)>, AllocError>
    ensures { IfOk result (λ copies. copies.items ≡ pairs.now) }
{
    let mut copies = Vec::new(alloc);
    for pair in pairs {
        let opening = Units::copy_of(alloc, pair.0.as_slice())?;
        let closing = Units::copy_of(alloc, pair.1.as_slice())?;
        copies.push((opening, closing))?;
    }
    Ok(copies)
}

fn starts_of(alloc: Global, pairs: &[(Units, Units)]) -> Result<Vec<Vec<Start>>, AllocError>
    ensures { IfOk result (λ starts. Dispatches BUCKETS pairs.now starts.items) }
{
    let mut starts = Vec::new(alloc);
    for bucket in 0..BUCKETS {
        starts.push(starts_in(alloc, bucket, pairs)?)?;
    }
    Ok(starts)
}

// Returns the token of the standard table for this unit; None if the unit is not a bracket.
fn standard_token(at: u64, unit: u16) -> Option<Token>
    ensures { (units : List ℕ) → result ≡ longest at 0 standard_table (unit ∷ units) }
{
    let (kind, opening) = match unit {
        0x28 => (0, true),
        0x29 => (0, false),
        0x5B => (1, true),
        0x5D => (1, false),
        0x7B => (2, true),
        0x7D => (2, false),
        _ => return None,
    };
    Some(Token {
        at,
        len: 1,
        kind,
        opening,
    })
}
