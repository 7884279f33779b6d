//! Kinds of line ending.

ghost use Rattle.std.specs.Prelude.{◌≡◌, ◌↔◌, ◌++◌, ◌&&◌, ◌==◌, IsTrue, OnOk, OnErr, take, vec_len};
ghost use Rattle.unit_text.specs.Endings.{begins_with, line_feed, carriage_return};
ghost use Rattle.unit_text.specs.declared.kind.Kind.TheVariants.{Crlf};
ghost use Rattle.unit_text.specs.Kinds.{normalized, with_endings, IsOfKind, HasNoReturn};

use crate::{CARRIAGE_RETURN, LINE_FEED};
use std::alloc::AllocError;

/// The line endings that a text may have.
#[derive(Clone, Copy, PartialEq, Eq, Debug)]
pub enum Kind {
    /// Any mix of CR LF, CR and LF.
    Mixed,
    /// Only LF: the text contains no CR.
    Lf,
    /// Only CR LF: the text contains no CR and no LF outside a CR LF.
    Crlf,
}

/// Returns whether all line endings of the units are of this kind.
pub fn is_of_kind(units: &[u16], kind: Kind) -> bool
    ensures { IsTrue result ↔ IsOfKind kind units.now }
{
    match kind {
        Kind::Mixed => true,
        Kind::Lf => has_no_return(units),
        Kind::Crlf => has_pairs_alone(units),
    }
}

fn has_no_return(units: &[u16]) -> bool
    ensures { IsTrue result ↔ HasNoReturn units.now }
{
    units.iter().all(|unit| *unit != CARRIAGE_RETURN)
}

// Returns whether each CR and each LF is part of a CR LF.
fn has_pairs_alone(units: &[u16]) -> bool
    ensures { IsTrue result ↔ IsOfKind Crlf units.now }
{
    let mut rest = units;
    while let Some((&unit, after)) = rest.split_first() {
        rest = match unit {
            LINE_FEED => return false,
            CARRIAGE_RETURN => match after.split_first() {
                Some((&LINE_FEED, behind)) => behind,
                _ => return false,
            },
            _ => after,
        };
    }
    true
}

/// Appends the units to `out` and replaces each CR LF, CR and LF by the line ending of the kind; `Mixed` keeps all line
/// endings. On an error `out` is unchanged.
pub fn norm_of(units: &[u16], kind: Kind, out: &mut Vec<u16>) -> Result<(), AllocError>
    ensures ok { OnOk result (out.new.items ≡ out.old.items ++ normalized kind units.now) }
    ensures err { OnErr result (out.new.items ≡ out.old.items) }
{
    let before = out.len();
    let appended = match kind {
        Kind::Mixed => out.extend_from_slice(units),
        Kind::Lf => push_with_endings(units, &[LINE_FEED], out),
        Kind::Crlf => push_with_endings(units, &[CARRIAGE_RETURN, LINE_FEED], out),
    };
    if appended.is_err() {
        out.truncate(before);
    }
    appended
}

// On an error a part of the text may have been appended to `out`.
fn push_with_endings(units: &[u16], ending: &[u16], out: &mut Vec<u16>) -> Result<(), AllocError>
    ensures ok { OnOk result (out.new.items
        ≡ out.old.items ++ with_endings ending.now units.now) }
    ensures before { take (vec_len out.old) out.new.items ≡ out.old.items }
{
    out.reserve(units.len())?;
    let mut rest = units;
    while let Some((&unit, after)) = rest.split_first() {
        if unit == CARRIAGE_RETURN || unit == LINE_FEED {
            if !is_joined(unit, after) {
                out.extend_from_slice(ending)?;
            }
        } else {
            out.push(unit)?;
        }
        rest = after;
    }
    Ok(())
}

// Returns whether the unit is a CR and the next unit is an LF, so that both are one line ending.
fn is_joined(unit: u16, after: &[u16]) -> bool
    ensures { result ≡ (unit == carriage_return && begins_with line_feed after.now) }
{
    unit == CARRIAGE_RETURN && after.first() == Some(&LINE_FEED)
}
