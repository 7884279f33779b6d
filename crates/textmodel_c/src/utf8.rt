//! Converts texts from and to UTF-8.

ghost use Rattle.std.specs.Prelude.{◌≡◌, [], List, ℕ, Result};
ghost use Rattle.document_rules.specs.Refusals.{FlatRefusal};
ghost use Rattle.textmodel_c.specs.Rules.{in_utf8};
ghost use Rattle.textmodel_c.specs.Told.{FoundFor, Lists};
ghost use Rattle.textmodel_c.specs.Utf8.{GivesUnits, TellsFault};

use crate::lists::hand_out_of;
use crate::status::Status;
use model_core::{ModelError, units_of, utf8_of};
use std::alloc::Global;
use std::str::from_utf8;

/// Converts a text from UTF-8 to units. If it is invalid, sets `bad` to the offset of the first invalid byte.
pub(crate) fn units_in(alloc: Global, text: &[u8], bad: &mut u64) -> Result<Vec<u16>, Status>
    ensures units { GivesUnits text.now result }
    ensures fault { TellsFault text.now bad.old bad.new }
{
    let text = match from_utf8(text) {
        Ok(text) => text,
        Err(error) => {
            *bad = error.valid_up_to() as u64;
            return Err(Status::Encoding);
        }
    };
    let mut units = Vec::new(alloc);
    units_of(text, &mut units).map_err(|_| Status::Memory)?;
    Ok(units)
}

/// Like `units_in`; on an error, makes the caller return its status.
macro_rules! taken_units {
    ($alloc:expr, $text:expr, $bad:expr) => {
        match crate::utf8::units_in($alloc, $text, $bad) {
            Ok(units) => units,
            Err(status) => return status.number(),
        }
    };
}

pub(crate) use taken_units;

/// Copies the units in UTF-8 to `out` if the call succeeded. A lone surrogate becomes U+FFFD.
pub(crate) fn utf8_out(
    alloc: Global,
    answer: Result<(), ModelError>,
    units: &[u16],
    out: &mut [u8],
    count: &mut u64,
) -> Status
    ensures { (rule : Result (List ℕ) FlatRefusal) → FoundFor answer units.now rule
        → Lists result out.old out.new count.old count.new (in_utf8 rule) }
{
    let mut bytes = Vec::new(alloc);
    let answer = told_utf8(answer, units, &mut bytes);
    hand_out_of(answer, &bytes, out, count)
}

fn told_utf8(
    answer: Result<(), ModelError>,
    units: &[u16],
    out: &mut Vec<u8>,
) -> Result<(), ModelError>
    requires { out.old.items ≡ [] }
    ensures { (rule : Result (List ℕ) FlatRefusal) → FoundFor answer units.now rule
        → FoundFor result out.new.items (in_utf8 rule) }
{
    answer?;
    utf8_of(units, out).map_err(|_| ModelError::Memory)
}
