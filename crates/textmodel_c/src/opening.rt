//! Opens a new document.

ghost use Rattle.std.specs.Prelude.{◌≡◌, ◌+◌, ◌<◌, ◌≤◌, length, IfOk, IfNone, IfSome};
ghost use Rattle.document_rules.specs.Outcomes.{Gives};
ghost use Rattle.group_rules.specs.declared.TheConstants.{DOC_COUNT};
ghost use Rattle.hiding_rules.specs.Marks.{marks};
ghost use Rattle.textmodel_c.specs.Rules.{kind_of, pair_of, pairs_of, table_of, line_mark, block_marks, checked_marks, marks_of, scanning_of, scanning_in};
ghost use Rattle.textmodel_c.specs.Told.{GivesAll, OpensAs, OpensHeld};
ghost use Rattle.textmodel_c.specs.Utf8.{OpensInUtf8, TellsFault};

use crate::handle::{Handle, taken_for};
use crate::status::Status;
use crate::utf8::taken_units;
use model_core::{BracketTable, Hiding, HidingError, ModelError, TableError, Units};
use sessions::Session;
use std::alloc::{AllocError, Global};
use unit_text::Kind;

/// The lengths of the two texts of a bracket pair, in units.
#[repr(C)]
#[derive(Clone, Copy)]
pub struct PairUnits {
    pub opening: u64,
    pub closing: u64,
}

/// Returns the kind of line endings with this number.
pub(crate) fn kind_of(number: u32) -> Option<Kind>
    ensures { result ≡ kind_of number }
{
    match number {
        0 => Some(Kind::Mixed),
        1 => Some(Kind::Lf),
        2 => Some(Kind::Crlf),
        _ => None,
    }
}

// Splits the joined text among the pairs. `Range` if they do not use it up exactly.
fn pairs_of(
    alloc: Global,
    pairs: &[PairUnits],
    brackets: &[u16],
) -> Result<Vec<(Units, Units)>, ModelError>
    ensures { GivesAll result (pairs_of pairs.now brackets.now) }
{
    let mut found = Vec::with_capacity(alloc, pairs.len()).map_err(|_| ModelError::Memory)?;
    let mut rest = brackets;
    for pair in pairs {
        let units = units_of_pair(*pair, rest.len()).ok_or(ModelError::Range)?;
        let (own, after) = rest.split_at(units);
        let pair = pair_of(alloc, *pair, own).map_err(|_| ModelError::Memory)?;
        found.push(pair).map_err(|_| ModelError::Memory)?;
        rest = after;
    }
    if !rest.is_empty() {
        return Err(ModelError::Range);
    }
    Ok(found)
}

// Returns the length of both texts of the pair together; None if it is above `left`.
fn units_of_pair(pair: PairUnits, left: usize) -> Option<usize>
    ensures none { IfNone result (left < pair.opening + pair.closing) }
    ensures some { IfSome result (λ units. units ≡ pair.opening + pair.closing) }
    ensures within { IfSome result (λ units. units ≤ left) }
{
    let units = pair.opening.checked_add(pair.closing)?;
    (units <= left as u64).then_some(units as usize)
}

fn pair_of(alloc: Global, pair: PairUnits, text: &[u16]) -> Result<(Units, Units), AllocError>
    requires { pair.opening ≤ length text.now }
    ensures { IfOk result (λ made. made ≡ pair_of pair text.now) }
{
    let (opening, closing) = text.split_at(pair.opening as usize);
    let opening = Units::copy_of(alloc, opening)?;
    let closing = Units::copy_of(alloc, closing)?;
    Ok((opening, closing))
}

// Returns the bracket table of the pairs, or the standard one if there are none.
fn table_of(
    alloc: Global,
    pairs: &[PairUnits],
    brackets: &[u16],
) -> Result<BracketTable, ModelError>
    ensures { Gives result (table_of pairs.now brackets.now) }
{
    if pairs.is_empty() && brackets.is_empty() {
        return Ok(BracketTable::standard());
    }
    let pairs = pairs_of(alloc, pairs, brackets)?;
    match BracketTable::new(alloc, pairs.as_slice()) {
        Ok(table) => Ok(table),
        Err(TableError::BadTable) => Err(ModelError::Range),
        Err(TableError::Memory) => Err(ModelError::Memory),
    }
}

// Returns the text that begins a line comment; None if it is empty.
fn line_mark(alloc: Global, text: &[u16]) -> Result<Option<Units>, AllocError>
    ensures { IfOk result (λ mark. mark ≡ line_mark text.now) }
{
    if text.is_empty() {
        return Ok(None);
    }
    Ok(Some(Units::copy_of(alloc, text)?))
}

// Returns the texts that begin and end a block comment; None if both are empty.
fn block_marks(
    alloc: Global,
    block: PairUnits,
    text: &[u16],
) -> Result<Option<(Units, Units)>, AllocError>
    requires { block.opening + block.closing ≡ length text.now }
    ensures { IfOk result (λ marks. marks ≡ block_marks block text.now) }
{
    if text.is_empty() {
        return Ok(None);
    }
    Ok(Some(pair_of(alloc, block, text)?))
}

fn checked(
    line: Option<Units>,
    block: Option<(Units, Units)>,
    quotes: &[u16],
) -> Result<Hiding, ModelError>
    ensures { Gives result (checked_marks (marks line block quotes.now)) }
{
    match Hiding::new(line, block, quotes) {
        Ok(hiding) => Ok(hiding),
        Err(HidingError::BadMarks) => Err(ModelError::Range),
    }
}

// Splits `marks`. The first `line` units begin a line comment.
fn hiding_of(
    alloc: Global,
    line: u64,
    block: PairUnits,
    marks: &[u16],
) -> Result<Hiding, ModelError>
    ensures { Gives result (marks_of line block marks.now) }
{
    if line > marks.len() as u64 {
        return Err(ModelError::Range);
    }
    let (line, rest) = marks.split_at(line as usize);
    let units = units_of_pair(block, rest.len()).ok_or(ModelError::Range)?;
    let (both, quotes) = rest.split_at(units);
    let line = line_mark(alloc, line).map_err(|_| ModelError::Memory)?;
    let block = block_marks(alloc, block, both).map_err(|_| ModelError::Memory)?;
    checked(line, block, quotes)
}

fn open_as(
    session: &mut Session,
    doc: u64,
    text: &[u16],
    kind: u32,
    pairs: &[PairUnits],
    brackets: &[u16],
    line: u64,
    block: PairUnits,
    marks: &[u16],
) -> Result<(), ModelError>
    requires { doc < DOC_COUNT }
    ensures { OpensAs result doc kind
        (scanning_of pairs.now brackets.now line block marks.now) text.now
        session.old session.new }
{
    let kind = kind_of(kind).ok_or(ModelError::Range)?;
    let table = table_of(session.alloc, pairs, brackets)?;
    let hiding = hiding_of(session.alloc, line, block, marks)?;
    session.open_doc(doc, text, table, kind, hiding)
}

/// Replaces this document by a new one with this text. `kind` is 0 to keep mixed line endings, 1 to change all to LF, 2 to CR LF.
///
/// There are 1 to 64 bracket pairs. Their texts are in `brackets`, one after another: each has 1 to 32 units without CR or LF, and all
/// differ. Without pairs the brackets are `()`, `[]` and `{}`. Brackets in comments and strings are ignored. `marks` has, one after
/// another, the text of `line` units that begins a line comment, the texts of `opening` and `closing` units that begin and end a block
/// comment, and up to 8 quotes of one unit each. An empty text means that there is no such comment.
///
/// `Range` if the kind, the pairs or the marks are invalid, else `Limit` if the text would be too long.
#[unsafe(no_mangle)]
pub extern "C" fn tm_raw_open(
    alloc: Global,
    handle: &mut Handle,
    doc: u64,
    kind: u32,
    text: &[u16],
    pairs: &[PairUnits],
    brackets: &[u16],
    line: u64,
    opening: u64,
    closing: u64,
    marks: &[u16],
) -> u32
    ensures document { OpensHeld result doc kind
        (scanning_in pairs.now brackets.now line opening closing marks.now) text.now
        handle.old.held handle.new.held }
{
    let mut contents = taken_for!(handle, doc, alloc);
    let block = PairUnits { opening, closing };
    let session = &mut contents.session;
    let answer = open_as(
        session, doc, text, kind, pairs, brackets, line, block, marks,
    );
    let status = Status::of_done(answer);
    if let Status::Ok = status {
        contents.telling = None;
    }
    handle.put(contents);
    status.number()
}

/// Like `tm_raw_open`, with a text in UTF-8. `Encoding` if it is invalid; `bad` is then the offset of the first invalid byte.
#[unsafe(no_mangle)]
pub extern "C" fn tm_raw_open_utf8(
    alloc: Global,
    handle: &mut Handle,
    doc: u64,
    kind: u32,
    text: &[u8],
    pairs: &[PairUnits],
    brackets: &[u16],
    line: u64,
    opening: u64,
    closing: u64,
    marks: &[u16],
    bad: &mut u64,
) -> u32
    ensures document { OpensInUtf8 result text.now doc kind
        (scanning_in pairs.now brackets.now line opening closing marks.now)
        handle.old.held handle.new.held }
    ensures fault { TellsFault text.now bad.old bad.new }
{
    let units = taken_units!(alloc, text, bad);
    tm_raw_open(
        alloc, handle, doc, kind, &units, pairs, brackets, line, opening, closing, marks,
    )
}
