//! The lines of a script, and their bytes.

ghost use Rattle.std.specs.Prelude.{◌≡◌, ◌+◌, ◌<◌, ◌≤◌, ◌++◌, length, decimal};
ghost use Rattle.arrayvec.specs.ArrayVec.{array_vec_len};
ghost use Rattle.script_play.specs.Lines.{spelled, units_of, span, line_bytes};

use arrayvec::ArrayVec;
use itoa::Buffer;

/// A line of the script with its parameters. Offsets are in units; `text` is the number of one of eight texts.
#[derive(Clone, Copy, PartialEq, Eq, Debug)]
pub(crate) enum Line {
    Open,
    Edit { start: u32, end: u32, text: u32 },
    Undo,
    Redo,
    Stop,
    Decorate { start: u32, end: u32, stick: u32 },
    Position { offset: u32 },
    Level,
    Brackets,
    Decos { at: u32 },
    Size,
}

/// Returns text number `text` as a JSON string.
fn spelled(text: u32) -> &'static [u8]
    ensures value { result.now ≡ spelled text }
    ensures short { length result.now ≤ 6 }
{
    match text {
        0 => b"\"a\"",
        1 => b"\"\\n\"",
        2 => b"\"\\r\"",
        3 => b"\"(\"",
        4 => b"\")\"",
        5 => b"\"[x]\"",
        6 => b"\"bc d\"",
        _ => b"\"{\"",
    }
}

/// Returns the number of units of text number `text`.
pub(crate) fn units_of(text: u32) -> u32
    ensures value { result ≡ units_of text }
    ensures few { result ≤ 4 }
{
    match text {
        5 => 3,
        6 => 4,
        _ => 1,
    }
}

/// Returns the bytes of the line, including the LF.
pub(crate) fn line_bytes(line: &Line) -> ArrayVec<u8, 128>
    ensures bytes { result.items ≡ line_bytes line.now }
    ensures some { 0 < array_vec_len result }
{
    match *line {
        Line::Open => plain(b"{\"cmd\":\"open\",\"text\":\"\"}\n"),
        Line::Edit { start, end, text } => edit_bytes(start, end, text),
        Line::Undo => plain(b"{\"cmd\":\"undo\"}\n"),
        Line::Redo => plain(b"{\"cmd\":\"redo\"}\n"),
        Line::Stop => plain(b"{\"cmd\":\"stop\"}\n"),
        Line::Decorate { start, end, stick } => decorate_bytes(start, end, stick),
        Line::Position { offset } => position_bytes(offset),
        Line::Level => plain(b"{\"cmd\":\"level\",\"line\":1,\"col\":1}\n"),
        Line::Brackets => plain(b"{\"cmd\":\"brackets\",\"from\":1,\"to\":1}\n"),
        Line::Decos { at } => decos_bytes(at),
        Line::Size => plain(b"{\"cmd\":\"size\"}\n"),
    }
}

fn position_bytes(offset: u32) -> ArrayVec<u8, 128>
    ensures bytes { result.items ≡ line_bytes (Line.Position offset) }
    ensures some { 0 < array_vec_len result }
{
    let mut bytes = plain(b"{\"cmd\":\"position\",\"offset\":");
    push_number(&mut bytes, offset);
    push(&mut bytes, b"}\n");
    bytes
}

fn edit_bytes(start: u32, end: u32, text: u32) -> ArrayVec<u8, 128>
    ensures bytes { result.items ≡ line_bytes (Line.Edit start end text) }
    ensures some { 0 < array_vec_len result }
{
    let mut bytes = with_span(b"{\"cmd\":\"edit\",\"ops\":[{\"at\":", start, end);
    push(&mut bytes, b",\"text\":");
    push(&mut bytes, spelled(text));
    push(&mut bytes, b"}]}\n");
    bytes
}

fn decorate_bytes(start: u32, end: u32, stick: u32) -> ArrayVec<u8, 128>
    ensures bytes { result.items ≡ line_bytes (Line.Decorate start end stick) }
    ensures some { 0 < array_vec_len result }
{
    let front = b"{\"cmd\":\"decorate\",\"owner\":1,\"remove\":[],\"add\":[{\"at\":";
    let mut bytes = with_span(front, start, end);
    push(&mut bytes, b",\"stick\":");
    push_number(&mut bytes, stick);
    push(&mut bytes, b"}]}\n");
    bytes
}

fn decos_bytes(at: u32) -> ArrayVec<u8, 128>
    ensures bytes { result.items ≡ line_bytes (Line.Decos at) }
    ensures some { 0 < array_vec_len result }
{
    let mut bytes = with_span(b"{\"cmd\":\"decos\",\"at\":", at, at);
    push(&mut bytes, b"}\n");
    bytes
}

/// Copies the bytes into a new buffer.
fn plain(text: &[u8]) -> ArrayVec<u8, 128>
    requires { length text.now ≤ 60 }
    ensures bytes { result.items ≡ text.now }
    ensures len { array_vec_len result ≡ length text.now }
{
    let mut bytes = ArrayVec::new();
    bytes.try_extend_from_slice(text).unwrap();
    bytes
}

/// Returns the bytes, followed by the two offsets as a JSON array.
fn with_span(text: &[u8], start: u32, end: u32) -> ArrayVec<u8, 128>
    requires { length text.now ≤ 60 }
    ensures bytes { result.items ≡ text.now ++ span start end }
    ensures least { length text.now ≤ array_vec_len result }
    ensures most { array_vec_len result ≤ length text.now + 23 }
{
    let mut bytes = plain(text);
    push_span(&mut bytes, start, end);
    bytes
}

/// Appends the text.
fn push(bytes: &mut ArrayVec<u8, 128>, text: &[u8])
    requires { array_vec_len bytes.old + length text.now ≤ 128 }
    ensures bytes { bytes.new.items ≡ bytes.old.items ++ text.now }
    ensures len { array_vec_len bytes.new ≡ array_vec_len bytes.old + length text.now }
{
    bytes.try_extend_from_slice(text).unwrap();
}

/// Appends the number in plain decimals.
fn push_number(bytes: &mut ArrayVec<u8, 128>, number: u32)
    requires { array_vec_len bytes.old + 10 ≤ 128 }
    ensures bytes { bytes.new.items ≡ bytes.old.items ++ decimal number }
    ensures least { array_vec_len bytes.old ≤ array_vec_len bytes.new }
    ensures most { array_vec_len bytes.new ≤ array_vec_len bytes.old + 10 }
{
    let mut buffer = Buffer::new();
    push(bytes, buffer.format(number).as_bytes());
}

/// Appends the two offsets as a JSON array.
fn push_span(bytes: &mut ArrayVec<u8, 128>, start: u32, end: u32)
    requires { array_vec_len bytes.old + 23 ≤ 128 }
    ensures bytes { bytes.new.items ≡ bytes.old.items ++ span start end }
    ensures least { array_vec_len bytes.old ≤ array_vec_len bytes.new }
    ensures most { array_vec_len bytes.new ≤ array_vec_len bytes.old + 23 }
{
    push(bytes, b"[");
    push_number(bytes, start);
    push(bytes, b",");
    push_number(bytes, end);
    push(bytes, b"]");
}
