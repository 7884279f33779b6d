//! Replies built without allocation.

ghost use Rattle.std.specs.Prelude.{◌≡◌, ◌≤◌, length};
ghost use Rattle.arrayvec.specs.ArrayVec.{array_vec_len};
ghost use Rattle.script_lines.specs.Replies.{number_part, ok_reply, none_reply, old_reply, refusal_reply};

use crate::reason::Refusal;
use arrayvec::ArrayVec;
use itoa::Buffer;
use std::marker::Model;

/// A reply of at most 128 bytes. In contracts it is the list of its bytes.
#[derive(Drop)]
pub struct Short {
    bytes: ArrayVec<u8, 128>,
}

impl Model for Short {
    ghost use Rattle.std.specs.Prelude.{List, ℕ};

    ghost Value = { List ℕ };

    ghost view = { λ short. short.bytes.items };
}

impl Short {
    /// Returns the reply `ok` followed by the numbers, at most five.
    pub fn ok(parts: &[u64]) -> Short
        requires { length parts.now ≤ 5 }
        ensures { result ≡ ok_reply parts.now }
    {
        let mut bytes = ArrayVec::new();
        bytes.try_extend_from_slice(b"ok").unwrap();
        for part in parts {
            let number = number_part(*part);
            bytes.try_extend_from_slice(number.as_slice()).unwrap();
        }
        bytes.push(b'\n');
        Short { bytes }
    }

    /// Returns the reply `ok none`: there was nothing to do or to show.
    pub fn none() -> Short
        ensures { result ≡ none_reply }
    {
        Short::from_text(b"ok none\n")
    }

    /// Returns the reply `ok old`: the mirror is already past the event.
    pub fn old() -> Short
        ensures { result ≡ old_reply }
    {
        Short::from_text(b"ok old\n")
    }

    fn from_text(text: &[u8]) -> Short
        requires { length text.now ≤ 128 }
        ensures { result ≡ text.now }
    {
        let mut bytes = ArrayVec::new();
        bytes.try_extend_from_slice(text).unwrap();
        Short { bytes }
    }

    pub fn as_slice(&self) -> &[u8]
        ensures { result.now ≡ self.now }
    {
        self.bytes.as_slice()
    }
}

/// Returns the reply that refuses a line for the reason `r`.
pub fn refusal(r: Refusal) -> Short
    ensures { result ≡ refusal_reply r }
{
    match r {
        Refusal::Syntax => Short::from_text(b"! syntax\n"),
        Refusal::Unknown => Short::from_text(b"! unknown\n"),
        Refusal::Range => Short::from_text(b"! range\n"),
        Refusal::Overlap => Short::from_text(b"! overlap\n"),
        Refusal::Limit => Short::from_text(b"! limit\n"),
        Refusal::Memory => Short::from_text(b"! memory\n"),
        Refusal::Gap { have, need } => gap(have, need),
        Refusal::Joint { doc } => joint(doc),
    }
}

fn joint(doc: u64) -> Short
    ensures { result ≡ refusal_reply (Refusal.Joint doc) }
{
    let doc = number_part(doc);
    let mut bytes = ArrayVec::new();
    bytes.try_extend_from_slice(b"! joint").unwrap();
    bytes.try_extend_from_slice(doc.as_slice()).unwrap();
    bytes.push(b'\n');
    Short { bytes }
}

fn gap(have: u64, need: u64) -> Short
    ensures { result ≡ refusal_reply (Refusal.Gap have need) }
{
    let have = number_part(have);
    let need = number_part(need);
    let mut bytes = ArrayVec::new();
    bytes.try_extend_from_slice(b"! gap").unwrap();
    bytes.try_extend_from_slice(have.as_slice()).unwrap();
    bytes.try_extend_from_slice(need.as_slice()).unwrap();
    bytes.push(b'\n');
    Short { bytes }
}

/// Returns a blank and the number in plain decimals, at most 21 bytes.
pub(crate) fn number_part(n: u64) -> ArrayVec<u8, 21>
    ensures text { result.items ≡ number_part n }
    ensures len { array_vec_len result ≤ 21 }
{
    let mut buffer = Buffer::new();
    let digits = buffer.format(n);
    let mut part = ArrayVec::new();
    part.push(b' ');
    part.try_extend_from_slice(digits.as_bytes()).unwrap();
    part
}
