//! Replies of any length, built part by part in a vector. Each call appends a whole part, or fails and leaves `out` unchanged.
//! It allocates nothing if the capacity of `out` suffices.

ghost use Rattle.std.specs.Prelude.{◌≡◌, ◌+◌, ◌<◌, ◌≤◌, ◌++◌, ◌∷◌, [], OnOk, OnErr, codes, vec_len, vec_capacity};
ghost use Rattle.script_lines.specs.Replies.{number_part, text_part};

use crate::short::number_part;
use std::alloc::AllocError;
use unit_text::quoted;

/// Appends `ok`.
pub fn long_begin(out: &mut Vec<u8>) -> Result<(), AllocError>
    ensures ok { OnOk result (out.new.items ≡ out.old.items ++ codes "ok") }
    ensures err { OnErr result (out.new.items ≡ out.old.items) }
    ensures full { OnErr result (vec_capacity out.old < vec_len out.old + 2) }
    ensures capacity { vec_capacity out.old ≤ vec_capacity out.new }
    ensures len { vec_len out.new ≤ vec_len out.old + 2 }
{
    out.extend_from_slice(b"ok")
}

/// Appends a blank and the number, at most 21 bytes.
pub fn long_number(n: u64, out: &mut Vec<u8>) -> Result<(), AllocError>
    ensures ok { OnOk result (out.new.items ≡ out.old.items ++ number_part n) }
    ensures err { OnErr result (out.new.items ≡ out.old.items) }
    ensures full { OnErr result (vec_capacity out.old < vec_len out.old + 21) }
    ensures capacity { vec_capacity out.old ≤ vec_capacity out.new }
    ensures len { vec_len out.new ≤ vec_len out.old + 21 }
{
    let part = number_part(n);
    out.extend_from_slice(part.as_slice())
}

/// Appends a blank and the letter.
pub fn long_mark(letter: u8, out: &mut Vec<u8>) -> Result<(), AllocError>
    ensures ok { OnOk result (out.new.items ≡ out.old.items ++ 32 ∷ letter ∷ []) }
    ensures err { OnErr result (out.new.items ≡ out.old.items) }
{
    out.extend_from_slice(&[b' ', letter])
}

/// Appends a blank and the units as a JSON string.
pub fn long_text(units: &[u16], out: &mut Vec<u8>) -> Result<(), AllocError>
    ensures ok { OnOk result (out.new.items ≡ out.old.items ++ text_part units.now) }
    ensures err { OnErr result (out.new.items ≡ out.old.items) }
{
    let before = out.len();
    out.push(b' ')?;
    let appended = quoted(units, out);
    if appended.is_err() {
        out.truncate(before);
    }
    appended
}

/// Appends LF, the end of the line.
pub fn long_end(out: &mut Vec<u8>) -> Result<(), AllocError>
    ensures ok { OnOk result (out.new.items ≡ out.old.items ++ codes "\n") }
    ensures err { OnErr result (out.new.items ≡ out.old.items) }
    ensures full { OnErr result (vec_capacity out.old < vec_len out.old + 1) }
{
    out.extend_from_slice(b"\n")
}
