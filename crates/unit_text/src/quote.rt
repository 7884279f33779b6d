//! Writes units as a JSON string.

ghost use Rattle.std.specs.Prelude.{◌≡◌, ◌<◌, ◌/◌, ◌%◌, ◌++◌, ◌∷◌, [], OnOk, OnErr, codes, take, vec_len};
ghost use Rattle.std.specs.Char.{digit_char};
ghost use Rattle.unit_text.specs.Text.{quoted, quoted_char};

use crate::utf8::first_char;
use std::alloc::AllocError;

/// Appends the JSON string of the units, with its quotation marks. An unpaired surrogate becomes U+FFFD. On an error
/// `out` is unchanged.
pub fn quoted(units: &[u16], out: &mut Vec<u8>) -> Result<(), AllocError>
    ensures ok { OnOk result (out.new.items ≡ out.old.items ++ quoted units.now) }
    ensures err { OnErr result (out.new.items ≡ out.old.items) }
{
    let before = out.len();
    let appended = push_quoted(units, out);
    if appended.is_err() {
        out.truncate(before);
    }
    appended
}

// On an error a part of the string may have been appended to `out`.
fn push_quoted(units: &[u16], out: &mut Vec<u8>) -> Result<(), AllocError>
    ensures ok { OnOk result (out.new.items ≡ out.old.items ++ quoted units.now) }
    ensures before { take (vec_len out.old) out.new.items ≡ out.old.items }
{
    out.reserve(units.len() + 2)?;
    out.push(b'"')?;
    let mut rest = units;
    while let Some((c, after)) = first_char(rest) {
        push_quoted_char(c, out)?;
        rest = after;
    }
    out.push(b'"')?;
    Ok(())
}

fn push_quoted_char(c: char, out: &mut Vec<u8>) -> Result<(), AllocError>
    ensures ok { OnOk result (out.new.items ≡ out.old.items ++ quoted_char c) }
    ensures err { OnErr result (out.new.items ≡ out.old.items) }
{
    match c {
        '"' => out.extend_from_slice(b"\\\""),
        '\\' => out.extend_from_slice(b"\\\\"),
        '\n' => out.extend_from_slice(b"\\n"),
        '\r' => out.extend_from_slice(b"\\r"),
        '\t' => out.extend_from_slice(b"\\t"),
        '\0'..='\u{1F}' => push_control(c as u8, out),
        _ => {
            let mut bytes = [0u8; 4];
            out.extend_from_slice(c.encode_utf8(&mut bytes).as_bytes())
        }
    }
}

fn push_control(byte: u8, out: &mut Vec<u8>) -> Result<(), AllocError>
    requires { byte < 32 }
    ensures ok { OnOk result (out.new.items
        ≡ out.old.items ++ codes "\\u00" ++ digit_char (byte / 16) ∷ digit_char (byte % 16) ∷ []) }
    ensures err { OnErr result (out.new.items ≡ out.old.items) }
{
    let escaped = [
        b'\\',
        b'u',
        b'0',
        b'0',
        hex_digit(byte / 16),
        hex_digit(byte % 16),
    ];
    out.extend_from_slice(&escaped)
}

fn hex_digit(digit: u8) -> u8
    requires { digit < 16 }
    ensures { result ≡ digit_char digit }
{
    if digit < 10 {
        b'0' + digit
    } else {
        b'a' + (digit - 10)
    }
}
