//! The limits of a line.

ghost use Rattle.std.specs.Prelude.{◌≡◌};
ghost use Rattle.session_rules.specs.Script.{is_blank_byte, is_blank};

/// The greatest length of a line in bytes, without its LF.
pub const MOST_LINE_BYTES: usize = 0x100_0000;

/// Returns whether a line has only spaces, tabs and CR.
pub fn is_blank(bytes: &[u8]) -> bool
    ensures { result ≡ is_blank bytes.now }
{
    bytes.iter().all(|byte| is_blank_byte(*byte))
}

fn is_blank_byte(byte: u8) -> bool
    ensures { result ≡ is_blank_byte byte }
{
    byte == b' ' || byte == b'\t' || byte == b'\r'
}
