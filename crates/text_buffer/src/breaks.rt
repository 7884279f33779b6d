//! Line breaks.

ghost use Rattle.std.specs.Prelude.{◌≡◌, ◌-◌, ◌<◌, if◌then◌else◌, length, take};
ghost use Rattle.text_buffer.specs.Text.{ends_with_pair};

use unit_text::{CARRIAGE_RETURN, LINE_FEED};

/// Returns whether the units end with CR LF.
#[tactic(auto, using(crate::proofs::Contents::pair_ends))]
pub(crate) fn ends_with_pair(units: &[u16]) -> bool
    ensures { result ≡ ends_with_pair units.now }
{
    if units.len() < 2 {
        return false;
    }
    let before = units[units.len() - 2];
    let last = units[units.len() - 1];
    before == CARRIAGE_RETURN && last == LINE_FEED
}

/// Returns a line without its break, which is CR LF or one unit.
#[tactic(auto, using(crate::proofs::Contents::pair_ends))]
pub(crate) fn without_break(line: &[u16]) -> &[u16]
    requires { 0 < length line.now }
    ensures { result.now
        ≡ take (length line.now - (if ends_with_pair line.now then 2 else 1)) line.now }
{
    if ends_with_pair(line) {
        &line[..line.len() - 2]
    } else {
        &line[..line.len() - 1]
    }
}
