//! Writing a whole text to a sink.

ghost use Rattle.script_streams.specs.Streams.{WritesWhole};

use crate::{Failed, Sink};

/// Writes the whole text. After a failure a prefix of it, possibly empty, is written.
pub fn write_whole<K: Sink>(out: &mut K, text: &[u8]) -> Result<(), Failed>
    ensures { WritesWhole result (K.state out.old) (K.state out.new) text.now }
{
    let mut rest = text;
    while !rest.is_empty() {
        let taken = out.write(rest)?;
        if taken == 0 {
            return Err(Failed);
        }
        rest = &rest[taken..];
    }
    Ok(())
}
