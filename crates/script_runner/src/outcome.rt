//! Writes outcomes.

ghost use Rattle.script_streams.specs.Streams.{WritesWhole};
ghost use Rattle.sessions.specs.Bytes.{bytes_of_outcome};

use script_lines::refusal;
use script_streams::{Failed, Sink, write_whole};
use sessions::{Outcome, Refused};

/// Writes the whole reply, or the line that tells the refusal.
pub fn write_outcome<K: Sink>(outcome: &Outcome, out: &mut K) -> Result<(), Failed>
    ensures { WritesWhole result (K.state out.old) (K.state out.new)
        (bytes_of_outcome outcome.now) }
{
    match outcome {
        Ok(reply) => write_whole(out, reply.as_slice()),
        Err(Refused(reason)) => {
            let reply = refusal(*reason);
            write_whole(out, reply.as_slice())
        }
    }
}
