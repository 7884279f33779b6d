//! Runs the program.

ghost use Rattle.std.specs.Prelude.{◌≡◌, ◌≢◌, ◌≤◌, ◌⊎◌, ℕ, List, vec_len, IfOk};
ghost use Rattle.session_rules.specs.Session.{FlatSession};
ghost use Rattle.session_rules.specs.Step.{memory_reply};
ghost use Rattle.session_rules.specs.Script.{turn, Transcript, IsDecided};
ghost use Rattle.script_runner.specs.Words.{command_of};
ghost use Rattle.script_runner.specs.Playing.{EndsPlay};
ghost use Rattle.script_runner.specs.Obeying.{Obeys};
ghost use Rattle.script_runner.specs.Serving.{status_after};
ghost use Rattle.script_runner.specs.Runs.{number_of, EndsRun, EndsWith, IsAnsweredFrom, IsAnsweredWithin, IsToldFrom, ReadsWell, Runs, ShowsUsage, WritesWell};

use crate::playing::play;
use crate::serving::{Served, serve};
use crate::words::{Words, words_of};
use script_streams::{Sink, Source, write_whole};
use sessions::Session;
use std::alloc::{AllocError, Global};

/// The greatest length of a script in bytes.
pub(crate) const MOST_SCRIPT_BYTES: u64 = 0x100_0000_0000;

/// The number of bytes that one read asks for.
const READ_BYTES: usize = 0x1_0000;

const USAGE: &str = "usage: textmodel run | textmodel play COUNT SEED\n";

/// The exit status of the program.
#[derive(Clone, Copy)]
pub(crate) enum Status {
    /// The whole script was read and every reply written. No reply begins with `!`.
    Answered = 0,
    /// The same, but some reply begins with `!`.
    Refused = 1,
    /// The arguments are no command.
    Usage = 2,
    /// There was no memory to read the arguments or to begin.
    Memory = 3,
    ReadFault = 4,
    WriteFault = 5,
    /// The script is longer than the limit.
    TooLong = 6,
}

/// Does what the arguments say and returns the exit status: 0 if the script was answered, 1 if it was and some line was refused; 2 if the
/// arguments are no command, with the usage line on `err`; 3 if there was no memory to read the arguments or to begin, and nothing was read
/// or written; 4 if a read and 5 if a write failed; 6 if the script is longer than the limit of 2^40 - 1 bytes. The arguments come without
/// the program's name.
///
/// `run` answers the script of `src` on `out`. `play COUNT SEED` answers the script made from the two numbers, with at most
/// [`MOST_LINES`](script_play::MOST_LINES) lines, and writes one line of summary on `out`. It also returns 3 if a reply is `! memory`, and
/// then writes nothing. It never returns 4 or 6.
#[tactic(auto, using(session_rules::proofs::DecidedLemmas::decided, session_rules::proofs::DecidedLemmas::never_memory, crate::proofs::ObeyLemmas::for_run, crate::proofs::ObeyLemmas::for_play, crate::proofs::ObeyLemmas::for_none))]
pub fn run_words<S: Source, K: Sink, E: Sink>(
    alloc: Global,
    words: &[String],
    src: &mut S,
    out: &mut K,
    err: &mut E,
) -> u8
    // The program answers as the flat documents do. If the source tells its script and `out` its bytes, then the bytes written for an
    // answered script are the replies of new documents to all its lines, one by one.
    ensures headline { command_of words.now ≡ Words.Run → result ≤ 1
        → IsAnsweredFrom (S.state src.old) (K.state out.old) (K.state out.new) result }

    // A sink that told its bytes before the run tells the replies too, if it has room for them.
    ensures told { command_of words.now ≡ Words.Run → result ≤ 1
        → IsToldFrom (S.state src.old) (K.state out.old) (K.state out.new) result }

    // The bytes written determine the replies. A flat reply is never `! memory`, so the replies show where memory was short.
    ensures flat { (f : FlatSession) (line : List ℕ) → (turn f line).0 ≢ memory_reply }
    ensures decided { (start end : FlatSession) (lines replies : List (List ℕ))
        → Transcript start lines replies end → IsDecided start lines replies end }

    // What holds at each status, also for streams that do not tell their bytes.
    ensures run { command_of words.now ≡ Words.Run
        → EndsRun result (S.state src.old) (S.state src.new) (K.state out.old) (K.state out.new) }
    ensures play { (count seed : ℕ) → command_of words.now ≡ Words.Play count seed
        → EndsPlay result count seed (K.state out.old) (K.state out.new) }
    ensures usage { command_of words.now ≡ Words.NoCommand
        → EndsWith result (λ status. ShowsUsage status (E.state err.old) (E.state err.new)) }

    // Streams that a command does not use are unchanged.
    ensures run_leaves_err { command_of words.now ≡ Words.Run → err.new ≡ err.old }
    ensures play_leaves_source { (count seed : ℕ)
        → command_of words.now ≡ Words.Play count seed → src.new ≡ src.old }
    ensures play_leaves_err { (count seed : ℕ)
        → command_of words.now ≡ Words.Play count seed → err.new ≡ err.old }
    ensures usage_leaves_source { command_of words.now ≡ Words.NoCommand → src.new ≡ src.old }
    ensures usage_leaves_out { command_of words.now ≡ Words.NoCommand → out.new ≡ out.old }

    // If no read or write can fail, `run` answers every script within the limit, unless there is no memory to begin, and `play` answers its
    // script, unless memory is short.
    ensures complete { command_of words.now ≡ Words.Run → ReadsWell S.state → WritesWell K.state
        → IsAnsweredWithin (S.state src.old) result }
    ensures play_complete { (count seed : ℕ) → command_of words.now ≡ Words.Play count seed
        → WritesWell K.state → (result ≤ 1) ⊎ (result ≡ 3) }
{
    number_of(obey(alloc, words, src, out, err))
}

/// Does what the arguments say. Streams that the command does not use are unchanged.
fn obey<S: Source, K: Sink, E: Sink>(
    alloc: Global,
    words: &[String],
    src: &mut S,
    out: &mut K,
    err: &mut E,
) -> Status
    ensures { Obeys S.state K.state E.state (command_of words.now) result
        src.old src.new out.old out.new err.old err.new }
{
    match words_of(alloc, words) {
        Ok(Words::Run) => run(alloc, src, out),
        Ok(Words::Play { count, seed }) => play(alloc, count, seed, out),
        Ok(Words::NoCommand) => usage(err),
        Err(_) => Status::Memory,
    }
}

fn number_of(status: Status) -> u8
    ensures { result ≡ number_of status }
{
    status as u8
}

fn usage<E: Sink>(err: &mut E) -> Status
    ensures { ShowsUsage result (E.state err.old) (E.state err.new) }
{
    match write_whole(err, USAGE.as_bytes()) {
        Ok(()) => Status::Usage,
        Err(_) => Status::WriteFault,
    }
}

fn run<S: Source, K: Sink>(alloc: Global, src: &mut S, out: &mut K) -> Status
    ensures { Runs result (S.state src.old) (S.state src.new) (K.state out.old) (K.state out.new) }
{
    let Ok(mut buf) = read_buffer(alloc) else {
        return Status::Memory;
    };
    let Ok(mut session) = Session::new(alloc) else {
        return Status::Memory;
    };
    let served = serve(
        &mut session,
        src,
        out,
        buf.as_mut_slice(),
        MOST_SCRIPT_BYTES,
    );
    status_after(served)
}

fn status_after(served: Served) -> Status
    ensures { result ≡ status_after served }
{
    match served {
        Served::Ended { refused, .. } => {
            if refused == 0 {
                Status::Answered
            } else {
                Status::Refused
            }
        }
        Served::ReadFault => Status::ReadFault,
        Served::WriteFault => Status::WriteFault,
        Served::TooLong => Status::TooLong,
    }
}

/// Allocates the buffer for reads.
pub(crate) fn read_buffer(alloc: Global) -> Result<Vec<u8>, AllocError>
    ensures { IfOk result (λ buf. vec_len buf ≡ READ_BYTES) }
{
    vec![in alloc; 0; READ_BYTES]
}
