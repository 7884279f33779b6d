//! The program: a script on standard input, its replies on standard output.
#![tactic(auto)]

use script_runner::run_words;
use script_streams::{StdSink, StdSource};
use std::io::ErrorKind;
use std::process::ExitCode;
use std::{env, io};

/// The exit status if there is no memory for the arguments.
const NO_MEMORY: u8 = 3;

fn main(rt: HostRuntime) -> ExitCode {
    let mut src = StdSource::new(rt.stdin());
    let mut out = StdSink::new(rt.stdout());
    let mut err = StdSink::new(rt.stderr());
    let status = match words_of(&rt) {
        Ok(words) => run_words(rt.alloc(), words.as_slice(), &mut src, &mut out, &mut err),
        Err(fault) if fault.kind() == ErrorKind::OutOfMemory => NO_MEMORY,
        // Arguments that are not valid text are no command.
        Err(_) => run_words(rt.alloc(), &[], &mut src, &mut out, &mut err),
    };
    ExitCode::from(status)
}

/// Returns the arguments of the command line, without the program's name.
fn words_of(rt: &HostRuntime) -> io::Result<Vec<String>> {
    let mut args = env::args(rt)?;
    let _name = args.next();
    let mut words = Vec::new(rt.alloc());
    for word in args {
        words.push(word)?;
    }
    Ok(words)
}
