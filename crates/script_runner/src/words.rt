//! Reads the arguments of the command line.

ghost use Rattle.std.specs.Prelude.{◌≡◌, ◌≤◌, ℕ, Ok, false, IfSome, IfOk, codes};
ghost use Rattle.clap.specs.Walk.{rows_of, rule_of};
ghost use Rattle.clap.specs.Words.{app_of, found_of, subcommand_rows_of};
ghost use Rattle.clap.specs.declared.builder.command.Command.TheViews.{out-Command};
ghost use Rattle.script_play.specs.Script.{IsCount};
ghost use Rattle.script_runner.specs.Words.{command_of};
ghost use Rattle.script_runner.specs.CommandLine.{command_found, command_line, number_at, number_rule, play_line, played};

use clap::error::ErrorKind;
use clap::{Arg, ArgMatches, Command, value_parser};
use script_play::MOST_LINES;
use std::alloc::{AllocError, Global};

/// What the arguments ask for.
#[derive(Clone, Copy, PartialEq, Eq, Debug)]
pub(crate) enum Words {
    /// Answer the script of the source.
    Run,
    /// Play the script of this count and seed.
    Play { count: u32, seed: u64 },
    /// The arguments are no command.
    NoCommand,
}

/// Returns the command of the arguments. Fails if there is no memory to read them.
pub(crate) fn words_of(alloc: Global, words: &[String]) -> Result<Words, AllocError>
    ensures command { IfOk result (λ command. command ≡ command_of words.now) }
    ensures count { (count seed : ℕ) → result ≡ Ok (Words.Play count seed) → IsCount count }
{
    match command_line(alloc)?.try_get_matches_from(words) {
        Ok(matches) => Ok(command_found(&matches)),
        Err(error) if error.kind() == ErrorKind::OutOfMemory => Err(AllocError),
        Err(_) => Ok(Words::NoCommand),
    }
}

/// Describes the command line for clap.
fn command_line<'a>(alloc: Global) -> Result<Command<'a>, AllocError>
    ensures { IfOk result (λ command. app_of command ≡ command_line) }
{
    Command::new(alloc, "textmodel")
        .no_binary_name(true)
        .disable_help_flag(true)
        .disable_help_subcommand(true)
        .subcommand_required(true)
        .subcommand(Command::new(alloc, "run"))?
        .subcommand(play_line(alloc)?)
}

fn play_line<'a>(alloc: Global) -> Result<Command<'a>, AllocError>
    ensures app { IfOk result (λ command. app_of command ≡ play_line) }
    ensures own { IfOk result (λ command. (out-Command command).has_globals ≡ false) }
{
    Command::new(alloc, "play")
        .arg(number_line(alloc, "COUNT"))?
        .arg(number_line(alloc, "SEED"))
}

fn number_line<'a>(alloc: Global, id: &'a str) -> Arg<'a>
    ensures rule { rule_of result ≡ number_rule id.now }
    ensures own { result.global ≡ false }
{
    Arg::new(alloc, id)
        .required(true)
        .value_parser(value_parser!(u64))
}

/// Returns the command that clap found.
fn command_found(matches: &ArgMatches) -> Words
    ensures command { result ≡ command_found (subcommand_rows_of matches.now) }
    ensures count { (count seed : ℕ) → result ≡ Words.Play count seed → IsCount count }
{
    match matches.subcommand() {
        Some((name, given)) => {
            if name == "run" {
                Words::Run
            } else {
                played(given)
            }
        }
        None => Words::NoCommand,
    }
}

fn played(given: &ArgMatches) -> Words
    ensures command { result ≡ played (rows_of (found_of given.now)) }
    ensures count { (count seed : ℕ) → result ≡ Words.Play count seed → IsCount count }
{
    let Some(count) = number_at(u64::from(MOST_LINES), given, "COUNT") else {
        return Words::NoCommand;
    };
    let Some(seed) = number_at(u64::MAX, given, "SEED") else {
        return Words::NoCommand;
    };
    Words::Play {
        count: count as u32,
        seed,
    }
}

fn number_at(most: u64, given: &ArgMatches, id: &str) -> Option<u64>
    ensures number { result ≡ number_at most id.now (rows_of (found_of given.now)) }
    ensures within { IfSome result (λ number. number ≤ most) }
{
    let number = given.get_one(id)?;
    (number <= most).then_some(number)
}
