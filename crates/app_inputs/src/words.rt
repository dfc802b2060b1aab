//! The words of the command line, as clap reads them.
ghost use Rattle.std.specs.Prelude.{◌≡◌, ◌≤◌, IfOk, IfSome, map, option_map};
ghost use Rattle.std.specs.Option.{option_and_then};
ghost use Rattle.std.specs.String.{string_bytes};
ghost use Rattle.clap.specs.Words.{first_of, found_of, rows_of, subcommand_rows_of};
ghost use Rattle.app_sample_data.specs.Numbers.{IsDataNumber};
ghost use Rattle.app_inputs.specs.Words.{IsInRange, command_in, command_of, trial_number};
ghost use Rattle.app_inputs.specs.Views.{command_view};

mod subcommands;

use clap::ArgMatches;
use clap::error::ErrorKind;
use std::alloc::{AllocError, Global};
use subcommands::program;

/// What the words ask for.
#[derive(Clone, Copy, Debug)]
pub enum Command<'a> {
    /// The statements of the script over the tables of the folder.
    Session { folder: &'a str, script: &'a str },
    /// The sessions and the refreshes of the job, side by side, over the tables of the folder.
    Throughput { folder: &'a str, job: &'a str },
    /// The plans of the script.
    Explain { script: &'a str },
    /// How many rows the tables of the folder have.
    Check { folder: &'a str },
    /// The job of the made data of this number, from 1 to 1000.
    Trial { number: u64 },
}

/// The value of an argument.
fn value<'a>(found: &ArgMatches<'a>, name: &str) -> Option<&'a str>
    ensures { option_map (λ text. text.now) result
        ≡ first_of name.now (rows_of (found_of found.now)) }
{
    found.get_str(name)
}

/// The number of a trial that a text is, from 1 to 1000.
fn trial_number(text: &str) -> Option<u64>
    ensures number { result ≡ trial_number text.now }
    ensures range { IfSome result IsDataNumber }
{
    match text.parse::<u64>() {
        Ok(number) if number >= 1 && number <= 1000 => Some(number),
        _ => None,
    }
}

/// The command of a subcommand's name and of what clap found for its arguments.
fn command_in<'a>(name: &str, found: &ArgMatches<'a>) -> Option<Command<'a>>
    ensures command { option_map command_view result
        ≡ command_in (name.now, rows_of (found_of found.now)) }
    ensures range { IfSome result (λ command. IsInRange (command_view command)) }
{
    match name {
        "session" => {
            let folder = value(found, "DIR")?;
            let script = value(found, "SCRIPT")?;
            Some(Command::Session { folder, script })
        }
        "throughput" => {
            let folder = value(found, "DIR")?;
            let job = value(found, "JOB")?;
            Some(Command::Throughput { folder, job })
        }
        "explain" => {
            let script = value(found, "SCRIPT")?;
            Some(Command::Explain { script })
        }
        "check" => {
            let folder = value(found, "DIR")?;
            Some(Command::Check { folder })
        }
        "trial" => {
            let number = trial_number(value(found, "N")?)?;
            Some(Command::Trial { number })
        }
        _ => None,
    }
}

/// The command that clap found.
fn command_found<'a>(found: &ArgMatches<'a>) -> Option<Command<'a>>
    ensures command { option_map command_view result
        ≡ option_and_then command_in (subcommand_rows_of found.now) }
    ensures range { IfSome result (λ command. IsInRange (command_view command)) }
{
    let (name, found) = found.subcommand()?;
    command_in(name, found)
}

/// The command that the words are, if they are one; clap's own texts are left out.
pub fn read_words<'a>(alloc: Global, words: &'a [String]) -> Result<Option<Command<'a>>, AllocError>
    ensures command { IfOk result (λ read. option_map command_view read
        ≡ command_of (map string_bytes words.entry.now)) }
    ensures range { IfOk result
        (λ read. IfSome read (λ command. IsInRange (command_view command))) }
{
    match program(alloc)?.try_get_matches_from(words) {
        Ok(found) => Ok(command_found(&found)),
        Err(error) => match error.kind() {
            ErrorKind::OutOfMemory => Err(AllocError),
            _ => Ok(None),
        },
    }
}
