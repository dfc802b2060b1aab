//! The program's subcommands as clap is given them, a function for each.
ghost use Rattle.std.specs.Prelude.{◌≡◌, IfOk, false};
ghost use Rattle.clap.specs.Words.{app_of, rule_of};
ghost use Rattle.clap.specs.declared.builder.Command.TheViews.{out-Command as fields_of};
ghost use Rattle.app_inputs.specs.Subcommands.{
  check_app,
  explain_app,
  program_app,
  required_argument,
  session_app,
  throughput_app,
  trial_app,
  trial_argument,
};

use clap::builder::ValueParser;
use clap::{Arg, Command};
use std::alloc::{AllocError, Global};

/// An argument that has to be there, known by its place among the words.
fn required_argument<'a>(alloc: Global, name: &'a str) -> Arg<'a>
    ensures rule { rule_of result ≡ required_argument name.entry.now }
    ensures local { result.global ≡ false }
{
    Arg::new(alloc, name).required(true)
}

/// Such an argument that is a number from 1 to 1000.
fn trial_argument<'a>(alloc: Global, name: &'a str) -> Arg<'a>
    ensures rule { rule_of result ≡ trial_argument name.entry.now }
    ensures local { result.global ≡ false }
{
    required_argument(alloc, name).value_parser(ValueParser::Unsigned(1, 1000))
}

/// `session DIR SCRIPT`
fn session<'a>(alloc: Global) -> Result<Command<'a>, AllocError>
    ensures app { IfOk result (λ command. app_of command ≡ session_app) }
    ensures local { IfOk result (λ command. (fields_of command).has_globals ≡ false) }
{
    Command::new(alloc, "session")
        .arg(required_argument(alloc, "DIR"))?
        .arg(required_argument(alloc, "SCRIPT"))
}

/// `throughput DIR JOB`
fn throughput<'a>(alloc: Global) -> Result<Command<'a>, AllocError>
    ensures app { IfOk result (λ command. app_of command ≡ throughput_app) }
    ensures local { IfOk result (λ command. (fields_of command).has_globals ≡ false) }
{
    Command::new(alloc, "throughput")
        .arg(required_argument(alloc, "DIR"))?
        .arg(required_argument(alloc, "JOB"))
}

/// `explain SCRIPT`
fn explain<'a>(alloc: Global) -> Result<Command<'a>, AllocError>
    ensures app { IfOk result (λ command. app_of command ≡ explain_app) }
    ensures local { IfOk result (λ command. (fields_of command).has_globals ≡ false) }
{
    Command::new(alloc, "explain").arg(required_argument(alloc, "SCRIPT"))
}

/// `check DIR`
fn check<'a>(alloc: Global) -> Result<Command<'a>, AllocError>
    ensures app { IfOk result (λ command. app_of command ≡ check_app) }
    ensures local { IfOk result (λ command. (fields_of command).has_globals ≡ false) }
{
    Command::new(alloc, "check").arg(required_argument(alloc, "DIR"))
}

/// `trial N`
fn trial<'a>(alloc: Global) -> Result<Command<'a>, AllocError>
    ensures app { IfOk result (λ command. app_of command ≡ trial_app) }
    ensures local { IfOk result (λ command. (fields_of command).has_globals ≡ false) }
{
    Command::new(alloc, "trial").arg(trial_argument(alloc, "N"))
}

/// The program, whose words begin with the name of a subcommand.
pub fn program<'a>(alloc: Global) -> Result<Command<'a>, AllocError>
    ensures { IfOk result (λ command. app_of command ≡ program_app) }
{
    Command::new(alloc, "tpch")
        .no_binary_name(true)
        .subcommand_required(true)
        .subcommand(session(alloc)?)?
        .subcommand(throughput(alloc)?)?
        .subcommand(explain(alloc)?)?
        .subcommand(check(alloc)?)?
        .subcommand(trial(alloc)?)
}
