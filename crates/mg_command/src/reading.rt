//! The words behind a command's name, as clap reads them.
ghost use Rattle.std.specs.Prelude.{◌≡◌, true, IfOk, codes};
ghost use Rattle.clap.specs.Faults.{is_simple_and_free};
ghost use Rattle.clap.specs.Simple.{app_of};
ghost use Rattle.mg_command.specs.Words.{texts};
ghost use Rattle.mg_command.specs.Reading.{bare_app, run_app, check_app, sample_app, has_dashes, ReadsAs};

use clap::error::ErrorKind;
use clap::{Arg, ArgAction, ArgMatches, Command};
use std::alloc::{AllocError, Global};

/// What is read behind `run`, or nothing where the words are refused.
pub fn read_run<'a>(
    alloc: Global,
    words: &'a [&'a str],
) -> Result<Option<ArgMatches<'a>>, AllocError>
    ensures { IfOk result (ReadsAs run_app (texts words.entry.now)) }
{
    let command = run_command(alloc)?;
    read(command, words)
}

fn run_command<'a>(alloc: Global) -> Result<Command<'a>, AllocError>
    ensures { IfOk result (λ c. app_of c ≡ run_app) }
{
    let workers = Arg::new(alloc, "workers").long("workers");
    let policy = Arg::new(alloc, "policy").long("policy");
    bare_command(alloc, "run").arg(workers)?.arg(policy)
}

/// What is read behind `check`, or nothing where the words are refused.
pub fn read_check<'a>(
    alloc: Global,
    words: &'a [&'a str],
) -> Result<Option<ArgMatches<'a>>, AllocError>
    ensures { IfOk result (ReadsAs check_app (texts words.entry.now)) }
{
    let command = bare_command(alloc, "check");
    read(command, words)
}

/// What is read behind `sample`, or nothing where the words are refused.
pub fn read_sample<'a>(
    alloc: Global,
    words: &'a [&'a str],
) -> Result<Option<ArgMatches<'a>>, AllocError>
    ensures { IfOk result (ReadsAs sample_app (texts words.entry.now)) }
{
    let command = sample_command(alloc)?;
    read(command, words)
}

fn sample_command<'a>(alloc: Global) -> Result<Command<'a>, AllocError>
    ensures { IfOk result (λ c. app_of c ≡ sample_app) }
{
    let number = Arg::new(alloc, "number");
    let run = Arg::new(alloc, "run")
        .long("run")
        .action(ArgAction::SetTrue);
    bare_command(alloc, "sample").arg(number)?.arg(run)
}

/// A command without arguments, help and version.
fn bare_command<'a>(alloc: Global, name: &'a str) -> Command<'a>
    ensures { app_of result ≡ bare_app name.entry.now }
{
    Command::new(alloc, name)
        .no_binary_name(true)
        .disable_help_flag(true)
        .disable_version_flag(true)
}

/// What the command makes of the words, or nothing where it refuses them or one of them is `--`.
fn read<'a>(
    command: Command<'a>,
    words: &'a [&'a str],
) -> Result<Option<ArgMatches<'a>>, AllocError>
    ensures { is_simple_and_free (app_of command.entry) ≡ true →
        IfOk result (ReadsAs (app_of command.entry) (texts words.entry.now)) }
{
    if have_dashes(words) {
        return Ok(None);
    }
    match command.try_get_matches_from(words) {
        Ok(matches) => Ok(Some(matches)),
        Err(error) => {
            if error.kind() == ErrorKind::OutOfMemory {
                Err(AllocError)
            } else {
                Ok(None)
            }
        }
    }
}

/// Whether one of the words is `--`.
fn have_dashes(words: &[&str]) -> bool
    ensures { result ≡ has_dashes (texts words.now) }
{
    words.contains(&"--")
}
