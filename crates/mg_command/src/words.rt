//! The words of the command line.
ghost use Rattle.std.specs.Prelude.{◌≡◌, ◌⊎◌, ◌≤◌, ℕ, Ok, Err, Some, None, List, ◌∷◌, codes, IfOk};
ghost use Rattle.mg_command.specs.Words.{Says, Lacks, Tells, texts};

use crate::command::{Command, PolicyName, UsageCause, WordsRefused};
use crate::reading::{read_check, read_run, read_sample};
use crate::values::{policy_of, sampled_of, workers_of};
use std::alloc::{AllocError, Global};

/// The command that the words say, or the cause for which they say none.
pub fn read_words(alloc: Global, words: &[&str]) -> Result<Command, WordsRefused>
    ensures says { (c : Command) → result ≡ Ok c → Says (texts words.now) c }
    ensures lacks { (c : UsageCause) →
        result ≡ Err (WordsRefused.Usage c) → Lacks (texts words.now) c }
    ensures said { (c : Command) → Says (texts words.now) c →
        (result ≡ Ok c) ⊎ (result ≡ Err WordsRefused.NoMemory) }
    ensures lacking { (c : UsageCause) → Lacks (texts words.now) c →
        (result ≡ Err (WordsRefused.Usage c)) ⊎ (result ≡ Err WordsRefused.NoMemory) }
    ensures workers { (n : ℕ) (p : PolicyName) → result ≡ Ok (Command.Run n p) →
        (1 ≤ n) × (n ≤ 64) }
{
    read(alloc, words)
}

/// The command and the words behind its name.
fn read(alloc: Global, words: &[&str]) -> Result<Command, WordsRefused>
    ensures says { IfOk result (Says (texts words.now)) }
    ensures lacks { (c : UsageCause) →
        result ≡ Err (WordsRefused.Usage c) → Lacks (texts words.now) c }
{
    match words {
        [name, rest @ ..] => command_of(alloc, name, rest),
        [] => Err(WordsRefused::Usage(UsageCause::NoCommand)),
    }
}

/// The command of this name with these words behind it.
fn command_of(alloc: Global, name: &str, words: &[&str]) -> Result<Command, WordsRefused>
    ensures says { IfOk result (Says (name.now ∷ texts words.now)) }
    ensures lacks { (c : UsageCause) → result ≡ Err (WordsRefused.Usage c) →
        Lacks (name.now ∷ texts words.now) c }
{
    if name == "run" {
        answer(run_of(alloc, words))
    } else if name == "check" {
        answer(check_of(alloc, words))
    } else if name == "sample" {
        answer(sample_of(alloc, words))
    } else {
        Err(WordsRefused::Usage(UsageCause::UnknownCommand))
    }
}

/// What is answered where the first word is a command's name.
fn answer(told: Result<Option<Command>, AllocError>) -> Result<Command, WordsRefused>
    ensures says { (c : Command) → result ≡ Ok c → told ≡ Ok (Some c) }
    ensures lacks { (c : UsageCause) → result ≡ Err (WordsRefused.Usage c) →
        (c ≡ UsageCause.BadWords) × (told ≡ Ok None) }
{
    match told {
        Ok(Some(command)) => Ok(command),
        Ok(None) => Err(WordsRefused::Usage(UsageCause::BadWords)),
        Err(_) => Err(WordsRefused::NoMemory),
    }
}

/// The command that stands behind `run`.
fn run_of(alloc: Global, words: &[&str]) -> Result<Option<Command>, AllocError>
    ensures { IfOk result (Tells (codes "run" ∷ texts words.now)) }
{
    let Some(matches) = read_run(alloc, words)? else {
        return Ok(None);
    };
    let Some(workers) = workers_of(matches.get_str("workers")) else {
        return Ok(None);
    };
    let Some(policy) = policy_of(matches.get_str("policy")) else {
        return Ok(None);
    };
    Ok(Some(Command::Run { workers, policy }))
}

/// The command that stands behind `check`.
fn check_of(alloc: Global, words: &[&str]) -> Result<Option<Command>, AllocError>
    ensures { IfOk result (Tells (codes "check" ∷ texts words.now)) }
{
    let Some(_matches) = read_check(alloc, words)? else {
        return Ok(None);
    };
    Ok(Some(Command::Check))
}

/// The command that stands behind `sample`.
fn sample_of(alloc: Global, words: &[&str]) -> Result<Option<Command>, AllocError>
    ensures { IfOk result (Tells (codes "sample" ∷ texts words.now)) }
{
    let Some(matches) = read_sample(alloc, words)? else {
        return Ok(None);
    };
    let Some(number) = sampled_of(matches.get_str("number")) else {
        return Ok(None);
    };
    let runs = matches.get_flag("run");
    Ok(Some(Command::Sample { number, runs }))
}
