//! Commands, and why words are none.
use thiserror::Error;

/// The name of a policy.
#[derive(Clone, Copy, Debug, PartialEq, Eq)]
pub enum PolicyName {
    Even,
    Doubling,
}

/// What is asked for.
#[derive(Clone, Copy, Debug, PartialEq, Eq)]
pub enum Command {
    /// Runs the script on standard input.
    Run { workers: u64, policy: PolicyName },
    /// Checks what is read.
    Check,
    /// Makes the script with this number, and runs it where that is asked.
    Sample { number: u64, runs: bool },
}

/// Why words are no command.
#[derive(Clone, Copy, Debug, PartialEq, Eq, Error)]
pub enum UsageCause {
    #[error("no command")]
    NoCommand,
    #[error("unknown command")]
    UnknownCommand,
    #[error("bad words")]
    BadWords,
}

/// Why no command is answered.
#[derive(Clone, Copy, Debug, PartialEq, Eq, Error)]
pub enum WordsRefused {
    /// The words are no command, for this cause.
    #[error("{0}")]
    Usage(UsageCause),
    #[error("no memory")]
    NoMemory,
}
