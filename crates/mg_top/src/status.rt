//! How the program ends.
ghost use Rattle.std.specs.Prelude.{◌≡◌};
ghost use Rattle.mg_top.specs.Exit.{exit_of};

use mg_command::UsageCause;
use mg_lex::Refused;

/// How many bytes a script may have.
pub const MOST_SCRIPT_BYTES: usize = 1_048_576;

/// How a call of the program ended.
#[derive(Clone, Copy, Debug, PartialEq, Eq)]
pub enum Status {
    /// The input was read to its end and the whole output was written.
    Done,
    /// The source failed. Nothing was written.
    ReadFault,
    /// The sink failed. What it took is the beginning of an output.
    WriteFault,
    /// The command words ask for nothing. Nothing was read or written.
    Usage(UsageCause),
    /// The input is no script, or its names and statements have no meaning. Nothing was written.
    ScriptRefused(Refused),
    /// The input has too many bytes. Nothing was written.
    TooLong,
    /// Want of memory. Nothing was written.
    NoMemory,
    /// The program can't do yet what the command words ask for. Nothing was read or written.
    NotBuilt {
        /// Always 0: no line of a script asks for it.
        line: u32,
    },
}

/// The exit status of the process.
pub fn code(status: &Status) -> u8
    ensures { result ≡ exit_of status.now }
{
    match status {
        Status::Done => 0,
        Status::ReadFault | Status::WriteFault => 1,
        Status::Usage(_) => 2,
        Status::ScriptRefused(_) | Status::TooLong => 3,
        Status::NoMemory => 4,
        Status::NotBuilt { .. } => 6,
    }
}
