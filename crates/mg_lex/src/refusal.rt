//! Why and where a script is refused.

ghost use Rattle.std.specs.Prelude.{◌≡◌, ◌<◌, ◌↔◌, IsTrue};
ghost use Rattle.mg_lex.specs.Cause.{cause_number};

use thiserror::Error;

/// Why a script is refused. At one place the cause that stands first here is answered.
#[derive(Clone, Copy, Debug, PartialEq, Eq, PartialOrd, Ord)]
pub enum Cause {
    /// A byte that no line may hold, in comments too.
    BadByte,
    /// A byte that begins no token, or a name that is too long.
    BadToken,
    /// A token that can't follow, or a line that ends too early.
    Unexpected,
    /// A line with too many bytes.
    LineTooLong,
    /// A number that is too large.
    NumberTooLarge,
    /// A part of a word, a relation or a goal with too many letters.
    WordTooLong,
    /// A count that passes its limit.
    TooMany,
    /// A declared name that is there already.
    NameTaken,
    /// A name that isn't declared above.
    UnknownName,
    /// A name of another kind than its place needs.
    WrongKind,
    /// A name in a word that is no generator of the group.
    UnknownGenerator,
    /// A generator that is named twice.
    GeneratorTwice,
    /// A generator without an arrow.
    ImageMissing,
    /// A procedure that can't be used on the question.
    ProcedureDoesNotApply,
}

impl Cause {
    /// Its number, from 1.
    pub fn number(self) -> u8
        ensures { result ≡ cause_number self }
    {
        self as u8 + 1
    }

    /// Whether it stands before the other in the order of causes, which is that of their numbers.
    pub fn is_before(self, other: Cause) -> bool
        ensures { IsTrue result ↔ (cause_number self < cause_number other) }
    {
        self < other
    }
}

/// Where a script is refused, and why.
#[derive(Clone, Copy, Debug, PartialEq, Eq, PartialOrd, Ord)]
pub struct Refused {
    /// The line, counted from 1.
    pub line: u32,
    /// The byte of the line, counted from 1.
    pub column: u32,
    pub cause: Cause,
}

/// Why a line has no tokens.
#[derive(Debug, Drop, Error)]
pub enum LexRefused {
    #[error("line {}, column {}: {:?}", .0.line, .0.column, .0.cause)]
    Refused(Refused),
    #[error("no memory")]
    NoMemory,
}
