//! Why and where a word is refused.

use mg_lex::Cause;

/// Where a word is refused, and why.
#[derive(Clone, Copy, Debug, PartialEq, Eq)]
pub struct WordFault {
    /// How many lexemes stand before the place.
    pub place: usize,
    /// `Unexpected`, `WordTooLong` or `TooMany`.
    pub cause: Cause,
}
