//! Why and where a statement is refused.

use mg_lex::Cause;

/// Where a statement is refused, and why.
#[derive(Clone, Copy, Debug, PartialEq, Eq)]
pub struct StatementFault {
    /// How many lexemes stand before the place.
    pub place: usize,
    /// `Unexpected`, `WordTooLong` or `TooMany`.
    pub cause: Cause,
}
