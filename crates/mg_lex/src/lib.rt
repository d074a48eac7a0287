//! The session language, line by line: a line is cut into tokens, or refused at the least place.
#![tactic(auto)]

mod class;
mod front;
mod keyword;
mod laws;
mod limits;
mod line;
mod mark;
mod number;
mod refusal;
mod scanner;
mod token;
mod word;

pub use keyword::{Keyword, keyword_of};
pub use laws::{one_kind, one_reading, one_refusal, the_limits};
pub use limits::{LINE_LIMIT, NAME_LIMIT, NUMBER_LIMIT};
pub use line::{FirstFault, Lexed, lex, tokens};
pub use mark::{Mark, mark_of};
use mg_lists::List;
pub use number::value_of;
pub use refusal::{Cause, LexRefused, Refused};
pub use token::{Token, TokenKind};

/// Bytes of a name or a line.
pub type Text = List<u8>;

/// Names in order.
pub type Names = List<Text>;

/// Tokens in the order in which they stand in a line.
pub type Tokens = List<Token>;

#[cfg(test)]
mod tests;
