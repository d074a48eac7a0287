//! Words of the session language: their grammar, their lengths, and a reader that refuses at the
//! least place.
#![tactic(auto)]

mod around;
mod fault;
mod laws;
mod letters;
mod lexeme;
mod limits;
mod read;
mod reader;

pub use fault::WordFault;
pub use laws::{one_end, one_place, one_word, the_limits, what_follows};
pub use lexeme::{Lexeme, Lexemes, lexeme_of, lexemes_of};
pub use limits::{DEPTH_LIMIT, WORD_LIMIT};
pub use read::{WordRead, read_word};

#[cfg(test)]
mod tests;
