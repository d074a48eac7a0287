//! Scripts, as they were read.

use mg_lex::{Text, Tokens};
use mg_lists::List;
use mg_terms::Lexemes;

/// A line that is a statement.
#[derive(Drop)]
pub struct ScriptLine {
    /// Its number, counted from 1.
    pub number: u32,
    /// Its bytes, without its end.
    pub bytes: Text,
    /// Their spans in the bytes.
    pub tokens: Tokens,
    /// What the grammar tells apart of each token.
    pub lexemes: Lexemes,
}

/// The statements of a script, in order.
pub type Script = List<ScriptLine>;
