//! Lexemes: what the grammar tells apart of a token.

ghost use Rattle.std.specs.Prelude.{◌≡◌, ◌↔◌, ℕ, ◌+◌, ◌≤◌, length, IsTrue, IfOk};
ghost use Rattle.std.specs.List.{AllByRecursion, AllZip};
ghost use Rattle.mg_lex.specs.declared.limits.TheConstants.{NUMBER_LIMIT};
ghost use Rattle.mg_lex.specs.Number.{number_value};
ghost use Rattle.mg_lex.specs.Token.{IsToken};
ghost use Rattle.mg_lex.specs.Line.{Cuts, IsWithinLimits, token_bytes};
ghost use Rattle.mg_terms.specs.Lexeme.{IsLexemeOf};

use mg_lex::{Keyword, Mark, Token, TokenKind, keyword_of, mark_of, value_of};
use mg_lists::{List, NoMemory};
use std::alloc::Global;

/// Lexemes in the order of their tokens.
pub type Lexemes = List<Lexeme>;

/// What the grammar tells apart of a token.
#[derive(Clone, Copy, Debug, PartialEq, Eq)]
pub enum Lexeme {
    /// A name, whichever.
    Name,
    Keyword(Keyword),
    /// A relator sign, whichever.
    RelatorSign,
    /// A number, by its value.
    Number(u64),
    Mark(Mark),
}

impl Lexeme {
    /// Whether it is this mark.
    pub fn is(self, mark: Mark) -> bool
        ensures { IsTrue result ↔ (self ≡ Lexeme.Mark mark) }
    {
        match self {
            Lexeme::Mark(found) => found == mark,
            _ => false,
        }
    }
}

/// The lexeme that a token of the line is.
pub fn lexeme_of(line: &[u8], token: Token) -> Lexeme
    requires inside { token.start + token.length ≤ length line.now }
    requires kind { IsToken token.kind (token_bytes line.now token) }
    requires number { token.kind ≡ TokenKind.Number →
        number_value (token_bytes line.now token) ≤ NUMBER_LIMIT }
    ensures { IsLexemeOf line.now token result }
{
    let bytes = token.bytes(line);
    match token.kind {
        TokenKind::Name => Lexeme::Name,
        TokenKind::Keyword => match keyword_of(bytes) {
            Some(keyword) => Lexeme::Keyword(keyword),
            None => unreachable!(),
        },
        TokenKind::RelatorSign => Lexeme::RelatorSign,
        TokenKind::Number => match value_of(bytes) {
            Some(value) => Lexeme::Number(value),
            None => unreachable!(),
        },
        TokenKind::Mark => match mark_of(bytes) {
            Some(mark) => Lexeme::Mark(mark),
            None => unreachable!(),
        },
    }
}

/// The lexemes of the tokens into which a line is cut, up to a place.
pub fn lexemes_of(alloc: Global, line: &[u8], tokens: &[Token]) -> Result<Lexemes, NoMemory>
    requires cut { (end : ℕ) × Cuts line.now 0 tokens.now end }
    requires within_limits { AllByRecursion (IsWithinLimits line.now) tokens.now }
    ensures { IfOk result (AllZip (IsLexemeOf line.now) tokens.now) }
{
    let mut lexemes = Lexemes::new(alloc);
    for token in tokens {
        lexemes.push(lexeme_of(line, *token))?;
    }
    Ok(lexemes)
}
