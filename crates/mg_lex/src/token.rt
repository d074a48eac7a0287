//! Tokens, as spans of a line.

ghost use Rattle.std.specs.Prelude.{◌≡◌, ◌+◌, ◌≤◌, length};
ghost use Rattle.mg_lex.specs.Line.{token_bytes};

/// What a token is.
#[derive(Clone, Copy, Debug, PartialEq, Eq)]
pub enum TokenKind {
    /// A letter, then letters, digits and underscores; no keyword and no relator sign.
    Name,
    /// A word that the language keeps for itself.
    Keyword,
    /// The letter `r` and digits.
    RelatorSign,
    /// Decimal digits.
    Number,
    /// A punctuation mark.
    Mark,
}

/// A token: what it is, and which bytes of its line it takes.
#[derive(Clone, Copy, Debug, PartialEq, Eq)]
pub struct Token {
    pub kind: TokenKind,
    /// Where its first byte stands in the line, from 0.
    pub start: u32,
    /// How many bytes it has.
    pub length: u32,
}

impl Token {
    /// Its bytes in the line that it stands in.
    pub fn bytes<'a>(&self, line: &'a [u8]) -> &'a [u8]
        requires { self.now.start + self.now.length ≤ length line.now }
        ensures { result.now ≡ token_bytes line.now self.now }
    {
        let start = self.start as usize;
        &line[start..start + self.length as usize]
    }
}
