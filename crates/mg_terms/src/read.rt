//! The word at the front of some lexemes.

ghost use Rattle.std.specs.Prelude.{◌≡◌, ◌≤◌, IfOk, IfErr, OnOk};
ghost use Rattle.mg_terms.specs.declared.limits.TheConstants.{WORD_LIMIT};
ghost use Rattle.mg_terms.specs.Cause.{IsFaultless, IsFirstCause};
ghost use Rattle.mg_terms.specs.Read.{IsRead};

use crate::fault::WordFault;
use crate::lexeme::Lexeme;
use crate::reader::Reader;

/// A word at the front of some lexemes.
#[derive(Clone, Copy, Debug, PartialEq, Eq)]
pub struct WordRead {
    /// How many lexemes it has.
    pub count: usize,
    /// How many letters it has, written out, with nothing reduced.
    pub letters: u32,
}

/// Reads the longest word at the front of the lexemes, or finds the first cause that stands in them.
/// What can't go on with a word may follow it.
pub fn read_word(lexemes: &[Lexeme]) -> Result<WordRead, WordFault>
    ensures word { IfOk result (IsRead lexemes.now) }
    ensures within { IfOk result (λ r. r.letters ≤ WORD_LIMIT) }
    ensures faultless { OnOk result (IsFaultless lexemes.now) }
    ensures refused { IfErr result (λ f. IsFirstCause lexemes.now f.place f.cause) }
{
    let mut reader = Reader::new();
    let count = reader.read(lexemes)?;
    let letters = reader.end(count)?;
    Ok(WordRead { count, letters })
}
