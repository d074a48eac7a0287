//! Laws about tokens and refusals. The functions do nothing; their clauses are the laws.

ghost use Rattle.std.specs.Prelude.{◌≡◌, ◌^◌, ℕ, List};
ghost use Rattle.mg_lex.specs.Token.{IsToken};
ghost use Rattle.mg_lex.specs.Line.{AreTokens, Cuts};
ghost use Rattle.mg_lex.specs.Cause.{AreTokensBefore, IsFirstCause};

use crate::limits::{LINE_LIMIT, NAME_LIMIT, NUMBER_LIMIT};
use crate::refusal::Cause;
use crate::token::{Token, TokenKind};

/// The same bytes are a token of one kind only.
pub fn one_kind()
    ensures { (j k : TokenKind) (bytes : List ℕ) → IsToken j bytes → IsToken k bytes → j ≡ k }
{}

/// Up to a place a line is cut in one way, and a whole line has one list of tokens.
pub fn one_reading()
    ensures cut { (line : List ℕ) (ts us : List Token) (place : ℕ) →
        Cuts line 0 ts place → Cuts line 0 us place → ts ≡ us }
    ensures whole { (line : List ℕ) (ts us : List Token) → AreTokens line ts → AreTokens line us →
        ts ≡ us }
{}

/// A line has one first cause, at one place.
pub fn one_refusal()
    ensures { (line : List ℕ) (p q : ℕ) (c d : Cause) →
        IsFirstCause line p c → IsFirstCause line q d → (p ≡ q) × (c ≡ d) }
{}

/// The limits of lines and tokens by their values.
pub fn the_limits()
    ensures line { LINE_LIMIT ≡ 65536 }
    ensures name { NAME_LIMIT ≡ 32 }
    ensures number { NUMBER_LIMIT ≡ 2 ^ 62 }
{}
