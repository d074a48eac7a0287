//! Laws of words. The functions do nothing; their clauses are the laws.

ghost use Rattle.std.specs.Prelude.{◌≡◌, ◌∷◌, ◌++◌, ◌↔◌, ℕ, List};
ghost use Rattle.mg_terms.specs.Word.{Word, word_lexemes};
ghost use Rattle.mg_terms.specs.Beginning.{GoesOn, EndsBefore, CanFollow};
ghost use Rattle.mg_terms.specs.Cause.{IsReach, IsFirstCause};

use crate::lexeme::Lexeme;
use crate::limits::{DEPTH_LIMIT, WORD_LIMIT};
use mg_lex::Cause;

/// The grammar is unambiguous: lexemes are one word only.
pub fn one_word()
    ensures { (u v : Word) → word_lexemes u ≡ word_lexemes v → u ≡ v }
{}

/// Words are read greedily: where two words begin a list, and neither goes on with the lexeme behind
/// it, they are one.
pub fn one_end()
    ensures { (u v : Word) (xs ys : List Lexeme) → word_lexemes u ++ xs ≡ word_lexemes v ++ ys →
        EndsBefore u xs → EndsBefore v ys → (u ≡ v) × (xs ≡ ys) }
{}

/// Which lexemes a word goes on with.
pub fn what_follows()
    ensures { (w : Word) (x : Lexeme) → GoesOn w x ↔ CanFollow w x }
{}

/// How far words go in lexemes is one place, and so is that of the first cause that stands in them.
pub fn one_place()
    ensures reach { (xs : List Lexeme) (m n : ℕ) → IsReach xs m → IsReach xs n → m ≡ n }
    ensures first { (xs : List Lexeme) (p q : ℕ) (c d : Cause) →
        IsFirstCause xs p c → IsFirstCause xs q d → (p ≡ q) × (c ≡ d) }
{}

/// The limits of words by their values.
pub fn the_limits()
    ensures letters { WORD_LIMIT ≡ 10000 }
    ensures depth { DEPTH_LIMIT ≡ 256 }
{}
