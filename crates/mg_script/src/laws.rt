//! Laws of scripts. The functions do nothing; their clauses are the laws.

ghost use Rattle.std.specs.Prelude.{◌≡◌, ◌⊎◌, ℕ, List};
ghost use Rattle.mg_terms.specs.declared.lexeme.Lexeme.{Lexeme};
ghost use Rattle.mg_script.specs.Lines.{AreLines};
ghost use Rattle.mg_script.specs.Statement.{Statement, statement_lexemes};
ghost use Rattle.mg_script.specs.declared.counted.Counts.{Counts};
ghost use Rattle.mg_script.specs.Cause.{IsReach, IsFirstCause};
ghost use Rattle.mg_script.specs.Count.{limit_of};
ghost use Rattle.mg_script.specs.declared.script.ScriptLine.{ScriptLine};
ghost use Rattle.mg_script.specs.Script.{IsScript, IsRefused};

use crate::counted::{Counted, LETTER_LIMIT};
use mg_lex::{Cause, Refused};

/// Bytes are cut into lines in one way.
pub fn one_cut()
    ensures { (bytes : List ℕ) (ls ms : List (List ℕ)) → AreLines bytes ls → AreLines bytes ms →
        ls ≡ ms }
{}

/// The grammar is unambiguous: lexemes are one statement only.
pub fn one_statement()
    ensures { (s t : Statement) → statement_lexemes s ≡ statement_lexemes t → s ≡ t }
{}

/// How far lexemes begin a statement is one place, and so is that of the first cause that stands in
/// them.
pub fn one_place()
    ensures reach { (xs : List Lexeme) (m n : ℕ) → IsReach xs m → IsReach xs n → m ≡ n }
    ensures first { (counts : Counts) (xs : List Lexeme) (p q : ℕ) (c d : Cause) →
        IsFirstCause counts xs p c → IsFirstCause counts xs q d → (p ≡ q) × (c ≡ d) }
{}

/// Every list of bytes is a script or is refused, in one way, and never both.
pub fn a_script_or_a_refusal()
    ensures some { (bytes : List ℕ) →
        ((script : List ScriptLine) × IsScript bytes script) ⊎ ((r : Refused) × IsRefused bytes r) }
    ensures script { (bytes : List ℕ) (s t : List ScriptLine) → IsScript bytes s →
        IsScript bytes t → s ≡ t }
    ensures refusal { (bytes : List ℕ) (r s : Refused) → IsRefused bytes r → IsRefused bytes s →
        r ≡ s }
    ensures never_both { (bytes : List ℕ) (s : List ScriptLine) (r : Refused) → IsScript bytes s →
        IsRefused bytes r → ⊥ }
{}

/// The limits of scripts by their values.
pub fn the_limits()
    ensures groups { limit_of Counted.Groups ≡ 64 }
    ensures words { limit_of Counted.Words ≡ 1024 }
    ensures subgroups { limit_of Counted.Subgroups ≡ 256 }
    ensures maps { limit_of Counted.Maps ≡ 256 }
    ensures questions { limit_of Counted.Questions ≡ 1024 }
    ensures generators { limit_of Counted.Generators ≡ 64 }
    ensures relators { limit_of Counted.Relators ≡ 256 }
    ensures members { limit_of Counted.Members ≡ 64 }
    ensures reports { limit_of Counted.Reports ≡ 64 }
    ensures letters { LETTER_LIMIT ≡ 1000000 }
{}
