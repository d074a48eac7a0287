//! One statement of a script.

ghost use Rattle.std.specs.Prelude.{◌≡◌, IfOk, IfErr, OnOk};
ghost use Rattle.std.specs.List.{AllByRecursion};
ghost use Rattle.mg_script.specs.Statement.{Statement, statement_pieces, statement_lexemes};
ghost use Rattle.mg_script.specs.Count.{Adds, IsBounded, AreWithinLimits};
ghost use Rattle.mg_script.specs.Cause.{IsFaultless, IsFirstCause};

use crate::counted::Counts;
use crate::fault::StatementFault;
use crate::reader::Reader;
use mg_terms::Lexeme;

/// Reads the lexemes of a line as a statement, with what the script has counted before, or finds the
/// first cause that stands in them. Answers the counts with those of the statement.
pub fn read_statement(lexemes: &[Lexeme], counts: Counts) -> Result<Counts, StatementFault>
    ensures statement { IfOk result (λ after.
        (s : Statement) × (statement_lexemes s ≡ lexemes.now) ×
        Adds (statement_pieces s) counts after ×
        AllByRecursion IsBounded (statement_pieces s)) }
    ensures within { IfOk result (λ after. AreWithinLimits counts → AreWithinLimits after) }
    ensures faultless { OnOk result (IsFaultless counts lexemes.now) }
    ensures refused { IfErr result (λ f. IsFirstCause counts lexemes.now f.place f.cause) }
{
    let mut reader = Reader::new(lexemes, counts);
    reader.statement()?;
    reader.end()?;
    Ok(reader.counts)
}
