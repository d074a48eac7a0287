//! Which procedures may be used for an Ask.
ghost use Rattle.std.specs.Prelude.{◌↔◌, IsTrue};
ghost use Rattle.mg_present.specs.Applies.{Applies};

use crate::ask::Ask;
use mg_words::Procedure;

/// Whether the procedure may be used for the Ask: procedures that act by generators need one, completion knows no
/// subgroup words, and Nielsen reduction no relators.
pub fn applies(procedure: Procedure, ask: &Ask) -> bool
    ensures { IsTrue result ↔ Applies procedure ask.now }
{
    match procedure {
        Procedure::Derive | Procedure::Recall => true,
        Procedure::Act | Procedure::Residue | Procedure::Cosets => 1 <= ask.group().generators(),
        Procedure::Rewrite => ask.subgroup().len() == 0,
        Procedure::Nielsen => ask.group().relators().len() == 0,
    }
}
