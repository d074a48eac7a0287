//! From the names of a script to a plan.

ghost use Rattle.std.specs.Prelude.{◌≡◌, ◌<◌, ◌-◌, ◌^◌, ◌+◌, ℕ, Err, IfOk, List as ListOf, length};
ghost use Rattle.mg_script.specs.Script.{IsScript};
ghost use Rattle.mg_names.specs.IsPlan.{IsPlan};
ghost use Rattle.mg_names.specs.Resolve.{IsPlanOf, IsRefused};

use crate::least::Fault;
use crate::plan::Plan;
use crate::resolver::Resolver;
use mg_lex::Refused;
use mg_lists::NoMemory;
use mg_script::{Script, ScriptLine};
use std::alloc::Global;
use thiserror::Error;

/// Why a script has no plan.
#[derive(Debug, Drop, Error)]
pub enum ResolveRefused {
    #[error("line {}, column {}: {:?}", .0.line, .0.column, .0.cause)]
    Refused(Refused),
    #[error("no memory")]
    NoMemory,
}

impl From<NoMemory> for ResolveRefused {
    ghost use Rattle.mg_names.specs.declared.resolving.ResolveRefused.TheVariants.{NoMemory};

    ghost from_gives = { λ _ refused. refused ≡ NoMemory };

    fn from(_: NoMemory) -> ResolveRefused {
        ResolveRefused::NoMemory
    }
}

/// The plan that the statements of a script mean, or the first line whose statement shows a cause, and the first
/// cause that it shows.
pub fn resolve(alloc: Global, script: Script) -> Result<Plan, ResolveRefused>
    requires { (bytes : ListOf ℕ) × (length bytes < 2 ^ 32 - 1) × IsScript bytes script }
    ensures plan { IfOk result (IsPlanOf script) }
    ensures within { IfOk result IsPlan }
    ensures refused { (r : Refused) → result ≡ Err (ResolveRefused.Refused r) → IsRefused script r }
{
    let mut resolver = Resolver::new(alloc);
    let lines = script.as_slice();
    for line in lines {
        if let Some(fault) = resolver.statement(alloc, line)? {
            return Err(ResolveRefused::Refused(refusal(line, fault)));
        }
    }
    Ok(resolver.plan)
}

/// The refusal of a line for a cause.
fn refusal(line: &ScriptLine, fault: Fault) -> Refused
    requires { fault.place < 2 ^ 32 - 1 }
    ensures line { result.line ≡ line.now.number }
    ensures column { result.column ≡ fault.place + 1 }
    ensures cause { result.cause ≡ fault.cause }
{
    Refused {
        line: line.number,
        column: fault.place + 1,
        cause: fault.cause,
    }
}
