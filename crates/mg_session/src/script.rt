//! From the bytes of a script to its output.
ghost use Rattle.std.specs.Prelude.{◌≡◌, ◌<◌, ◌≤◌, ◌-◌, ◌^◌, length, Err, IfOk};
ghost use Rattle.mg_session.specs.Scripts.{IsRefused, IsOutput};
ghost use Rattle.mg_session.specs.Refusing.{of_reading, of_resolving};
ghost use Rattle.mg_session.specs.declared.script.SessionRefused.TheVariants.{NoMemory as OutOfMemory};

use crate::session::run_plan;
use mg_lex::{Refused, Text};
use mg_names::{ResolveRefused, resolve};
use mg_policy::Sizes;
use mg_script::{ParseRefused, parse};
use std::alloc::{AllocError, Global};
use thiserror::Error;

/// Why the bytes of a script have no output.
#[derive(Clone, Copy, Debug, PartialEq, Eq, Error)]
pub enum SessionRefused {
    /// They are no script, or its names and statements have no meaning.
    #[error("line {}, column {}: {:?}", .0.line, .0.column, .0.cause)]
    Script(Refused),
    #[error("no memory")]
    NoMemory,
}

impl From<ParseRefused> for SessionRefused {
    ghost from_gives = { λ refused told. told ≡ of_reading refused };

    fn from(refused: ParseRefused) -> SessionRefused {
        match refused {
            ParseRefused::Refused(refused) => SessionRefused::Script(refused),
            ParseRefused::NoMemory => SessionRefused::NoMemory,
        }
    }
}

impl From<ResolveRefused> for SessionRefused {
    ghost from_gives = { λ refused told. told ≡ of_resolving refused };

    fn from(refused: ResolveRefused) -> SessionRefused {
        match refused {
            ResolveRefused::Refused(refused) => SessionRefused::Script(refused),
            ResolveRefused::NoMemory => SessionRefused::NoMemory,
        }
    }
}

impl From<AllocError> for SessionRefused {
    ghost from_gives = { λ _ told. told ≡ OutOfMemory };

    fn from(_e: AllocError) -> SessionRefused {
        SessionRefused::NoMemory
    }
}

/// Runs the session of a script with so many workers and a policy, and answers what it prints; or answers where the script
/// is refused.
pub fn run_script<P: Sizes>(
    alloc: Global,
    bytes: &[u8],
    workers: u64,
    policy: &P,
) -> Result<Text, SessionRefused>
    requires short { length bytes.now < 2 ^ 32 - 1 }
    requires some { 1 ≤ workers }
    requires few { workers ≤ 64 }
    requires policy { P.fit policy.now }
    ensures output { IfOk result (IsOutput bytes.now
        (record { workers = workers; IsSize = P.is_size policy.now })) }
    ensures script { (r : Refused) → result ≡ Err (SessionRefused.Script r) →
        IsRefused bytes.now r }
{
    let script = parse(alloc, bytes)?;
    let plan = resolve(alloc, script)?;
    Ok(run_plan(alloc, &plan, workers, policy)?)
}
