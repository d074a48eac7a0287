//! The facts of a session's log.
ghost use Rattle.std.specs.Prelude.{◌≡◌, IfOk, map};
ghost use Rattle.mg_core.specs.Log.{facts_of};
ghost use Rattle.mg_report.specs.Values.{fact_of};

use crate::state::Session;
use mg_certs::{Claim, ClaimView};
use mg_lists::NoMemory;
use mg_report::FactBlock;
use std::alloc::Global;

/// The facts in the order of the log.
pub(crate) fn fact_blocks(alloc: Global, session: &Session) -> Result<Vec<FactBlock<'_>>, NoMemory>
    ensures { IfOk result (λ blocks. map fact_of blocks.items ≡ facts_of session.now.log) }
{
    let mut blocks = Vec::new(alloc);
    let claims = session.facts();
    for claim in claims {
        blocks.push(block_of(claim))?;
    }
    Ok(blocks)
}

/// What is printed of a fact.
fn block_of(claim: &Claim) -> FactBlock<'_>
    ensures { fact_of result ≡ claim.now }
{
    match claim.view() {
        ClaimView::Settled(ask, verdict) => FactBlock::Settled(ask, verdict),
        ClaimView::ModelOf(group, model) => FactBlock::ModelOf(group, model),
    }
}
