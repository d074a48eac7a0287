//! What these searches publish.
ghost use Rattle.std.specs.Prelude.{◌≡◌, ◌∷◌, [], IfOk};
ghost use Rattle.mg_certs.specs.Claim.{model_of, refuted as refuted_by};
ghost use Rattle.mg_certs.specs.Refuting.{no_and_model};
ghost use Rattle.mg_certs.specs.Validity.{Accepted, AcceptedModel};
ghost use Rattle.mg_certs.specs.Values.{model_value};

use mg_certs::{Claim, Model, No, Verdict};
use mg_core::{NoMemory, Records};
use mg_present::Ask;
use std::alloc::Global;

// The Ask settled by NO, and behind it the model.
pub(crate) fn refuted(
    alloc: Global,
    ask: &Ask,
    goal: u32,
    model: Model,
) -> Result<Records<Claim>, NoMemory>
    requires refutes { Accepted ask.now (refuted_by goal (model_value model)) }
    requires of_group { AcceptedModel ask.now.group (model_value model) }
    ensures { IfOk result (λ records. records ≡ no_and_model ask.now goal (model_value model)) }
{
    let no = No {
        goal,
        model: model.copy(alloc)?,
    };
    let mut records = Records::new(alloc);
    records.push(Claim::of_verdict(ask.copy(alloc)?, Verdict::No(no)))?;
    records.push(Claim::of_model(ask.group().copy(alloc)?, model))?;
    Ok(records)
}

// The model as one of the group of the Ask.
pub(crate) fn modelled(alloc: Global, ask: &Ask, model: Model) -> Result<Records<Claim>, NoMemory>
    requires of_group { AcceptedModel ask.now.group (model_value model) }
    ensures { IfOk result (λ records.
        records ≡ model_of ask.now.group (model_value model) ∷ []) }
{
    let mut records = Records::new(alloc);
    records.push(Claim::of_model(ask.group().copy(alloc)?, model))?;
    Ok(records)
}
