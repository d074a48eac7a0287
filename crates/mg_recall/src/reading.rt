//! Models that are read, one after another.
ghost use Rattle.std.specs.Prelude.{◌≡◌, ◌∷◌, [], Some, IfOk};
ghost use Rattle.std.specs.List.{AllByRecursion};
ghost use Rattle.mg_present.specs.Ask.{Inquiry};
ghost use Rattle.mg_certs.specs.Claim.{refuted};
ghost use Rattle.mg_certs.specs.Refuting.{no_and_model};
ghost use Rattle.mg_certs.specs.Validity.{Accepted, AcceptedModel, group_of};
ghost use Rattle.mg_certs.specs.Values.{model_value};
ghost use Rattle.mg_recall.specs.Reading.{IsReadAs, IsRead};

use mg_certs::{Claim, ClaimView, Model, No, Verdict};
use mg_core::{NoMemory, Records};
use mg_present::Ask;
use std::alloc::Global;

/// What is published by the first model that refutes a goal.
#[derive(Drop)]
pub(crate) struct Found {
    /// How many models were read, this one the last.
    pub(crate) spent: u64,
    /// NO with the first goal that the model refutes, and the model.
    pub(crate) records: Records<Claim>,
}

/// The Ask settled by NO, and behind it the model.
fn settled(alloc: Global, ask: &Ask, goal: u32, model: &Model) -> Result<Records<Claim>, NoMemory>
    requires refutes { Accepted ask.now (refuted goal (model_value model.now)) }
    requires of_group { AcceptedModel ask.now.group (model_value model.now) }
    ensures { IfOk result (λ records. records ≡ no_and_model ask.now goal (model_value model.now)) }
{
    let no = No {
        goal,
        model: model.copy(alloc)?,
    };
    let mut records = Records::new(alloc);
    records.push(Claim::of_verdict(ask.copy(alloc)?, Verdict::No(no)))?;
    records.push(Claim::of_model(ask.group().copy(alloc)?, model.copy(alloc)?))?;
    Ok(records)
}

/// What is published by a model of the group of the Ask, where it refutes a goal.
#[tactic(auto, using(crate::proofs::Models::refutes_some, crate::proofs::Models::refutes_none))]
fn published(alloc: Global, ask: &Ask, fact: &Claim) -> Result<Option<Records<Claim>>, NoMemory>
    requires { group_of fact.now ≡ Some ask.now.group }
    ensures { IfOk result (IsReadAs ask.now fact.now) }
{
    let ClaimView::ModelOf(_, model) = fact.view() else {
        return Ok(None);
    };
    match model.first_refuted(alloc, ask)? {
        Some(goal) => Ok(Some(settled(alloc, ask, goal, model)?)),
        None => Ok(None),
    }
}

/// Reads models of the group of the Ask up to the first that refutes a goal.
#[tactic(auto, using(crate::proofs::Models::none_yet))]
pub(crate) fn read(alloc: Global, ask: &Ask, facts: &[Claim]) -> Result<Option<Found>, NoMemory>
    requires { AllByRecursion (λ fact. group_of fact ≡ Some ask.now.group) facts.now }
    ensures { IfOk result (IsRead ask.now facts.now) }
{
    for place in 0..facts.len() {
        if let Some(records) = published(alloc, ask, &facts[place])? {
            return Ok(Some(Found {
                spent: place as u64 + 1,
                records,
            }));
        }
    }
    Ok(None)
}
