//! NO by the rules, where no overlap or inclusion is left.
ghost use Rattle.std.specs.Prelude.{◌≡◌, ◌∷◌, ℕ, [], IfOk};
ghost use Rattle.mg_certs.specs.Claim.{complete, refuted as refuted_by};
ghost use Rattle.mg_certs.specs.Refuting.{PublishesNo, no_and_model};
ghost use Rattle.mg_certs.specs.Validity.{Accepted, AcceptedModel};
ghost use Rattle.mg_certs.specs.Values.{model_value};
ghost use Rattle.mg_complete.specs.Completion.{AllDone, Vanish};
ghost use Rattle.mg_complete.specs.Turn.{Remains};
ghost use Rattle.mg_complete.specs.Working.{Works};

use crate::work::Work;
use mg_certs::{Claim, Model, No, Verdict};
use mg_core::{NoMemory, Records};
use mg_present::Ask;
use std::alloc::Global;

impl Work {
    /// The Ask settled by NO with the first goal that the rules refute, and the rules as a model.
    pub(crate) fn refute(&self, alloc: Global) -> Result<Records<Claim>, NoMemory>
        requires works { (dealt : ℕ) × Works self.now dealt }
        requires vanish { Vanish self.now.ask.group self.now.system.rules }
        requires done { AllDone self.now.system.rules self.now.last }
        requires remains { Remains self.now.ask self.now.system.rules }
        ensures { IfOk result (λ records.
            PublishesNo self.now.ask (complete self.now.system.rules) records) }
    {
        let _ = self.ask.group();
        let model = Model::Complete(self.system.rules.copy(alloc)?);
        match model.first_refuted(alloc, &self.ask)? {
            Some(goal) => refuted(alloc, &self.ask, goal, model),
            None => unreachable!(),
        }
    }
}

// The Ask settled by NO, and behind it the model.
fn refuted(alloc: Global, ask: &Ask, goal: u32, model: Model) -> Result<Records<Claim>, NoMemory>
    requires refutes { Accepted ask.now (refuted_by goal (model_value model)) }
    requires of_group { AcceptedModel ask.now.group (model_value model) }
    ensures { IfOk result (λ records. records ≡ no_and_model ask.now goal (model_value model)) }
{
    let no = No {
        goal,
        model: model.copy(alloc)?,
    };
    let mut records = Records::new(alloc);
    records.push(Claim::of_verdict(ask.copy(alloc)?, Verdict::No(no)))?;
    records.push(Claim::of_model(ask.group().copy(alloc)?, model))?;
    Ok(records)
}
