//! Which goal a model refutes first.
ghost use Rattle.std.specs.Prelude.{IfOk, OnErr};
ghost use Rattle.mg_certs.specs.Refuting.{IsFirstRefuted};
ghost use Rattle.mg_certs.specs.Validity.{AcceptedModel};
ghost use Rattle.mg_certs.specs.Values.{model_value, TakesMemory};

use crate::verdict::Model;
use crate::{acting, descending, summing};
use mg_core::NoMemory;
use mg_present::Ask;
use std::alloc::Global;

impl Model {
    /// The place, from 0, of the first goal of the Ask that the model refutes, if it refutes one. Only a
    /// complete system takes memory.
    pub fn first_refuted(&self, alloc: Global, ask: &Ask) -> Result<Option<u32>, NoMemory>
        requires of_group { AcceptedModel ask.now.group (model_value self.now) }
        ensures exact { IfOk result (IsFirstRefuted ask.now (model_value self.now)) }
        ensures memory { OnErr result (TakesMemory (model_value self.now)) }
    {
        match self {
            Model::Action(action) => Ok(acting::first_refuted(ask, action)),
            Model::Residues(map) => Ok(summing::first_refuted(ask, map)),
            Model::Complete(rules) => descending::first_refuted(alloc, ask, rules),
        }
    }
}
