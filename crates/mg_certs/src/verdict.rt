//! Verdicts and their certificates.
ghost use Rattle.std.specs.Prelude.{◌≡◌, ◌↔◌, IfOk, OnErr, IsTrue};
ghost use Rattle.mg_certs.specs.Claim.{affirmed, refuted};
ghost use Rattle.mg_certs.specs.Validity.{Accepted, AcceptedModel};
ghost use Rattle.mg_certs.specs.Values.{affirmation_of, model_value, verdict_of, TakesMemory};

use mg_action::{Action, is_action};
use mg_core::NoMemory;
use mg_cyclic::{Residues, is_map};
use mg_derive::{Buffers, Derivation, accepts};
use mg_present::{Ask, Presentation};
use mg_rulelog::RuleLog;
use mg_rules::{Rules, is_complete_for};
use std::alloc::Global;

/// A certificate that each goal of an Ask lies in its subgroup.
#[derive(Debug, Drop)]
pub enum Yes {
    /// A derivation with one part for each goal.
    Derivation(Derivation),
    /// A log of rules that rewrite each goal to the empty word.
    RuleLog(RuleLog),
}

impl Yes {
    /// Whether the certificate is accepted for the Ask.
    pub fn is_accepted(&self, alloc: Global, ask: &Ask) -> Result<bool, NoMemory>
        ensures { IfOk result (λ accepted. IsTrue accepted ↔
            Accepted ask.now (affirmed (affirmation_of self.now))) }
    {
        match self {
            Yes::Derivation(text) => {
                let mut buffers = Buffers::for_text(alloc, ask, text)?;
                Ok(accepts(ask, text, &mut buffers))
            }
            Yes::RuleLog(log) => mg_rulelog::accepts(alloc, ask, log),
        }
    }

    /// The same certificate.
    pub fn copy(&self, alloc: Global) -> Result<Yes, NoMemory>
        ensures { IfOk result (λ same. affirmation_of same ≡ affirmation_of self.now) }
    {
        match self {
            Yes::Derivation(text) => Ok(Yes::Derivation(text.copy(alloc)?)),
            Yes::RuleLog(log) => Ok(Yes::RuleLog(log.copy(alloc)?)),
        }
    }
}

/// A model of a group, which can refute goals.
#[derive(Debug, Drop)]
pub enum Model {
    /// A finite action.
    Action(Action),
    /// A map to residues.
    Residues(Residues),
    /// A complete rewriting system.
    Complete(Rules),
}

impl Model {
    /// Whether the model is one of the group. Only a complete system takes memory.
    pub fn is_accepted(&self, alloc: Global, group: &Presentation) -> Result<bool, NoMemory>
        ensures exact { IfOk result (λ accepted. IsTrue accepted ↔
            AcceptedModel group.now (model_value self.now)) }
        ensures memory { OnErr result (TakesMemory (model_value self.now)) }
    {
        match self {
            Model::Action(action) => Ok(is_action(group, action)),
            Model::Residues(map) => Ok(is_map(group, map)),
            Model::Complete(rules) => is_complete_for(alloc, group, rules),
        }
    }

    /// Whether the model refutes the goal of the Ask at a place, from 0. Only a complete system
    /// takes memory.
    pub fn refutes(&self, alloc: Global, ask: &Ask, goal: u32) -> Result<bool, NoMemory>
        ensures exact { IfOk result (λ accepted. IsTrue accepted ↔
            Accepted ask.now (refuted goal (model_value self.now))) }
        ensures memory { OnErr result (TakesMemory (model_value self.now)) }
    {
        match self {
            Model::Action(action) => Ok(mg_action::refutes(ask, goal, action)),
            Model::Residues(map) => Ok(mg_cyclic::refutes(ask, goal, map)),
            Model::Complete(rules) => mg_rules::refutes(alloc, ask, goal as usize, rules),
        }
    }

    /// The same model.
    pub fn copy(&self, alloc: Global) -> Result<Model, NoMemory>
        ensures { IfOk result (λ same. model_value same ≡ model_value self.now) }
    {
        match self {
            Model::Action(action) => Ok(Model::Action(action.copy(alloc)?)),
            Model::Residues(map) => Ok(Model::Residues(map.copy(alloc)?)),
            Model::Complete(rules) => Ok(Model::Complete(rules.copy(alloc)?)),
        }
    }
}

/// A certificate that a goal of an Ask doesn't lie in its subgroup.
#[derive(Debug, Drop)]
pub struct No {
    /// The place of the goal, from 0.
    pub goal: u32,
    /// A model of the group that refutes the goal.
    pub model: Model,
}

impl No {
    /// Whether the certificate is accepted for the Ask. Only a complete system takes memory.
    pub fn is_accepted(&self, alloc: Global, ask: &Ask) -> Result<bool, NoMemory>
        ensures exact { IfOk result (λ accepted. IsTrue accepted ↔
            Accepted ask.now (refuted self.now.goal (model_value self.now.model))) }
        ensures memory { OnErr result (TakesMemory (model_value self.now.model)) }
    {
        self.model.refutes(alloc, ask, self.goal)
    }

    /// The same certificate.
    pub fn copy(&self, alloc: Global) -> Result<No, NoMemory>
        ensures goal { IfOk result (λ same. same.goal ≡ self.now.goal) }
        ensures model { IfOk result (λ same. model_value same.model ≡ model_value self.now.model) }
    {
        Ok(No {
            goal: self.goal,
            model: self.model.copy(alloc)?,
        })
    }
}

/// An answer to an Ask, with the certificate that shows it.
#[derive(Debug, Drop)]
pub enum Verdict {
    /// Each goal lies in the subgroup.
    Yes(Yes),
    /// A goal doesn't lie in the subgroup.
    No(No),
}

impl Verdict {
    /// The same verdict.
    pub fn copy(&self, alloc: Global) -> Result<Verdict, NoMemory>
        ensures { IfOk result (λ same. verdict_of same ≡ verdict_of self.now) }
    {
        match self {
            Verdict::Yes(certificate) => Ok(Verdict::Yes(certificate.copy(alloc)?)),
            Verdict::No(certificate) => Ok(Verdict::No(certificate.copy(alloc)?)),
        }
    }
}
