//! What is asked about a group.
ghost use Rattle.std.specs.Prelude.{◌≡◌, ◌<◌, IfOk, slice_get, Some, length};

use crate::presentation::Presentation;
use mg_words::{NoMemory, Word, Words};
use std::alloc::Global;
use std::marker::Model;

/// How many words may generate the subgroup.
pub const MOST_SUBGROUP_WORDS: usize = 64;

/// How many goals an Ask may have.
pub const MOST_GOALS: usize = 4_096;

/// Asks whether each goal lies in the subgroup that the subgroup words generate. Asks are compared by
/// their whole content.
#[derive(Debug, PartialEq, Eq, PartialOrd, Ord, Drop)]
pub struct Ask {
    // The goals are compared first: Asks of one session are mostly about one group and differ in their goals.
    goals: Words,
    subgroup: Words,
    group: Presentation,
}

impl Model for Ask {
    ghost use Rattle.mg_present.specs.Ask.{Inquiry, IsAsked};

    ghost Value = { Inquiry };

    ghost view = { λ a. record { group = a.group; subgroup = a.subgroup; goals = a.goals } };

    ghost invariant = { λ a. IsAsked (record { group = a.group; subgroup = a.subgroup; goals = a.goals }) };

    ghost inverse = { λ ask. record { group = ask.group; subgroup = ask.subgroup; goals = ask.goals } };
}

impl Ask {
    ghost use Rattle.mg_present.specs.Ask.{CanAsk, IsAsked};

    /// Asks whether each goal lies in the subgroup.
    pub fn new(group: Presentation, subgroup: Words, goals: Words) -> Ask
        requires { CanAsk group subgroup goals }
        ensures group { result.group ≡ group }
        ensures subgroup { result.subgroup ≡ subgroup }
        ensures goals { result.goals ≡ goals }
    {
        let _generators = group.generators();
        Ask {
            group,
            subgroup,
            goals,
        }
    }

    /// The group.
    pub fn group(&self) -> &Presentation
        ensures value { result.now ≡ self.now.group }
        ensures fits { IsAsked self.now }
    {
        &self.group
    }

    /// The words that generate the subgroup.
    pub fn subgroup(&self) -> &Words
        ensures value { result.now ≡ self.now.subgroup }
        ensures fits { IsAsked self.now }
    {
        &self.subgroup
    }

    /// The goals.
    pub fn goals(&self) -> &Words
        ensures value { result.now ≡ self.now.goals }
        ensures fits { IsAsked self.now }
    {
        &self.goals
    }

    /// The same Ask.
    pub fn copy(&self, alloc: Global) -> Result<Ask, NoMemory>
        ensures { IfOk result (λ ask. ask ≡ self.now) }
    {
        Ok(Ask {
            group: self.group.copy(alloc)?,
            subgroup: self.subgroup.copy(alloc)?,
            goals: self.goals.copy(alloc)?,
        })
    }
}
