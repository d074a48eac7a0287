//! Searches through cosets.
ghost use Rattle.std.specs.Prelude.{◌≡◌, ◌+◌, ◌^◌, ◌≤◌, true, Some, IfOk, OnOk, length};
ghost use Rattle.std.specs.List.{AllByRecursion};
ghost use Rattle.mg_turn.specs.Stops.{StopsBy};
ghost use Rattle.mg_certs.specs.Validity.{group_of};
ghost use Rattle.mg_cosets.specs.Cosets.{CosetsTurn, IsStarted, searching};
ghost use Rattle.mg_cosets.specs.Sounds.{cosets_sound};

use crate::ending::{end_of, goes_on};
use crate::turning::grow;
use mg_certs::Claim;
use mg_core::{Facts, NoMemory};
use mg_present::{Ask, Presentation};
use mg_tables::CosetEnumeration;
use mg_turn::{Outcome, Searcher, Stop};
use std::alloc::Global;
use std::marker::Model;

/// A search that enumerates the cosets of an Ask's subgroup, one row for each unit.
#[derive(Debug, Drop)]
pub struct Cosets {
    ask: Ask,
    enumeration: Option<CosetEnumeration>,
    spent: u64,
    is_open: bool,
}

impl Model for Cosets {
    ghost use Rattle.mg_cosets.specs.Cosets.{Cosets, table_of, IsHeld};

    ghost Value = { Cosets };

    ghost view = { λ s. record { ask = s.ask; table = table_of s.enumeration; spent = s.spent; is_open = s.is_open } };

    ghost invariant = { λ s. IsHeld s.ask s.spent s.enumeration };
}

impl Cosets {
    /// A search whose table has what is forced at row 0.
    pub fn start(alloc: Global, ask: &Ask) -> Result<Cosets, NoMemory>
        requires { 1 ≤ ask.now.group.generators }
        ensures { IfOk result (IsStarted ask.now) }
    {
        let ask = ask.copy(alloc)?;
        let group = ask.group().copy(alloc)?;
        let subgroup = ask.subgroup().copy(alloc)?;
        let enumeration = CosetEnumeration::start(alloc, group, subgroup)?;
        let spent = enumeration.units();
        Ok(Cosets {
            ask,
            enumeration: Some(enumeration),
            spent,
            is_open: true,
        })
    }

    /// How many units are spent.
    pub fn spent(&self) -> u64
        ensures { result ≡ self.now.spent }
    {
        self.spent
    }
}

impl Searcher<Claim> for Cosets {
    ghost searching = { searching };

    fn key(&self) -> &Ask {
        &self.ask
    }

    fn group(&self) -> &Presentation {
        self.ask.group()
    }

    fn wants(&self, _units: u64) -> u32 {
        0
    }

    /// One turn, which doesn't look at its Stop.
    #[tactic(auto, using(crate::proofs::Turns::turn_made))]
    fn turn<T: Stop<Claim>>(
        &mut self,
        alloc: Global,
        units: u64,
        facts: Facts<Claim>,
        _stop: &mut T,
    ) -> Result<Outcome<Claim>, NoMemory>
        requires is_open { self.old.is_open ≡ true }
        requires some_units { 1 ≤ units }
        requires in_all { self.old.spent + units ≤ 2 ^ 62 }
        requires few { length facts.records ≤ 0 }
        requires of_group { AllByRecursion (λ fact. group_of fact ≡
            Some self.old.ask.group) facts.records }
        ensures turns { IfOk result (λ outcome. CosetsTurn self.old units outcome self.new) }
        ensures key { OnOk result (self.new.ask ≡ self.old.ask) }
        ensures group { OnOk result (self.new.ask.group ≡ self.old.ask.group) }
        ensures stopped { IfOk result (λ outcome. StopsBy outcome.end (T.known _stop.new)) }
    {
        drop(facts);
        let Some(enumeration) = self.enumeration.take() else {
            return Err(std::alloc::AllocError);
        };
        let grown = grow(alloc, enumeration, units)?;
        let end = end_of(alloc, &self.ask, &grown, units)?;
        let spent = grown.spent;
        self.spent = grown.enumeration.units();
        self.is_open = goes_on(&end);
        self.enumeration = Some(grown.enumeration);
        Ok(Outcome { spent, end })
    }

    ghost sound = { cosets_sound };
}
