//! Searches by completion.
ghost use Rattle.std.specs.Prelude.{◌≡◌, ◌+◌, ◌^◌, ◌≤◌, [], true, Some, IfOk, OnOk, length};
ghost use Rattle.std.specs.List.{AllByRecursion};
ghost use Rattle.mg_turn.specs.Stops.{StopsBy};
ghost use Rattle.mg_certs.specs.Validity.{group_of};
ghost use Rattle.mg_complete.specs.Completion.{IsKept, first_search};
ghost use Rattle.mg_complete.specs.Turn.{CompletionTurn, searching};
ghost use Rattle.mg_complete.specs.Sounds.{completion_sound};

use crate::ending::{goes_on, has_begun};
use crate::work::Work;
use mg_certs::Claim;
use mg_core::{Facts, NoMemory};
use mg_present::{Ask, Presentation};
use mg_turn::{Outcome, Searcher, Stop};
use std::alloc::{AllocError, Global};
use std::marker::Model;

/// A search that completes the relators of an Ask's group to a rewriting system, one overlap or
/// inclusion for each unit.
#[derive(Debug, Drop)]
pub struct Completion {
    ask: Ask,
    work: Option<Work>,
    is_open: bool,
    begun: bool,
}

impl Model for Completion {
    ghost use Rattle.mg_complete.specs.Completion.{Completion};
    ghost use Rattle.mg_complete.specs.Holding.{search_of, IsHeld};

    ghost Value = { Completion };

    ghost view = { λ s. search_of s.ask s.work s.is_open s.begun };

    ghost invariant = { λ s. IsHeld s.ask s.work s.is_open s.begun };
}

impl Completion {
    /// A search that has no rule yet.
    pub fn start(alloc: Global, ask: &Ask) -> Result<Completion, NoMemory>
        requires { ask.now.subgroup ≡ [] }
        ensures { IfOk result (λ search. search ≡ first_search ask.now) }
    {
        Ok(Completion {
            ask: ask.copy(alloc)?,
            work: Some(Work::new(alloc, ask)?),
            is_open: true,
            begun: false,
        })
    }

    /// How many units are spent, which are as many as overlaps and inclusions are done.
    pub fn spent(&self) -> u64
        ensures spent { result ≡ self.now.spent }
        ensures kept { IsKept self.now }
    {
        let _ = self.ask.group();
        match &self.work {
            Some(work) => work.spent,
            None => 0,
        }
    }
}

impl Searcher<Claim> for Completion {
    ghost searching = { searching };

    fn key(&self) -> &Ask {
        &self.ask
    }

    fn group(&self) -> &Presentation {
        self.ask.group()
    }

    fn wants(&self, _units: u64) -> u32 {
        0
    }

    /// One turn, which doesn't look at its Stop.
    fn turn<T: Stop<Claim>>(
        &mut self,
        alloc: Global,
        units: u64,
        facts: Facts<Claim>,
        _stop: &mut T,
    ) -> Result<Outcome<Claim>, NoMemory>
        requires is_open { self.old.is_open ≡ true }
        requires some_units { 1 ≤ units }
        requires in_all { self.old.spent + units ≤ 2 ^ 62 }
        requires few { length facts.records ≤ 0 }
        requires of_group { AllByRecursion (λ fact. group_of fact ≡
            Some self.old.ask.group) facts.records }
        ensures turns { IfOk result (λ outcome. CompletionTurn self.old units outcome self.new) }
        ensures key { OnOk result (self.new.ask ≡ self.old.ask) }
        ensures group { OnOk result (self.new.ask.group ≡ self.old.ask.group) }
        ensures stopped { IfOk result (λ outcome. StopsBy outcome.end (T.known _stop.new)) }
    {
        drop(facts);
        let _ = self.ask.group();
        let Some(mut work) = self.work.take() else {
            return Err(AllocError);
        };
        let before = work.spent;
        let pause = work.run(alloc, before + units, self.begun)?;
        let end = work.end(alloc, pause)?;
        let spent = work.spent - before;
        self.is_open = goes_on(&end);
        self.begun = has_begun(self.begun, &end);
        self.work = Some(work);
        Ok(Outcome { spent, end })
    }

    ghost sound = { completion_sound };
}
