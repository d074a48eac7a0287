//! Steps of a session that move units.
ghost use Rattle.std.specs.Prelude.{◌≡◌, ◌<◌, List, ℕ, length, IfOk, OnOk};
ghost use Rattle.mg_present.specs.Ask.{Inquiry};
ghost use Rattle.mg_present.specs.Applies.{Applies};
ghost use Rattle.mg_names.specs.IsPlan.{CanBeAsked};
ghost use Rattle.mg_names.specs.Plan.{Plan as PlanOf, AskOf, fund, grant, cancel};
ghost use Rattle.mg_search.specs.Search.{Opens};
ghost use Rattle.mg_session.specs.Session.{After, IsAbsent};
ghost use Rattle.mg_session.specs.Output.{TextOf};
ghost use Rattle.mg_session.specs.Built.{no_turns};
ghost use Rattle.mg_session.specs.At.{AreCounted, IsReady};

use crate::state::Session;
use mg_core::NoMemory;
use mg_names::{Asked, Plan};
use mg_present::Ask;
use mg_report::{cancel_refusal, fund_refusal, grant_refusal};
use mg_search::{Search, StartRefused};
use mg_words::Procedure;
use std::alloc::{AllocError, Global};

/// What a question asks.
fn ask_at(plan: &Plan, question: u32) -> &Ask
    requires { (ask : Inquiry) × AskOf plan.now question ask }
    ensures { AskOf plan.now question result.now }
{
    let asked = &plan.questions.as_slice()[question as usize];
    match &asked.asked {
        Asked::Plain(ask) => ask,
    }
}

/// A search that has spent nothing.
fn start(alloc: Global, procedure: Procedure, ask: &Ask) -> Result<Search, NoMemory>
    requires { Applies procedure ask.now }
    ensures { IfOk result (λ search. Opens procedure ask.now search) }
{
    match Search::start(alloc, procedure, ask) {
        Ok(search) => Ok(search),
        Err(StartRefused::NoMemory) => Err(AllocError),
        Err(StartRefused::DoesNotApply) => unreachable!(),
    }
}

impl Session {
    /// Adds units to the purse, and answers what is printed of it.
    pub(crate) fn fund(&mut self, alloc: Global, units: u64) -> Result<Vec<u8>, NoMemory>
        ensures after { OnOk result ((plan : PlanOf) →
            After plan no_turns (fund units) self.old self.new) }
        ensures text { IfOk result (λ text. (plan : PlanOf) (shown : List ℕ) →
            TextOf plan no_turns shown (fund units) self.old text.items shown) }
    {
        match self.ledger.fund(units) {
            Ok(()) => Ok(Vec::new(alloc)),
            Err(refused) => fund_refusal(alloc, refused.funded),
        }
    }

    /// Moves units from the purse to a search, which is made where it isn't there, and answers what is printed of it.
    pub(crate) fn grant(
        &mut self,
        alloc: Global,
        plan: &Plan,
        question: u32,
        procedure: Procedure,
        units: u64,
    ) -> Result<Vec<u8>, NoMemory>
        requires asked { CanBeAsked plan.now question procedure }
        requires few { length self.old.searches < u32.MAX }
        requires counted { AreCounted self.old }
        ensures after { OnOk result (After plan.now no_turns (grant question procedure units)
            self.old self.new) }
        ensures text { IfOk result (λ text. (shown : List ℕ) →
            TextOf plan.now no_turns shown (grant question procedure units) self.old text.items
            shown) }
    {
        let purse = self.ledger.purse();
        if units > purse {
            return grant_refusal(alloc, purse);
        }
        let place = self.make_ready(alloc, plan, question, procedure)?;
        self.grant_at(place, units);
        Ok(Vec::new(alloc))
    }

    /// The place of a search, which is made where it isn't there.
    fn make_ready(
        &mut self,
        alloc: Global,
        plan: &Plan,
        question: u32,
        procedure: Procedure,
    ) -> Result<u32, NoMemory>
        requires asked { CanBeAsked plan.now question procedure }
        requires few { length self.old.searches < u32.MAX }
        ensures { IfOk result (λ place.
            IsReady plan.now question procedure self.old place self.new) }
    {
        match self.place_of(question, procedure) {
            Some(place) => Ok(place),
            None => {
                let search = start(alloc, procedure, ask_at(plan, question))?;
                self.add(question, search)
            }
        }
    }

    /// Moves what a search holds back to the purse, and answers what is printed of it.
    pub(crate) fn cancel(
        &mut self,
        alloc: Global,
        question: u32,
        procedure: Procedure,
    ) -> Result<Vec<u8>, NoMemory>
        ensures after { OnOk result ((plan : PlanOf) →
            After plan no_turns (cancel question procedure) self.old self.new) }
        ensures text { IfOk result (λ text. (plan : PlanOf) (shown : List ℕ) →
            TextOf plan no_turns shown (cancel question procedure) self.old text.items shown) }
    {
        match self.place_of(question, procedure) {
            Some(place) => {
                self.cancel_at(place);
                Ok(Vec::new(alloc))
            }
            None => cancel_refusal(alloc),
        }
    }
}
