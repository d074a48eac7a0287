//! Searches by their kinds.
ghost use Rattle.std.specs.Prelude.{[], ◌≡◌, ◌↔◌, IsTrue, ◌+◌, ◌^◌, ◌≤◌, true, Some, IfOk, IfErr, OnOk, length};
ghost use Rattle.std.specs.List.{AllByRecursion};
ghost use Rattle.mg_turn.specs.Stops.{StopsBy};
ghost use Rattle.mg_present.specs.Ask.{IsAsked};
ghost use Rattle.mg_present.specs.Applies.{Applies};
ghost use Rattle.mg_certs.specs.Validity.{group_of};
ghost use Rattle.mg_complete.specs.Completion.{first_search as first_completion};
ghost use Rattle.mg_search.specs.Search.{ask_of, procedure_of, units_spent, is_open, models_wanted, Reads, SearchTurn, Opens, searching};
ghost use Rattle.mg_search.specs.Kinds.{seen, IsNotStarted};
ghost use Rattle.mg_search.specs.Sounds.{sound};

use mg_certs::Claim;
use mg_complete::Completion;
use mg_core::{Facts, NoMemory};
use mg_cosets::Cosets;
use mg_nielsen::Nielsen;
use mg_plain::Plain;
use mg_present::{Ask, Presentation, applies};
use mg_recall::Recall;
use mg_turn::{Outcome, Searcher, Stop};
use mg_words::Procedure;
use std::alloc::{AllocError, Global};
use std::marker::Model;
use thiserror::Error;

/// The kinds of search.
#[derive(Debug, Drop)]
enum Kind {
    /// A search through numbered objects.
    Plain(Plain),
    /// Completion of the relators to a rewriting system.
    Completing(Box<Completion>),
    /// An enumeration of cosets.
    Enumerating(Cosets),
    /// Nielsen reduction.
    Reducing(Nielsen),
    /// A search that reads models.
    Recalling(Recall),
}

/// A search of any procedure.
#[derive(Debug, Drop)]
pub struct Search {
    kind: Kind,
}

impl Model for Search {
    ghost use Rattle.mg_search.specs.Search.{Search};
    ghost use Rattle.mg_search.specs.Kinds.{seen};

    ghost Value = { Search };

    ghost view = { λ search. seen search.kind };
}

/// Why a search isn't started.
#[derive(Clone, Copy, Debug, PartialEq, Eq, Error)]
pub enum StartRefused {
    /// The procedure may not be used for the Ask.
    #[error("the procedure does not apply")]
    DoesNotApply,
    /// Want of memory.
    #[error("no memory")]
    NoMemory,
}

impl From<NoMemory> for StartRefused {
    ghost use Rattle.mg_search.specs.declared.search.StartRefused.TheVariants.{NoMemory};

    ghost from_gives = { λ _ refused. refused ≡ NoMemory };

    fn from(_: NoMemory) -> StartRefused {
        StartRefused::NoMemory
    }
}

impl From<mg_plain::StartRefused> for StartRefused {
    ghost use Rattle.mg_search.specs.Kinds.{of_plain};

    ghost from_gives = { λ refused told. told ≡ of_plain refused };

    fn from(refused: mg_plain::StartRefused) -> StartRefused {
        match refused {
            mg_plain::StartRefused::DoesNotApply => StartRefused::DoesNotApply,
            mg_plain::StartRefused::NoMemory => StartRefused::NoMemory,
        }
    }
}

/// Whether the procedure may be used for the Ask. The Ask is looked at, and so known to be one.
fn applies_to(procedure: Procedure, ask: &Ask) -> bool
    ensures exact { IsTrue result ↔ Applies procedure ask.now }
    ensures asked { IsAsked ask.now }
{
    let _group = ask.group();
    applies(procedure, ask)
}

/// A completion that has just been started. It lies behind a box, so that a search moves in few words.
fn boxed(alloc: Global, ask: &Ask) -> Result<Box<Completion>, NoMemory>
    requires { ask.now.subgroup ≡ [] }
    ensures { IfOk result (λ search. search.value ≡ first_completion ask.now) }
{
    match Box::new(alloc, Completion::start(alloc, ask)?) {
        Ok(search) => Ok(search),
        Err(_) => Err(AllocError),
    }
}

impl Kind {
    /// A search that has spent nothing.
    fn start(alloc: Global, procedure: Procedure, ask: &Ask) -> Result<Kind, StartRefused>
        ensures started { IfOk result (λ kind. Opens procedure ask.now (seen kind)) }
        ensures refused { IfErr result (IsNotStarted procedure ask.now) }
    {
        if !applies_to(procedure, ask) {
            return Err(StartRefused::DoesNotApply);
        }
        match procedure {
            Procedure::Derive | Procedure::Act | Procedure::Residue => {
                Ok(Kind::Plain(Plain::start(alloc, procedure, ask)?))
            }
            Procedure::Rewrite => Ok(Kind::Completing(boxed(alloc, ask)?)),
            Procedure::Cosets => Ok(Kind::Enumerating(Cosets::start(alloc, ask)?)),
            Procedure::Nielsen => Ok(Kind::Reducing(Nielsen::start(alloc, ask)?)),
            Procedure::Recall => Ok(Kind::Recalling(Recall::start(alloc, ask)?)),
        }
    }
}

impl Search {
    /// A search by the procedure that has spent nothing. DoesNotApply comes exactly where the procedure may not be
    /// used for the Ask.
    pub fn start(alloc: Global, procedure: Procedure, ask: &Ask) -> Result<Search, StartRefused>
        ensures started { IfOk result (λ search. Opens procedure ask.now search) }
        ensures refused { IfErr result (IsNotStarted procedure ask.now) }
    {
        let kind = Kind::start(alloc, procedure, ask)?;
        Ok(Search { kind })
    }

    /// The procedure.
    pub fn procedure(&self) -> Procedure
        ensures { result ≡ procedure_of self.now }
    {
        match &self.kind {
            Kind::Plain(search) => search.procedure(),
            Kind::Completing(_) => Procedure::Rewrite,
            Kind::Enumerating(_) => Procedure::Cosets,
            Kind::Reducing(_) => Procedure::Nielsen,
            Kind::Recalling(_) => Procedure::Recall,
        }
    }

    /// The units spent.
    pub fn spent(&self) -> u64
        ensures { result ≡ units_spent self.now }
    {
        match &self.kind {
            Kind::Plain(search) => search.cursor(),
            Kind::Completing(search) => search.spent(),
            Kind::Enumerating(search) => search.spent(),
            Kind::Reducing(search) => search.spent(),
            Kind::Recalling(search) => search.models_read(),
        }
    }

    /// Whether it reads models that other searches publish.
    pub fn reads(&self) -> bool
        ensures { IsTrue result ↔ Reads self.now }
    {
        match &self.kind {
            Kind::Plain(_) => false,
            Kind::Completing(_) => false,
            Kind::Enumerating(_) => false,
            Kind::Reducing(_) => false,
            Kind::Recalling(_) => true,
        }
    }
}

impl Searcher<Claim> for Search {
    ghost searching = { searching };

    fn key(&self) -> &Ask {
        match &self.kind {
            Kind::Plain(search) => search.key(),
            Kind::Completing(search) => search.key(),
            Kind::Enumerating(search) => search.key(),
            Kind::Reducing(search) => search.key(),
            Kind::Recalling(search) => search.key(),
        }
    }

    fn group(&self) -> &Presentation {
        match &self.kind {
            Kind::Plain(search) => search.group(),
            Kind::Completing(search) => search.group(),
            Kind::Enumerating(search) => search.group(),
            Kind::Reducing(search) => search.group(),
            Kind::Recalling(search) => search.group(),
        }
    }

    fn wants(&self, units: u64) -> u32 {
        match &self.kind {
            Kind::Plain(search) => search.wants(units),
            Kind::Completing(search) => search.wants(units),
            Kind::Enumerating(search) => search.wants(units),
            Kind::Reducing(search) => search.wants(units),
            Kind::Recalling(search) => search.wants(units),
        }
    }

    /// One turn.
    #[tactic(auto, using(crate::proofs::Turns::plain_turn, crate::proofs::Turns::completing_turn, crate::proofs::Turns::enumerating_turn, crate::proofs::Turns::reducing_turn, crate::proofs::Turns::recalling_turn))]
    fn turn<T: Stop<Claim>>(
        &mut self,
        alloc: Global,
        units: u64,
        facts: Facts<Claim>,
        stop: &mut T,
    ) -> Result<Outcome<Claim>, NoMemory>
        requires is_open { is_open self.old ≡ true }
        requires some_units { 1 ≤ units }
        requires in_all { units_spent self.old + units ≤ 2 ^ 62 }
        requires few { length facts.records ≤ models_wanted self.old units }
        requires of_group { AllByRecursion (λ fact. group_of fact ≡
            Some (ask_of self.old).group) facts.records }
        ensures turns { IfOk result (λ outcome.
            SearchTurn self.old units facts outcome self.new) }
        ensures key { OnOk result (ask_of self.new ≡ ask_of self.old) }
        ensures group { OnOk result ((ask_of self.new).group ≡ (ask_of self.old).group) }
        ensures stopped { IfOk result (λ outcome. StopsBy outcome.end (T.known stop.new)) }
    {
        match &mut self.kind {
            Kind::Plain(search) => search.turn(alloc, units, facts, stop),
            Kind::Completing(search) => search.turn(alloc, units, facts, stop),
            Kind::Enumerating(search) => search.turn(alloc, units, facts, stop),
            Kind::Reducing(search) => search.turn(alloc, units, facts, stop),
            Kind::Recalling(search) => search.turn(alloc, units, facts, stop),
        }
    }

    ghost sound = { sound };
}
