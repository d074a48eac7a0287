//! Plain searches.
ghost use Rattle.std.specs.Prelude.{◌≡◌, ◌+◌, ◌^◌, ◌≤◌, true, Some, IfOk, IfErr, OnOk, OnErr, length};
ghost use Rattle.std.specs.List.{AllByRecursion};
ghost use Rattle.mg_turn.specs.Stops.{StopsBy};
ghost use Rattle.mg_certs.specs.Validity.{group_of};
ghost use Rattle.mg_plain.specs.Plain.{IsPlain, IsStarted, IsSearched, SomeAccepted, PlainTurn, searching};
ghost use Rattle.mg_plain.specs.Objects.{IsNotStarted};
ghost use Rattle.mg_plain.specs.Sounds.{plain_sound};

use crate::objects::Objects;
use mg_certs::Claim;
use mg_core::{Facts, NoMemory};
use mg_numbers::Advance;
use mg_present::{Ask, Presentation, applies};
use mg_turn::{Outcome, Searcher, Stop, TurnEnd};
use mg_words::Procedure;
use std::alloc::Global;
use std::marker::Model;
use thiserror::Error;

/// A search that tests the objects of its procedure in the order of their numbers, one for each unit. The procedure
/// is derive, act or residue, and the objects are derivations, finite actions or maps to residues.
#[derive(Debug, Drop)]
pub struct Plain {
    objects: Objects,
}

impl Model for Plain {
    ghost use Rattle.mg_plain.specs.Plain.{Plain};
    ghost use Rattle.mg_plain.specs.Objects.{seen};

    ghost Value = { Plain };

    ghost view = { λ search. seen search.objects };
}

/// Why a search isn't started.
#[derive(Clone, Copy, Debug, PartialEq, Eq, Error)]
pub enum StartRefused {
    /// The procedure may not be used for the Ask.
    #[error("the procedure does not apply")]
    DoesNotApply,
    /// Want of memory.
    #[error("no memory")]
    NoMemory,
}

impl From<NoMemory> for StartRefused {
    ghost use Rattle.mg_plain.specs.declared.plain.StartRefused.TheVariants.{NoMemory};

    ghost from_gives = { λ _ refused. refused ≡ NoMemory };

    fn from(_: NoMemory) -> StartRefused {
        StartRefused::NoMemory
    }
}

impl Plain {
    /// A search that has tested nothing yet. It takes all the memory that testing needs. DoesNotApply comes
    /// exactly where the procedure may not be used for the Ask.
    pub fn start(alloc: Global, procedure: Procedure, ask: &Ask) -> Result<Plain, StartRefused>
        requires { IsPlain procedure }
        ensures started { IfOk result (λ search. IsStarted procedure ask.now search) }
        ensures refused { IfErr result (IsNotStarted procedure ask.now) }
    {
        if !applies(procedure, ask) {
            return Err(StartRefused::DoesNotApply);
        }
        let objects = Objects::start(alloc, procedure, ask)?;
        Ok(Plain { objects })
    }

    /// The procedure.
    pub fn procedure(&self) -> Procedure
        ensures { result ≡ self.now.procedure }
    {
        self.objects.procedure()
    }

    /// The number of the last object tested, which is how many units are spent.
    pub fn cursor(&self) -> u64
        ensures value { result ≡ self.now.cursor }
        ensures most { result ≤ 2 ^ 62 }
        ensures searched { IsSearched self.now }
    {
        self.objects.cursor()
    }
}

impl Searcher<Claim> for Plain {
    ghost searching = { searching };

    fn key(&self) -> &Ask {
        self.objects.ask()
    }

    fn group(&self) -> &Presentation {
        self.objects.ask().group()
    }

    fn wants(&self, _units: u64) -> u32 {
        0
    }

    /// One turn, which doesn't look at its Stop. Memory can be wanting only where a number up to the last one that
    /// the units reach is accepted.
    #[tactic(auto, using(crate::proofs::Testing::objects_plain, crate::proofs::Testing::turn_more, crate::proofs::Testing::turn_found, crate::proofs::Testing::some_accepted))]
    fn turn<T: Stop<Claim>>(
        &mut self,
        alloc: Global,
        units: u64,
        facts: Facts<Claim>,
        _stop: &mut T,
    ) -> Result<Outcome<Claim>, NoMemory>
        requires is_open { self.old.is_open ≡ true }
        requires some_units { 1 ≤ units }
        requires in_all { self.old.cursor + units ≤ 2 ^ 62 }
        requires few { length facts.records ≤ 0 }
        requires of_group { AllByRecursion (λ fact. group_of fact ≡
            Some self.old.ask.group) facts.records }
        ensures turns { IfOk result (λ outcome. PlainTurn self.old units outcome self.new) }
        ensures key { OnOk result (self.new.ask ≡ self.old.ask) }
        ensures group { OnOk result (self.new.ask.group ≡ self.old.ask.group) }
        ensures stopped { IfOk result (λ outcome. StopsBy outcome.end (T.known _stop.new)) }
        ensures memory { OnErr result (SomeAccepted self.old.procedure self.old.ask
            self.old.cursor (self.old.cursor + units)) }
    {
        drop(facts);
        let Advance::Found { spent } = self.objects.advance(units) else {
            return Ok(Outcome {
                spent: units,
                end: TurnEnd::More,
            });
        };
        let records = self.objects.records(alloc)?;
        Ok(Outcome {
            spent,
            end: TurnEnd::Found(records),
        })
    }

    ghost sound = { plain_sound };
}
