//! Searches that read models.
ghost use Rattle.std.specs.Prelude.{◌≡◌, ◌+◌, ◌^◌, ◌≤◌, min, true, Some, IfOk, OnOk, length};
ghost use Rattle.std.specs.List.{AllByRecursion};
ghost use Rattle.mg_turn.specs.Stops.{StopsBy};
ghost use Rattle.mg_certs.specs.Validity.{group_of};
ghost use Rattle.mg_recall.specs.Recall.{IsStarted, RecallTurn, searching};
ghost use Rattle.mg_recall.specs.Sounds.{recall_sound};

use crate::reading::{Found, read};
use mg_certs::Claim;
use mg_core::{Facts, NoMemory};
use mg_present::{Ask, Presentation};
use mg_turn::{Outcome, Searcher, Stop, TurnEnd};
use std::alloc::Global;
use std::marker::Model;

/// The most models that a turn is handed.
pub const MOST_MODELS: u64 = 64;

/// A search that reads the models which others have published for the group of its Ask, one for each unit, and
/// answers NO by the first that refutes a goal.
#[derive(Debug, Drop)]
pub struct Recall {
    ask: Ask,
    read: u64,
    is_open: bool,
}

impl Model for Recall {
    ghost use Rattle.mg_recall.specs.Recall.{Recall};

    ghost Value = { Recall };

    ghost view = { λ search. record { ask = search.ask; read = search.read; is_open = search.is_open } };
}

impl Recall {
    /// A search that has read nothing yet.
    pub fn start(alloc: Global, ask: &Ask) -> Result<Recall, NoMemory>
        ensures { IfOk result (IsStarted ask.now) }
    {
        Ok(Recall {
            ask: ask.copy(alloc)?,
            read: 0,
            is_open: true,
        })
    }

    /// How many models it has read, which is how many units are spent.
    pub fn models_read(&self) -> u64
        ensures { result ≡ self.now.read }
    {
        self.read
    }
}

impl Searcher<Claim> for Recall {
    ghost searching = { searching };

    fn key(&self) -> &Ask {
        &self.ask
    }

    fn group(&self) -> &Presentation {
        self.ask.group()
    }

    fn wants(&self, units: u64) -> u32 {
        units.min(MOST_MODELS) as u32
    }

    /// One turn, which doesn't look at its Stop.
    fn turn<T: Stop<Claim>>(
        &mut self,
        alloc: Global,
        units: u64,
        facts: Facts<Claim>,
        _stop: &mut T,
    ) -> Result<Outcome<Claim>, NoMemory>
        requires is_open { self.old.is_open ≡ true }
        requires some_units { 1 ≤ units }
        requires in_all { self.old.read + units ≤ 2 ^ 62 }
        requires few { length facts.records ≤ min units MOST_MODELS }
        requires of_group { AllByRecursion (λ fact. group_of fact ≡
            Some self.old.ask.group) facts.records }
        ensures turns { IfOk result (λ outcome. RecallTurn self.old facts outcome self.new) }
        ensures key { OnOk result (self.new.ask ≡ self.old.ask) }
        ensures group { OnOk result (self.new.ask.group ≡ self.old.ask.group) }
        ensures stopped { IfOk result (λ outcome. StopsBy outcome.end (T.known _stop.new)) }
    {
        let models = facts.records.as_slice();
        if models.is_empty() {
            return Ok(Outcome {
                spent: 0,
                end: TurnEnd::Idle,
            });
        }
        let count = models.len() as u64;
        let (spent, end) = match read(alloc, &self.ask, models)? {
            Some(Found { spent, records }) => (spent, TurnEnd::Found(records)),
            None => (count, TurnEnd::More),
        };
        self.read += spent;
        self.is_open = matches!(end, TurnEnd::More);
        Ok(Outcome { spent, end })
    }

    ghost sound = { recall_sound };
}
