//! A stop and a search.
ghost use Rattle.std.specs.Prelude.{◌≡◌, ◌+◌, ◌≤◌, ◌^◌, Some, true, refl, IfOk, OnOk, length};
ghost use Rattle.std.specs.List.{AllByRecursion};
ghost use Rattle.mg_turn.specs.Stops.{StopsBy};
ghost use Rattle.mg_double.specs.Doubles.{finders, marks, third_of};
ghost use Rattle.mg_double.specs.Sounds.{sound_as, third_is_sound};
ghost use Rattle.mg_double.specs.Third.{third};

use crate::mark::Mark;
use mg_core::{Facts, NoMemory, Records};
use mg_turn::{Outcome, Searcher, Stop, TurnEnd, known_verdict};
use std::alloc::Global;

/// Knows one mark, or none.
#[derive(Drop)]
pub struct Knows {
    /// What it knows.
    pub mark: Option<Mark>,
}

impl Stop<Mark> for Knows {
    ghost known = { λ s. s.mark };

    fn look(&mut self) -> Option<&Mark> {
        self.mark.as_ref()
    }
}

/// Finds at its third unit.
#[derive(Drop)]
pub struct Finder {
    /// The number that it would settle.
    pub key: u32,
    /// The number of its group.
    pub group: u32,
    /// The units that it has spent; from 3 on it is over.
    pub spent: u64,
}

impl Searcher<Mark> for Finder {
    ghost searching = { finders };

    fn key(&self) -> &u32 {
        &self.key
    }

    fn group(&self) -> &u32 {
        &self.group
    }

    fn wants(&self, _units: u64) -> u32 {
        0
    }

    fn turn<T: Stop<Mark>>(
        &mut self,
        alloc: Global,
        units: u64,
        facts: Facts<Mark>,
        stop: &mut T,
    ) -> Result<Outcome<Mark>, NoMemory>
        requires is_open { finders.is_open self.old ≡ true }
        requires some_units { 1 ≤ units }
        requires in_all { finders.spent self.old + units ≤ 2 ^ 62 }
        requires few { length facts.records ≤ finders.wants self.old units }
        requires of_group { AllByRecursion
            (λ r. marks.model_of r ≡ Some (finders.group self.old)) facts.records }
        ensures turns { IfOk result (λ outcome.
            finders.turns self.old units facts outcome self.new) }
        ensures key { OnOk result (finders.key self.new ≡ finders.key self.old) }
        ensures group { OnOk result (finders.group self.new ≡ finders.group self.old) }
        ensures stopped { IfOk result (λ outcome. StopsBy outcome.end (T.known stop.new)) }
    {
        drop(facts);
        if let Some(seen) = known_verdict(alloc, &self.key, stop)? {
            return Ok(Outcome {
                spent: 0,
                end: TurnEnd::Stopped(seen),
            });
        }
        if self.spent + units < 3 {
            self.spent += units;
            return Ok(Outcome {
                spent: units,
                end: TurnEnd::More,
            });
        }
        let mut records = Records::new(alloc);
        records.push(Mark {
            settling: true,
            number: self.key,
        })?;
        let spent = 3 - self.spent;
        self.spent = 3;
        Ok(Outcome {
            spent,
            end: TurnEnd::Found(records),
        })
    }

    ghost sound = { sound_as _ (third _ _) third_of (third_is_sound _ _ (λ key. (tt, refl))) };
}
