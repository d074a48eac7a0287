//! What a search is.
ghost use Rattle.std.specs.Prelude.{◌≡◌, ◌+◌, ◌≤◌, ◌^◌, true, Some, IfOk, OnOk, length};
ghost use Rattle.std.specs.List.{AllByRecursion};
ghost use Rattle.mg_turn.specs.Stops.{StopsBy};
ghost use Rattle.mg_turn.specs.Turn.{Searching, Sound};

use crate::outcome::Outcome;
use crate::stop::Stop;
use mg_core::{Facts, NoMemory, Record};
use std::alloc::Global;

/// A search for a record that settles a key, which goes on turn by turn.
pub trait Searcher<R: Record> {
    /// What the searches mean.
    ghost searching: { Searching R R.Key R.Group Self };

    /// The key that the search would settle.
    fn key(&self) -> &R::Key
        ensures { result.now ≡ searching.key self.now };

    /// The group whose models it reads.
    fn group(&self) -> &R::Group
        ensures { result.now ≡ searching.group self.now };

    /// How many models it wants for a turn of this many units.
    fn wants(&self, units: u64) -> u32
        ensures { result ≡ searching.wants self.now units };

    /// One turn of at most this many units, with models that it wants. Where there is no memory nothing is said
    /// of the search, and it is not called again.
    fn turn<T: Stop<R>>(
        &mut self,
        alloc: Global,
        units: u64,
        facts: Facts<R>,
        stop: &mut T,
    ) -> Result<Outcome<R>, NoMemory>
        requires is_open { searching.is_open self.old ≡ true }
        requires some_units { 1 ≤ units }
        requires in_all { searching.spent self.old + units ≤ 2 ^ 62 }
        requires few { length facts.records ≤ searching.wants self.old units }
        requires of_group { AllByRecursion
            (λ r. R.recording.model_of r ≡ Some (searching.group self.old)) facts.records }
        ensures turns { IfOk result (λ outcome.
            searching.turns self.old units facts outcome self.new) }
        ensures key { OnOk result (searching.key self.new ≡ searching.key self.old) }
        ensures group { OnOk result (searching.group self.new ≡ searching.group self.old) }
        ensures stopped { IfOk result (λ outcome. StopsBy outcome.end (T.known stop.new)) };

    /// Every turn is sound.
    ghost sound: { Sound R.recording searching };
}
