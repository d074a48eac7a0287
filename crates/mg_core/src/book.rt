//! The book that keeps a log.
ghost use Rattle.std.specs.Prelude.{◌≡◌, ℕ, ◌+◌, ◌≤◌, ◌<◌, false, List, [], ◌∷◌, ◌++◌, length, IfSome, IfNone, IfOk, OnOk, OnErr};
ghost use Rattle.std.specs.List.{AllByRecursion};
ghost use Rattle.mg_core.specs.Log.{facts_of, IsFact, VerdictIn, Settled, Handed};
ghost use Rattle.mg_core.specs.Book.{Commits};
ghost use Rattle.mg_core.specs.declared.entries.Entry.{Entry as EntryOf};
ghost use Rattle.mg_core.specs.declared.entries.Committed.TheVariants.{Kept};
ghost use Rattle.mg_core.specs.Streaks.{IsNumbered, IsLastEmpty, alone, next_of};

use crate::entries::{Committed, Entry, Facts};
use crate::index::{place_among, place_for, put_place};
use crate::record::Record;
use crate::scan::{copy_of_facts, count_of, models_above, put_records};
use crate::streaks::{Common, Entries, Streak, go_on, put_turn};
use mg_lists::NoMemory;
use std::alloc::{AllocError, Global};
use std::marker::Model;

/// A log, seen as the list of its entries. Its facts are numbered from 1. A turn that finds nothing takes no memory of
/// its own where it stands right behind a turn of its search and has its pass, its units and its fate in common with it.
#[derive(Drop)]
pub struct Book<R: Record> {
    /// The facts, in order.
    facts: Vec<R>,
    /// The turns that found them, in order.
    streaks: Vec<Streak>,
    /// How many entries there are.
    count: u64,
    /// Where among the facts the verdicts stand, in the order of their keys.
    places: Vec<usize>,
}

impl<R: Record> Model for Book<R> {
    ghost use Rattle.std.specs.Prelude.{List};
    ghost use Rattle.mg_core.specs.declared.entries.Entry.{Entry as EntryOf};
    ghost use Rattle.mg_core.specs.Book.{IsBook};
    ghost use Rattle.mg_core.specs.Streaks.{log_of};

    ghost Value = { List (EntryOf R) };

    ghost view = { λ a. log_of a.facts.items a.streaks.items };

    ghost invariant = { λ a. IsBook R.recording.valid R.recording.settles R.Key.cmp
        a.facts.items a.streaks.items a.count a.places.items };
}

impl<R: Record> Book<R> {
    /// The empty log, which takes no memory.
    pub fn new(alloc: Global) -> Book<R>
        ensures { result ≡ [] }
    {
        Book {
            facts: Vec::new(alloc),
            streaks: Vec::new(alloc),
            count: 0,
            places: Vec::new(alloc),
        }
    }

    /// A book with the same log.
    pub fn copy(&self, alloc: Global) -> Result<Book<R>, NoMemory>
        ensures { IfOk result (λ book. book ≡ self.now) }
    {
        let facts = copy_of_facts(alloc, self.facts.as_slice())?;
        let mut streaks = Vec::new(alloc);
        streaks.extend_from_slice(self.streaks.as_slice())?;
        let mut places = Vec::new(alloc);
        places.extend_from_slice(self.places.as_slice())?;
        Ok(Book {
            facts,
            streaks,
            count: self.count,
            places,
        })
    }

    /// Appends what a turn of a search for this key put out: as it is, or dropped and without its records where
    /// the log has a verdict for the key. Where there is no memory the log stays as it was.
    pub fn commit(&mut self, key: &R::Key, entry: Entry<R>) -> Result<Committed, NoMemory>
        requires kept { entry.dropped ≡ false }
        requires few { length entry.records ≤ 2 }
        requires of_key { AllByRecursion (λ r. IfSome (R.recording.settles r)
            (λ k. k ≡ key.now)) entry.records }
        ensures ok { IfOk result (Commits R.recording.settles key.now self.old entry self.new) }
        ensures err { OnErr result (self.new ≡ self.old) }
    {
        match place_for(self.facts.as_slice(), self.places.as_slice(), key) {
            Ok(verdict) => {
                let place = self.put_empty(&entry, true)?;
                Ok(Committed::Dropped {
                    place,
                    by: verdict as u64 + 1,
                })
            }
            Err(_) if entry.records.as_slice().is_empty() => {
                let place = self.put_empty(&entry, false)?;
                Ok(Committed::Kept { place })
            }
            Err(_) => {
                let place = self.put_found(key, entry)?;
                Ok(Committed::Kept { place })
            }
        }
    }

    /// Appends what one turn more of the search of the last entry put out, where it found nothing: the entry next to the
    /// last one, which was kept and found nothing either. It is for this key, which the log has no verdict for. Where
    /// there is no memory the log stays as it was.
    pub fn commit_next(&mut self, _key: &R::Key) -> Result<(), NoMemory>
        requires last { (last : EntryOf R) × IsLastEmpty self.old last }
        requires unsettled { Settled R.recording.settles self.old _key.now → ⊥ }
        ensures ok { OnOk result ((last : EntryOf R) → IsLastEmpty self.old last →
            Commits R.recording.settles _key.now self.old (next_of last) self.new
            (Kept (length self.new))) }
        ensures err { OnErr result (self.new ≡ self.old) }
    {
        let Some(count) = self.count.checked_add(1) else {
            return Err(AllocError);
        };
        go_on(&mut self.streaks)?;
        self.count = count;
        Ok(())
    }

    /// The first fact that settles the key, with its number; None exactly where there is none.
    pub fn verdict(&self, key: &R::Key) -> Option<(u64, &R)>
        ensures none { IfNone result (Settled R.recording.settles self.now key.now → ⊥) }
        ensures some { IfSome result (λ v.
            VerdictIn R.recording.settles self.now key.now v.0 v.1.now) }
    {
        match place_for(self.facts.as_slice(), self.places.as_slice(), key) {
            Ok(place) => Some((place as u64 + 1, &self.facts[place])),
            Err(_) => None,
        }
    }

    /// The fact with this number, from 1; None exactly where there are fewer.
    pub fn fact(&self, n: u64) -> Option<&R>
        requires { 1 ≤ n }
        ensures none { IfNone result (length (facts_of self.now) < n) }
        ensures some { IfSome result (λ r. IsFact self.now n r.now) }
    {
        self.records().get(n as usize - 1)
    }

    /// How many entries there are.
    pub fn count(&self) -> u64
        ensures { result ≡ length self.now }
    {
        self.count
    }

    /// How many facts there are. Each of them is valid.
    pub fn facts(&self) -> u64
        ensures count { result ≡ length (facts_of self.now) }
        ensures valid { AllByRecursion R.recording.valid (facts_of self.now) }
    {
        self.records().len() as u64
    }

    /// The facts, in the order of their numbers. Each of them is valid.
    pub fn records(&self) -> &[R]
        ensures facts { result.now ≡ facts_of self.now }
        ensures valid { AllByRecursion R.recording.valid result.now }
    {
        self.facts.as_slice()
    }

    /// The entries in the order of the log.
    pub fn entries(&self) -> Entries<'_, R>
        ensures { result ≡ self.now }
    {
        Entries::of(self.facts.as_slice(), self.streaks.as_slice())
    }

    /// Copies of the first `most` models of the group with a fact number above `after`.
    pub fn models(
        &self,
        alloc: Global,
        group: &R::Group,
        after: u64,
        most: u32,
    ) -> Result<Facts<R>, NoMemory>
        ensures { IfOk result (Handed R.recording.model_of self.now group.now after most) }
    {
        models_above(alloc, self.records(), group, after, most)
    }

    /// Appends an entry without its records, dropped or kept, and answers its place from 1.
    fn put_empty(&mut self, entry: &Entry<R>, dropped: bool) -> Result<u64, NoMemory>
        ensures ok { OnOk result (self.new ≡ self.old ++
            record (entry.now) { dropped = dropped; records = [] } ∷ []) }
        ensures place { IfOk result (λ place. place ≡ length self.new) }
        ensures err { OnErr result (self.new ≡ self.old) }
    {
        let Some(place) = self.count.checked_add(1) else {
            return Err(AllocError);
        };
        put_turn(&mut self.streaks, turn_of(entry, dropped, 0))?;
        self.count = place;
        Ok(place)
    }

    /// Appends an entry with its records for this key, which isn't settled, and answers its place from 1.
    #[cold]
    #[inline(never)]
    fn put_found(&mut self, key: &R::Key, entry: Entry<R>) -> Result<u64, NoMemory>
        requires kept { entry.dropped ≡ false }
        requires few { length entry.records ≤ 2 }
        requires of_key { AllByRecursion (λ r. IfSome (R.recording.settles r)
            (λ k. k ≡ key.now)) entry.records }
        requires unsettled { Settled R.recording.settles self.old key.now → ⊥ }
        ensures ok { OnOk result (self.new ≡ self.old ++ entry ∷ []) }
        ensures place { IfOk result (λ place. place ≡ length self.new) }
        ensures err { OnErr result (self.new ≡ self.old) }
    {
        let Some(place) = self.count.checked_add(1) else {
            return Err(AllocError);
        };
        let Err(at) = place_for(self.facts.as_slice(), self.places.as_slice(), key) else {
            unreachable!();
        };
        let records = entry.records.as_slice();
        let count = count_of(records);
        let verdict = place_among(records, key, self.facts.len());
        self.facts.reserve(count)?;
        self.places.reserve(1)?;
        put_turn(&mut self.streaks, turn_of(&entry, false, count))?;
        put_records(&mut self.facts, entry.records);
        put_place(&mut self.places, at, verdict);
        self.count = place;
        Ok(place)
    }
}

/// The turn of an entry as a streak of its own, dropped or kept, which found so many records.
fn turn_of<R>(entry: &Entry<R>, dropped: bool, records: usize) -> Streak
    ensures alone { result ≡ alone entry.now dropped records }
    ensures numbered { IsNumbered result }
{
    let common = Common {
        pass: entry.pass,
        search: entry.search,
        units: entry.units,
        dropped,
    };
    Streak::of_one(common, entry.turn, records)
}
