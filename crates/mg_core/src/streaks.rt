//! The turns of a log. Those of one search that stand right behind one another and have the same in common are kept as
//! one streak.
ghost use Rattle.std.specs.Prelude.{◌≡◌, ◌↔◌, List, ◌∷◌, [], ◌++◌, IsTrue, IfNone, IfSome, OnOk, OnErr};
ghost use Rattle.std.specs.List.{AllByRecursion};
ghost use Rattle.mg_core.specs.declared.streaks.Streak.{Streak as StreakOf};
ghost use Rattle.mg_core.specs.Streaks.{GoesLonger, GoesOn, IsNumbered, Joins, Found, turn_of, log_of, entry_seen};

use crate::entries::EntryView;
use mg_lists::NoMemory;
use std::alloc::AllocError;
use std::marker::Model;

/// What the turns of a streak have in common.
#[derive(Clone, Copy, Debug, PartialEq, Eq)]
pub(crate) struct Common {
    /// The number of the pass under which they were committed.
    pub(crate) pass: u32,
    /// The number of the search.
    pub(crate) search: u32,
    /// The units that each of them spent.
    pub(crate) units: u64,
    /// Whether the key of the search was settled before.
    pub(crate) dropped: bool,
}

/// Turns of one search that stand right behind one another. What they found, if anything, the first of them found.
#[derive(Clone, Copy, Debug)]
pub(crate) struct Streak {
    /// What they have in common.
    pub(crate) common: Common,
    /// The number of the first among the turns of its search, from 0.
    pub(crate) turn: u64,
    /// How many records the first found.
    pub(crate) records: usize,
    /// How many turns follow the first.
    pub(crate) more: u64,
}

/// No turn.
const NOTHING: Streak = Streak {
    common: Common {
        pass: 0,
        search: 0,
        units: 0,
        dropped: false,
    },
    turn: 0,
    records: 0,
    more: 0,
};

impl Streak {
    /// One turn, which found so many records.
    pub(crate) fn of_one(common: Common, turn: u64, records: usize) -> Streak
        ensures streak { result ≡
            record { common = common; turn = turn; records = records; more = 0 } }
        ensures numbered { IsNumbered result }
    {
        Streak {
            common,
            turn,
            records,
            more: 0,
        }
    }

    /// Whether this one turn comes right behind the last of the streak, is like it and found nothing.
    fn goes_on_at(&self, turn: &Streak) -> bool
        requires { IsNumbered self.now }
        ensures { IsTrue result ↔ GoesOn self.now turn.now }
    {
        turn.records == 0
            && turn.common == self.common
            && (self.turn + self.more).checked_add(1) == Some(turn.turn)
    }

    /// The entry of the first turn, which found these records.
    fn entry<'a, R>(&self, records: &'a [R]) -> EntryView<'a, R>
        ensures { entry_seen result ≡ turn_of self.now.common self.now.turn records.now }
    {
        EntryView {
            pass: self.common.pass,
            search: self.common.search,
            turn: self.turn,
            units: self.common.units,
            dropped: self.common.dropped,
            records,
        }
    }
}

/// Puts one turn behind these streaks: the last of them goes on, or there is one more.
pub(crate) fn put_turn(streaks: &mut Vec<Streak>, turn: Streak) -> Result<(), NoMemory>
    requires { AllByRecursion IsNumbered streaks.old.items }
    ensures ok { OnOk result (Joins streaks.old.items turn streaks.new.items) }
    ensures err { OnErr result (streaks.new.items ≡ streaks.old.items) }
{
    let count = streaks.len();
    if count > 0 && streaks[count - 1].goes_on_at(&turn) {
        streaks[count - 1].more += 1;
        return Ok(());
    }
    streaks.push(turn)?;
    Ok(())
}

/// One turn more of the last of these streaks, which finds nothing.
pub(crate) fn go_on(streaks: &mut Vec<Streak>) -> Result<(), NoMemory>
    requires some { (before : List StreakOf) × (last : StreakOf) ×
        (streaks.old.items ≡ before ++ last ∷ []) }
    requires numbered { AllByRecursion IsNumbered streaks.old.items }
    ensures ok { OnOk result (GoesLonger streaks.old.items streaks.new.items) }
    ensures err { OnErr result (streaks.new.items ≡ streaks.old.items) }
{
    let at = streaks.len() - 1;
    let last = streaks[at];
    if last.turn + last.more == u64::MAX {
        return Err(AllocError);
    }
    streaks[at].more = last.more + 1;
    Ok(())
}

/// The entries of a log that are still to come, seen as their list.
#[derive(Drop)]
pub struct Entries<'a, R> {
    /// The turn that came last. The others of its streak follow it.
    last: Streak,
    /// The streaks behind it.
    streaks: &'a [Streak],
    /// The facts that those found.
    facts: &'a [R],
}

impl<'a, R> Model for Entries<'a, R> {
    ghost use Rattle.std.specs.Prelude.{List, ◌+◌, ◌++◌};
    ghost use Rattle.std.specs.List.{AllByRecursion};
    ghost use Rattle.mg_core.specs.declared.entries.Entry.{Entry as EntryOf};
    ghost use Rattle.mg_core.specs.Streaks.{Found, IsNumbered, turns_from, log_of};

    ghost Value = { List (EntryOf R) };

    ghost view = { λ a. turns_from a.last.common (a.last.turn + 1) a.last.more ++
        log_of a.facts.now a.streaks.now };

    ghost invariant = { λ a. IsNumbered a.last × Found a.facts.now a.streaks.now ×
        AllByRecursion IsNumbered a.streaks.now };
}

impl<'a, R> Entries<'a, R> {
    /// The entries of these streaks, which found these facts.
    pub(crate) fn of(facts: &'a [R], streaks: &'a [Streak]) -> Entries<'a, R>
        requires found { Found facts.now streaks.now }
        requires numbered { AllByRecursion IsNumbered streaks.now }
        ensures { result ≡ log_of facts.now streaks.now }
    {
        Entries {
            last: NOTHING,
            streaks,
            facts,
        }
    }

    /// The next entry; None exactly where there is none.
    pub fn next(&mut self) -> Option<EntryView<'a, R>>
        ensures none { IfNone result ((self.old ≡ []) × (self.new ≡ [])) }
        ensures some { IfSome result (λ entry. self.old ≡ entry_seen entry ∷ self.new) }
    {
        if self.last.more > 0 {
            self.last.turn += 1;
            self.last.more -= 1;
            return Some(self.last.entry(&[]));
        }
        let [streak, streaks @ ..] = self.streaks else {
            return None;
        };
        let (records, facts) = self.facts.split_at(streak.records);
        self.last = *streak;
        self.streaks = streaks;
        self.facts = facts;
        Some(streak.entry(records))
    }
}
