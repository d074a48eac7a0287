//! One turn of one search, and the entry that it puts into a book.
ghost use Rattle.std.specs.Prelude.{◌≡◌, ℕ, ◌+◌, ◌-◌, ◌≤◌, ◌<◌, ◌^◌, ◌↔◌, Bool, true, false, List, [], ◌∷◌, ◌++◌, length, if◌then◌else◌, Some, IsSome, IfSome, IfOk, OnOk, OnErr, IsTrue, option_copied};
ghost use Rattle.std.specs.List.{AllByRecursion};
ghost use Rattle.mg_core.specs.declared.entries.Entry.{Entry as EntryOf};
ghost use Rattle.mg_core.specs.Book.{bare};
ghost use Rattle.mg_core.specs.Log.{Settled, Handed};
ghost use Rattle.mg_turn.specs.Turn.{IsSound, is_stopped, records_of};
ghost use Rattle.mg_workers.specs.Round.{ComesTo, IsFit};
ghost use Rattle.mg_workers.specs.Run.{Begins, Event, Runs, end_after};
ghost use Rattle.mg_workers.specs.Seats.{row_at, seated, whole, Follows, PutsDown};

use crate::held::{End, Held};
use crate::seat::{Seat, Turned};
use mg_core::{Book, Committed, Entry, Facts, NoMemory, Record, Records};
use mg_policy::Sizes;
use mg_turn::{Outcome, Searcher, Stop, TurnEnd};
use std::alloc::Global;

/// The number of the one pass.
const PASS: u32 = 1;

/// Tells a search of the verdict that stood in the book before its turn.
#[derive(Drop)]
struct Told<'a, R> {
    verdict: Option<&'a R>,
}

impl<'a, R: Record> Stop<R> for Told<'a, R> {
    ghost use Rattle.std.specs.Prelude.{option_copied};

    ghost known = { λ s. option_copied s.verdict };

    fn look(&mut self) -> Option<&R> {
        self.verdict
    }
}

/// Tells a search nothing.
#[derive(Drop)]
struct Silent {}

impl<R: Record> Stop<R> for Silent {
    ghost use Rattle.std.specs.Prelude.{None};

    ghost known = { λ _. None };

    fn look(&mut self) -> Option<&R> {
        None
    }
}

/// The record that settles the key in the book; None exactly where there is none.
fn verdict<'a, R: Record>(book: &'a Book<R>, key: &R::Key) -> Option<&'a R>
    ensures { IsSome (option_copied result) ↔ Settled R.recording.settles book.now key.now }
{
    match book.verdict(key) {
        Some((_, record)) => Some(record),
        None => None,
    }
}

/// A turn of a search that is told nothing, and so isn't stopped.
#[cold]
#[inline(never)]
fn turn_untold<R: Record, S: Searcher<R>>(
    alloc: Global,
    search: &mut S,
    units: u64,
    facts: Facts<R>,
) -> Result<Outcome<R>, NoMemory>
    requires is_open { S.searching.is_open search.old ≡ true }
    requires some_units { 1 ≤ units }
    requires in_all { S.searching.spent search.old + units ≤ 2 ^ 62 }
    requires few { length facts.records ≤ S.searching.wants search.old units }
    requires of_group { AllByRecursion
        (λ r. R.recording.model_of r ≡ Some (S.searching.group search.old)) facts.records }
    ensures turns { IfOk result (λ outcome.
        S.searching.turns search.old units facts outcome search.new) }
    ensures sound { IfOk result (λ outcome.
        IsSound R.recording S.searching search.old units facts outcome search.new) }
    ensures unstopped { IfOk result (λ outcome. is_stopped outcome.end ≡ false) }
{
    search.turn(alloc, units, facts, &mut Silent {})
}

/// The first `most` models of the group in the book with a fact number above `after`. Where none is wanted the book isn't
/// asked.
#[inline(always)]
fn wanted<R: Record>(
    alloc: Global,
    book: &Book<R>,
    group: &R::Group,
    after: u64,
    most: u32,
) -> Result<Facts<R>, NoMemory>
    ensures { IfOk result (Handed R.recording.model_of book.now group.now after most) }
{
    if most == 0 {
        return Ok(Facts {
            from: after,
            upto: after,
            records: Records::new(alloc),
        });
    }
    book.models(alloc, group, after, most)
}

/// A turn of a search that is told of the book's verdict for its key.
#[inline(always)]
fn turn_told<R: Record, S: Searcher<R>>(
    alloc: Global,
    book: &Book<R>,
    search: &mut S,
    units: u64,
    facts: Facts<R>,
) -> Result<Outcome<R>, NoMemory>
    requires is_open { S.searching.is_open search.old ≡ true }
    requires some_units { 1 ≤ units }
    requires in_all { S.searching.spent search.old + units ≤ 2 ^ 62 }
    requires few { length facts.records ≤ S.searching.wants search.old units }
    requires of_group { AllByRecursion
        (λ r. R.recording.model_of r ≡ Some (S.searching.group search.old)) facts.records }
    ensures turns { IfOk result (λ outcome.
        S.searching.turns search.old units facts outcome search.new) }
    ensures sound { IfOk result (λ outcome.
        IsSound R.recording S.searching search.old units facts outcome search.new) }
{
    let mut told = Told {
        verdict: verdict(book, search.key()),
    };
    search.turn(alloc, units, facts, &mut told)
}

/// A turn of a search, which is told of the book's verdict for its key unless it has looked.
fn turn<R: Record, S: Searcher<R>>(
    alloc: Global,
    book: &Book<R>,
    search: &mut S,
    looked: bool,
    units: u64,
    facts: Facts<R>,
) -> Result<Outcome<R>, NoMemory>
    requires is_open { S.searching.is_open search.old ≡ true }
    requires some_units { 1 ≤ units }
    requires in_all { S.searching.spent search.old + units ≤ 2 ^ 62 }
    requires few { length facts.records ≤ S.searching.wants search.old units }
    requires of_group { AllByRecursion
        (λ r. R.recording.model_of r ≡ Some (S.searching.group search.old)) facts.records }
    ensures turns { IfOk result (λ outcome.
        S.searching.turns search.old units facts outcome search.new) }
    ensures sound { IfOk result (λ outcome.
        IsSound R.recording S.searching search.old units facts outcome search.new) }
    ensures once { IfOk result (λ outcome. is_stopped outcome.end ≡ true → looked ≡ false) }
{
    if looked {
        turn_untold(alloc, search, units, facts)
    } else {
        turn_told(alloc, book, search, units, facts)
    }
}

/// Whether a turn with this end was stopped.
fn was_stopped<R>(end: &TurnEnd<R>) -> bool
    ensures { result ≡ is_stopped end.now }
{
    match end {
        TurnEnd::Stopped(_) => true,
        _ => false,
    }
}

/// How a search stands after a turn with this end, whose entry was kept.
fn end_if_kept<R>(end: &TurnEnd<R>) -> End
    ensures { result ≡ end_after false end.now }
{
    match end {
        TurnEnd::More | TurnEnd::Stopped(_) => End::More,
        TurnEnd::Found(_) => End::Found,
        TurnEnd::Closed(_) => End::Closed,
        TurnEnd::Idle => End::Idle,
        TurnEnd::Full { what, count } => End::Full {
            what: *what,
            count: *count,
        },
    }
}

/// The records that a turn with this end brings.
fn records_in<R: Drop>(alloc: Global, end: TurnEnd<R>) -> Records<R>
    ensures { result ≡ records_of end }
{
    match end {
        TurnEnd::Found(records) => records,
        TurnEnd::Closed(records) => records,
        _ => Records::new(alloc),
    }
}

/// Commits the entry of a turn for the key, and tells whether it was dropped.
fn commit<R: Record>(book: &mut Book<R>, key: &R::Key, entry: Entry<R>) -> Result<bool, NoMemory>
    requires kept { entry.dropped ≡ false }
    requires few { length entry.records ≤ 2 }
    requires of_key { AllByRecursion (λ r. IfSome (R.recording.settles r)
        (λ k. k ≡ key.now)) entry.records }
    ensures dropped { IfOk result (λ dropped.
        (dropped ≡ true) ↔ Settled R.recording.settles book.old key.now) }
    ensures log { IfOk result (λ dropped.
        book.new ≡ book.old ++ (if dropped then bare entry else entry) ∷ []) }
    ensures memory { OnErr result (book.new ≡ book.old) }
{
    match book.commit(key, entry)? {
        Committed::Kept { .. } => Ok(false),
        Committed::Dropped { .. } => Ok(true),
    }
}

/// Whether a turn spent so many units and found nothing, so that its search goes on.
fn is_whole<R>(outcome: &Outcome<R>, units: u64) -> bool
    ensures { IsTrue result ↔ (outcome.now ≡ whole units) }
{
    outcome.spent == units && matches!(outcome.end, TurnEnd::More)
}

/// The units of a turn where turns like it may follow. Of the turn it is told how many units it spent, whether it found
/// nothing and whether it was dropped; of its search whether that has looked, and how many turns it had made before.
fn may_follow(spent: u64, is_whole: bool, dropped: bool, looked: bool, turns: u64) -> Option<u64>
    ensures { (units : ℕ) → (result ≡ Some units) ↔ ((units ≡ spent) × (is_whole ≡ true)
        × (dropped ≡ false) × (looked ≡ false) × (turns < 2 ^ 64 - 1)) }
{
    if is_whole && !dropped && !looked && turns < u64::MAX {
        Some(spent)
    } else {
        None
    }
}

/// Commits the entry of a turn with this outcome, which was handed the models up to this fact, counts the turn, and
/// tells whether it was dropped.
fn put_down<R: Record, S: Searcher<R>>(
    alloc: Global,
    book: &mut Book<R>,
    seat: &mut Seat<S>,
    upto: u64,
    outcome: Outcome<R>,
) -> Result<bool, NoMemory>
    requires allowed { outcome.spent ≤ seat.old.held.allowed }
    requires within { seat.old.held.allowed ≤ seat.old.held.held }
    requires in_all { seat.old.held.spent + seat.old.held.held ≤ 2 ^ 62 }
    requires few { length (records_of outcome.end) ≤ 2 }
    requires of_key { AllByRecursion (λ r. IfSome (R.recording.settles r)
        (λ k. k ≡ S.searching.key seat.old.held.search)) (records_of outcome.end) }
    ensures ok { IfOk result (λ dropped.
        PutsDown R.recording.settles (S.searching.key seat.old.held.search)
        book.old seat.old upto outcome dropped book.new seat.new) }
    ensures memory { OnErr result (book.new ≡ book.old) }
{
    let turned = Turned {
        spent: outcome.spent,
        upto,
        stopped: was_stopped(&outcome.end),
        kept: end_if_kept(&outcome.end),
    };
    let entry = Entry {
        pass: PASS,
        search: seat.held.number,
        turn: seat.held.turns,
        units: outcome.spent,
        dropped: false,
        records: records_in(alloc, outcome.end),
    };
    let dropped = commit(book, seat.held.search.key(), entry)?;
    seat.count_turn(turned, dropped);
    Ok(dropped)
}

/// One turn of a search that goes on, of the policy's size, whose entry is committed directly after it. Answers the
/// units of the turn exactly where whole turns of them may follow: it found nothing, and its search goes on. Where there
/// is no memory the book stays as it was.
pub(crate) fn take_turn<R: Record, S: Searcher<R>, P: Sizes>(
    alloc: Global,
    book: &mut Book<R>,
    policy: &P,
    seat: &mut Seat<S>,
) -> Result<Option<u64>, NoMemory>
    requires policy { P.fit policy.now }
    requires fit { IsFit S.searching (row_at seat.old) }
    requires stays { seat.old.left ≡ false }
    requires allowed { 1 ≤ seat.old.held.allowed }
    ensures event { OnOk result ((begin : List (EntryOf R)) → Begins begin book.old →
        Event R.recording S.searching 1 (P.is_size policy.now) begin
        (seated (seat.old ∷ []) book.old) (seated (seat.new ∷ []) book.new)) }
    ensures cell { OnOk result (seat.new.held.cell ≡ seat.old.held.cell) }
    ensures alike { IfOk result (λ alike. (units : ℕ) →
        (alike ≡ Some units) ↔ Follows R.recording.settles
        (S.searching.key seat.new.held.search) units book.new seat.new) }
    ensures some { IfOk result (λ alike. IfSome alike (λ units. 1 ≤ units)) }
    ensures memory { OnErr result (book.new ≡ book.old) }
{
    let units = policy.size(seat.held.turns, seat.held.spent, seat.held.allowed);
    let wants = seat.held.search.wants(units);
    let facts = wanted(alloc, book, seat.held.search.group(), seat.held.read, wants)?;
    let upto = facts.upto;
    let outcome = turn(
        alloc,
        book,
        &mut seat.held.search,
        seat.looked,
        units,
        facts,
    )?;
    let spent = outcome.spent;
    let whole = is_whole(&outcome, spent);
    let turns = seat.held.turns;
    let dropped = put_down(alloc, book, seat, upto, outcome)?;
    Ok(may_follow(spent, whole, dropped, seat.looked, turns))
}

/// Whether the policy gives so many units to the next turn of a search, which has made so many turns and spent some of its
/// units since its account was brought up to date.
fn is_next_size<S, P: Sizes>(
    policy: &P,
    search: &Held<S>,
    units: u64,
    used: u64,
    turns: u64,
) -> bool
    requires policy { P.fit policy.now }
    requires some { 1 ≤ units }
    requires used { used ≤ search.now.allowed }
    requires in_all { search.now.spent + search.now.allowed ≤ 2 ^ 62 }
    ensures enough { result ≡ true → used + units ≤ search.now.allowed }
    ensures counted { result ≡ true → turns < 2 ^ 64 - 1 }
    ensures size { result ≡ true → P.is_size policy.now turns
        (search.now.spent + used) (search.now.allowed - used) units }
{
    let left = search.allowed - used;
    if left < units || turns == u64::MAX {
        return false;
    }
    policy.size(turns, search.spent + used, left) == units
}

/// Whole turns of a search of so many units each, one after another, until one isn't whole, or the policy gives other units
/// to the next one. The last turn of the search stands last in the log, spent as many units and found nothing. So the book
/// has no verdict for its key, and the entry of each whole turn, which is committed directly after it, needs no second
/// look. The search's account is brought up to date where it stops; where there is no memory it isn't, and the book has the
/// entries of the turns made so far.
pub(crate) fn take_whole_turns<R: Record, S: Searcher<R>, P: Sizes>(
    alloc: Global,
    book: &mut Book<R>,
    policy: &P,
    seat: &mut Seat<S>,
    units: u64,
) -> Result<(), NoMemory>
    requires policy { P.fit policy.now }
    requires some { 1 ≤ units }
    requires fit { IsFit S.searching (row_at seat.old) }
    requires follows { Follows R.recording.settles
        (S.searching.key seat.old.held.search) units book.old seat.old }
    ensures runs { OnOk result ((begin : List (EntryOf R)) → Begins begin book.old →
        Runs R.recording S.searching 1 (P.is_size policy.now) begin
        (seated (seat.old ∷ []) book.old) (seated (seat.new ∷ []) book.new)) }
    ensures fit { OnOk result (IsFit S.searching (row_at seat.new)) }
    ensures cell { OnOk result (seat.new.held.cell ≡ seat.old.held.cell) }
    ensures memory { OnErr result ((begin : List (EntryOf R)) → Begins begin book.old →
        ComesTo R.recording S.searching (P.is_size policy.now) begin
        (seated (seat.old ∷ []) book.old) book.new) }
{
    let mut read = seat.held.read;
    let mut used = 0;
    let mut turns = seat.held.turns;
    while is_next_size(policy, &seat.held, units, used, turns) {
        let wants = seat.held.search.wants(units);
        let facts = wanted(alloc, book, seat.held.search.group(), read, wants)?;
        let upto = facts.upto;
        let outcome = turn_told(alloc, book, &mut seat.held.search, units, facts)?;
        if !is_whole(&outcome, units) {
            seat.count_whole(used, turns, read);
            put_down(alloc, book, seat, upto, outcome)?;
            return Ok(());
        }
        book.commit_next(seat.held.search.key())?;
        read = upto;
        used += units;
        turns += 1;
    }
    seat.count_whole(used, turns, read);
    Ok(())
}
