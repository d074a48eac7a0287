//! A log over marks.
ghost use Rattle.std.specs.Prelude.{◌≡◌, ◌≤◌, Option, Some, None, true, false, if◌then◌else◌, IfOk, IsTrue, [], ◌∷◌};
ghost use Rattle.std.proofs.Common.{rules};
ghost use Rattle.std.proofs.lemmas.Map.Lookups.{exact_unsigned};
ghost use Rattle.mg_core.specs.declared.entries.Entry.{Entry as EntryOf};
ghost use Rattle.mg_core.specs.declared.tests.Mark.{Mark as MarkOf};
ghost use Rattle.mg_core.specs.Streaks.{IsLastEmpty};

use super::*;
use std::alloc::Global;
use std::test::Fail;

/// A mark settles its number, or is a model of it.
#[derive(Debug, Drop, PartialEq)]
struct Mark {
    settling: bool,
    number: u32,
}

impl Record for Mark {
    type Key = u32;

    type Group = u32;

    ghost recording = { record {
      valid = λ _. Unit {0};
      settles = λ m. (if m.settling then Some m.number else None);
      model_of = λ m. (if m.settling then None else Some m.number);
    } };

    fn settles(&self) -> Option<&u32> {
        if self.settling {
            Some(&self.number)
        } else {
            None
        }
    }

    fn model_of(&self) -> Option<&u32> {
        if self.settling {
            None
        } else {
            Some(&self.number)
        }
    }

    fn copy(&self, _alloc: Global) -> Result<Mark, NoMemory> {
        Ok(Mark {
            settling: self.settling,
            number: self.number,
        })
    }

    ghost lawful = { record {
      exact_keys = exact_unsigned;
      exact_groups = exact_unsigned;
      one_of_both = λ m _. Prim.search rules;
    } };
}

/// The entry of a turn that found nothing.
fn empty(alloc: Global, search: u32, turn: u64, units: u64) -> Entry<Mark>
    ensures kept { result.dropped ≡ false }
    ensures nothing { result.records ≡ [] }
{
    Entry {
        pass: 1,
        search,
        turn,
        units,
        dropped: false,
        records: Records::new(alloc),
    }
}

/// The entry of a turn with one record.
fn entry(alloc: Global, turn: u64, settling: bool, number: u32) -> Result<Entry<Mark>, NoMemory>
    ensures kept { IfOk result (λ e. e.dropped ≡ false) }
    ensures mark { IfOk result (λ e.
        e.records ≡ (record { settling = settling; number = number }) ∷ []) }
{
    let mut entry = empty(alloc, 1, turn, 1);
    entry.records.push(Mark { settling, number })?;
    Ok(entry)
}

/// Commits a turn that found nothing.
fn pass(
    alloc: Global,
    book: &mut Book<Mark>,
    key: u32,
    search: u32,
    turn: u64,
    units: u64,
) -> Result<Committed, NoMemory> {
    book.commit(&key, empty(alloc, search, turn, units))
}

/// Commits a turn that settled the key.
fn settle(
    alloc: Global,
    book: &mut Book<Mark>,
    key: u32,
    turn: u64,
) -> Result<Committed, NoMemory> {
    book.commit(&key, entry(alloc, turn, true, key)?)
}

/// Commits a turn for the key that found a model of a number.
fn model(
    alloc: Global,
    book: &mut Book<Mark>,
    key: u32,
    turn: u64,
    number: u32,
) -> Result<Committed, NoMemory> {
    book.commit(&key, entry(alloc, turn, false, number)?)
}

/// Whether an entry was kept at the place.
fn is_kept(committed: Committed, at: u64) -> bool {
    match committed {
        Committed::Kept { place } => place == at,
        Committed::Dropped { .. } => false,
    }
}

/// Whether 7 is settled once, and then dropped for the first fact.
fn is_settled_once(alloc: Global, book: &mut Book<Mark>) -> Result<bool, NoMemory> {
    let first = settle(alloc, book, 7, 0)?;
    let second = settle(alloc, book, 7, 1)?;
    Ok(is_kept(first, 1) && second == Committed::Dropped { place: 2, by: 1 })
}

/// Whether two models of 9 are kept behind two other entries.
fn keeps_two_models(alloc: Global, book: &mut Book<Mark>) -> Result<bool, NoMemory> {
    let first = model(alloc, book, 8, 0, 9)?;
    let second = model(alloc, book, 8, 1, 9)?;
    Ok(is_kept(first, 3) && is_kept(second, 4))
}

/// Whether this is the number of the key's verdict, a mark that settles the key.
fn is_verdict(book: &Book<Mark>, key: u32, number: u64) -> bool {
    match book.verdict(&key) {
        Some((n, mark)) => n == number && mark.settling && mark.number == key,
        None => false,
    }
}

/// Whether the fact with this number is a model of the group.
fn is_model_at(book: &Book<Mark>, n: u64, group: u32) -> bool
    requires { 1 ≤ n }
{
    match book.fact(n) {
        Some(mark) => !mark.settling && mark.number == group,
        None => false,
    }
}

/// Whether the book has these three facts, and a verdict for 7 alone.
fn has_three_facts(book: &Book<Mark>) -> bool {
    book.facts() == 3
        && book.records().len() == 3
        && is_model_at(book, 3, 9)
        && book.fact(4).is_none()
        && is_verdict(book, 7, 1)
        && book.verdict(&8).is_none()
}

#[test]
fn keeps_and_drops(rt: HostRuntime) -> Result<(), Fail> {
    let mut book: Book<Mark> = Book::new(rt.alloc());
    assert!(rt; is_settled_once(rt.alloc(), &mut book)?);
    assert!(rt; keeps_two_models(rt.alloc(), &mut book)?);
    assert!(rt; has_three_facts(&book));
    Ok(())
}

/// Whether the next entry is this turn, which was kept and found nothing.
fn is_next(entries: &mut Entries<'_, Mark>, search: u32, turn: u64, units: u64) -> bool {
    match entries.next() {
        Some(entry) => {
            (entry.search, entry.turn, entry.units) == (search, turn, units)
                && !entry.dropped
                && entry.records.is_empty()
        }
        None => false,
    }
}

/// Whether the next entry is this turn of search 1, which found one record.
fn is_next_with_one(entries: &mut Entries<'_, Mark>, turn: u64) -> bool {
    match entries.next() {
        Some(entry) => {
            (entry.search, entry.turn, entry.units) == (1, turn, 1)
                && !entry.dropped
                && entry.records.len() == 1
        }
        None => false,
    }
}

/// Whether the last entry is this turn of search 1, which was dropped.
fn is_last_dropped(entries: &mut Entries<'_, Mark>, turn: u64) -> bool {
    match entries.next() {
        Some(entry) => {
            (entry.search, entry.turn, entry.units) == (1, turn, 1)
                && entry.dropped
                && entry.records.is_empty()
                && entries.next().is_none()
        }
        None => false,
    }
}

/// A turn that found a model and three that go on from it.
fn write_a_streak(alloc: Global, book: &mut Book<Mark>) -> Result<(), NoMemory> {
    model(alloc, book, 7, 0, 9)?;
    pass(alloc, book, 7, 1, 1, 1)?;
    pass(alloc, book, 7, 1, 2, 1)?;
    pass(alloc, book, 7, 1, 3, 1)?;
    Ok(())
}

/// Turns of which none goes on from the one before: another search, the first one again, other units, a later turn.
fn write_single_turns(alloc: Global, book: &mut Book<Mark>) -> Result<(), NoMemory> {
    pass(alloc, book, 8, 2, 4, 1)?;
    pass(alloc, book, 7, 1, 4, 1)?;
    pass(alloc, book, 7, 1, 5, 2)?;
    pass(alloc, book, 7, 1, 7, 2)?;
    Ok(())
}

/// A turn that settles the key, and one that is dropped.
fn write_an_end(alloc: Global, book: &mut Book<Mark>) -> Result<(), NoMemory> {
    settle(alloc, book, 7, 8)?;
    pass(alloc, book, 7, 1, 9, 1)?;
    Ok(())
}

fn is_a_streak(entries: &mut Entries<'_, Mark>) -> bool {
    is_next_with_one(entries, 0)
        && is_next(entries, 1, 1, 1)
        && is_next(entries, 1, 2, 1)
        && is_next(entries, 1, 3, 1)
}

fn are_single_turns(entries: &mut Entries<'_, Mark>) -> bool {
    is_next(entries, 2, 4, 1)
        && is_next(entries, 1, 4, 1)
        && is_next(entries, 1, 5, 2)
        && is_next(entries, 1, 7, 2)
}

#[test]
fn lends_the_entries_in_order(rt: HostRuntime) -> Result<(), Fail> {
    let mut book: Book<Mark> = Book::new(rt.alloc());
    write_a_streak(rt.alloc(), &mut book)?;
    write_single_turns(rt.alloc(), &mut book)?;
    write_an_end(rt.alloc(), &mut book)?;
    let mut entries = book.entries();
    assert!(rt; is_a_streak(&mut entries));
    assert!(rt; are_single_turns(&mut entries));
    assert!(rt; is_next_with_one(&mut entries, 8) && is_last_dropped(&mut entries, 9));
    Ok(())
}

/// Appends the next entry, where the key 7 isn't settled.
fn go_on(book: &mut Book<Mark>) -> Result<bool, NoMemory>
    requires { (last : EntryOf MarkOf) × IsLastEmpty book.old last }
    ensures { IfOk result (λ went. IsTrue went →
        (last : EntryOf MarkOf) × IsLastEmpty book.new last) }
{
    if book.verdict(&7).is_some() {
        return Ok(false);
    }
    book.commit_next(&7)?;
    Ok(true)
}

/// Two turns more, behind one that found nothing.
fn two_more(alloc: Global, book: &mut Book<Mark>) -> Result<bool, NoMemory> {
    match book.commit(&7, empty(alloc, 1, 1, 1))? {
        Committed::Kept { .. } => Ok(go_on(book)? && go_on(book)?),
        Committed::Dropped { .. } => Ok(false),
    }
}

/// Whether the last entry is this turn of search 1, which was kept and found nothing.
fn is_last(entries: &mut Entries<'_, Mark>, turn: u64) -> bool {
    is_next(entries, 1, turn, 1) && entries.next().is_none()
}

#[test]
fn appends_next_entries(rt: HostRuntime) -> Result<(), Fail> {
    let mut book: Book<Mark> = Book::new(rt.alloc());
    model(rt.alloc(), &mut book, 7, 0, 9)?;
    assert!(rt; two_more(rt.alloc(), &mut book)?);
    assert!(rt; is_kept(pass(rt.alloc(), &mut book, 7, 1, 4, 1)?, 5));
    let mut entries = book.entries();
    assert!(rt; is_a_streak(&mut entries) && is_last(&mut entries, 4));
    Ok(())
}

/// A copy of a book with models of 9, 5 and 9, and the key 7 settled.
fn of_models(alloc: Global) -> Result<Book<Mark>, NoMemory> {
    let mut book = Book::new(alloc);
    model(alloc, &mut book, 7, 0, 9)?;
    model(alloc, &mut book, 7, 0, 5)?;
    model(alloc, &mut book, 7, 0, 9)?;
    settle(alloc, &mut book, 7, 0)?;
    book.copy(alloc)
}

/// Whether of the models of 9 above a number so many are handed out, up to this number.
fn hands(
    alloc: Global,
    book: &Book<Mark>,
    after: u64,
    most: u32,
    upto: u64,
    count: usize,
) -> Result<bool, NoMemory> {
    let found = book.models(alloc, &9, after, most)?;
    Ok((found.from, found.upto) == (after, upto) && found.records.as_slice().len() == count)
}

#[test]
fn hands_out_models(rt: HostRuntime) -> Result<(), Fail> {
    let book = of_models(rt.alloc())?;
    assert!(rt; hands(rt.alloc(), &book, 0, 64, 4, 2)?);
    assert!(rt; hands(rt.alloc(), &book, 0, 1, 1, 1)?);
    assert!(rt; hands(rt.alloc(), &book, 1, 1, 3, 1)?);
    Ok(())
}

#[test]
fn hands_out_no_models(rt: HostRuntime) -> Result<(), Fail> {
    let book = of_models(rt.alloc())?;
    assert!(rt; hands(rt.alloc(), &book, 1, 0, 1, 0)?);
    assert!(rt; hands(rt.alloc(), &book, 9, 2, 9, 0)?);
    Ok(())
}

/// A copy of a book with two keys, of which the first one is settled again.
fn of_two_keys(alloc: Global, first: u32, second: u32) -> Result<Book<Mark>, NoMemory> {
    let mut book = Book::new(alloc);
    settle(alloc, &mut book, first, 0)?;
    settle(alloc, &mut book, second, 0)?;
    settle(alloc, &mut book, first, 1)?;
    book.copy(alloc)
}

/// Whether each key has its verdict, and 5 has none.
fn has_two_verdicts(book: &Book<Mark>, first: u32, second: u32) -> bool {
    is_verdict(book, first, 1) && is_verdict(book, second, 2) && book.verdict(&5).is_none()
}

#[test]
fn finds_verdicts_in_any_order_of_keys(rt: HostRuntime) -> Result<(), Fail> {
    assert!(rt; has_two_verdicts(&of_two_keys(rt.alloc(), 3, 7)?, 3, 7));
    assert!(rt; has_two_verdicts(&of_two_keys(rt.alloc(), 7, 3)?, 7, 3));
    Ok(())
}

/// A turn that found a model of 9 and then settled 7.
fn find_two(alloc: Global, book: &mut Book<Mark>) -> Result<Committed, NoMemory> {
    let mut entry = entry(alloc, 0, false, 9)?;
    entry.records.push(Mark {
        settling: true,
        number: 7,
    })?;
    book.commit(&7, entry)
}

#[test]
fn finds_the_second_record(rt: HostRuntime) -> Result<(), Fail> {
    let mut book: Book<Mark> = Book::new(rt.alloc());
    find_two(rt.alloc(), &mut book)?;
    assert!(rt; is_verdict(&book, 7, 2));
    Ok(())
}
