//! What a run holds, and one worker over searches that find at their third unit.
ghost use Rattle.std.specs.Prelude.{◌≡◌, ◌≤◌, ◌^◌};
ghost use Rattle.mg_workers.specs.declared.held.End.TheVariants.{Fresh};

use super::*;
use mg_core::{Book, Committed, EntryView, NoMemory};
use mg_double::{Finder, Mark};
use mg_policy::{Policy, even};
use std::alloc::Global;
use std::test::Fail;

#[test]
fn a_search_that_found_has_units_left(rt: HostRuntime) -> Result<(), Fail> {
    let mut searches: HeldList<u32> = HeldList::new(rt.alloc());
    searches.push(Held {
        search: 7,
        number: 1,
        cell: 0,
        held: 89,
        spent: 111,
        allowed: 89,
        turns: 1,
        read: 0,
        end: End::Found,
    })?;
    let mut notes = WorkerNotes::new(rt.alloc());
    notes.push(Note {
        search: 1,
        turn: 0,
        units: 111,
        committed: Committed::Kept { place: 1 },
    })?;
    let mut receipts = Receipts::new(rt.alloc());
    receipts.push(notes)?;
    assert_eq!(rt; receipts.as_slice().len(), 1);
    let Some(held) = searches.pop() else {
        return Ok(());
    };
    assert_eq!(rt;
        (held.search, held.held + held.spent, held.end),
        (7, 200, End::Found)
    );
    Ok(())
}

/// A search for key 7 that has these units and has made no turn.
fn finder(number: u32, units: u64) -> Held<Finder>
    ensures { result ≡ record {
      search = record { key = 7; group = 9; spent = 0 };
      number = number;
      cell = 0;
      held = units;
      spent = 0;
      allowed = units;
      turns = 0;
      read = 0;
      end = Fresh;
    } }
{
    Held {
        search: Finder {
            key: 7,
            group: 9,
            spent: 0,
        },
        number,
        cell: 0,
        held: units,
        spent: 0,
        allowed: units,
        turns: 0,
        read: 0,
        end: End::Fresh,
    }
}

/// Two searches for key 7 with these units, after a run.
fn run(
    alloc: Global,
    book: &mut Book<Mark>,
    first: u64,
    second: u64,
) -> Result<HeldList<Finder>, NoMemory>
    requires first { first ≤ 2 ^ 62 }
    requires second { second ≤ 2 ^ 62 }
{
    let mut searches = HeldList::new(alloc);
    searches.push(finder(1, first))?;
    searches.push(finder(2, second))?;
    let policy = Policy::new(|turn: u64, held: u64| even(turn, held));
    go_round(alloc, book, &policy, searches)
}

/// Whether the search at the place has spent this many units, holds that many, and stands so.
fn stands(searches: &[Held<Finder>], place: usize, spent: u64, held: u64, end: End) -> bool {
    match searches.get(place) {
        Some(search) => (search.spent, search.held, search.allowed) == (spent, held, held)
            && search.end == end,
        None => false,
    }
}

/// The entry at the place.
fn entry_at(book: &Book<Mark>, place: u32) -> Option<EntryView<'_, Mark>> {
    let mut entries = book.entries();
    for _ in 0..place {
        let _earlier = entries.next();
    }
    entries.next()
}

/// Whether the entry at the place is of this search, spent this many units, and was dropped or kept.
fn notes(book: &Book<Mark>, place: u32, search: u32, units: u64, dropped: bool) -> bool {
    match entry_at(book, place) {
        Some(entry) => (entry.search, entry.units) == (search, units) && entry.dropped == dropped,
        None => false,
    }
}

#[test]
fn two_units_do_not_find_it(rt: HostRuntime) -> Result<(), Fail> {
    let alloc = rt.alloc();
    let mut book: Book<Mark> = Book::new(alloc);
    let searches = run(alloc, &mut book, 2, 0)?;
    assert!(rt; stands(searches.as_slice(), 0, 2, 0, End::More));
    assert!(rt; stands(searches.as_slice(), 1, 0, 0, End::Fresh));
    assert!(rt; notes(&book, 0, 1, 2, false) && entry_at(&book, 1).is_none());
    Ok(())
}

#[test]
fn three_of_five_units_find_it(rt: HostRuntime) -> Result<(), Fail> {
    let alloc = rt.alloc();
    let mut book: Book<Mark> = Book::new(alloc);
    let searches = run(alloc, &mut book, 5, 0)?;
    assert!(rt; stands(searches.as_slice(), 0, 3, 2, End::Found));
    assert!(rt; book.facts() == 1 && notes(&book, 0, 1, 3, false));
    Ok(())
}

#[test]
fn a_second_search_of_the_key_is_dropped(rt: HostRuntime) -> Result<(), Fail> {
    let alloc = rt.alloc();
    let mut book: Book<Mark> = Book::new(alloc);
    let searches = run(alloc, &mut book, 5, 5)?;
    assert!(rt; stands(searches.as_slice(), 0, 3, 2, End::Found));
    assert!(rt; stands(searches.as_slice(), 1, 0, 5, End::Stopped));
    assert!(rt; book.facts() == 1 && notes(&book, 1, 2, 0, true));
    Ok(())
}
