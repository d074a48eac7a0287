//! Cells of marks.
ghost use Rattle.std.specs.Prelude.{◌≡◌, ◌<◌, length, IfOk};
ghost use Rattle.mg_cancel.specs.Notes.{cells_of};

use super::*;
use std::test::Fail;
use std::thread;
use std::thread::Threads;

/// A record of the tests' own.
#[derive(Debug, Drop, PartialEq)]
struct Mark {
    number: u32,
}

/// Settles a cell with a mark of this number, and answers the number of the mark that the cell has.
fn settled(
    alloc: Global,
    cells: &Cells<Mark>,
    notes: &mut Notes<Mark>,
    i: u32,
    number: u32,
) -> Result<u32, NoMemory>
    requires there { i < length cells.now }
    requires of_these { cells_of notes.old ≡ cells.now }
    ensures of_these { cells_of notes.new ≡ cells.now }
{
    let mark = Box::new(alloc, Mark { number })?;
    Ok(cells.settle(notes, i, mark).number)
}

/// The number of the mark that the cell has, if a look finds one.
fn found(cells: &Cells<Mark>, notes: &mut Notes<Mark>, i: u32) -> Option<u32>
    requires there { i < length cells.now }
    requires of_these { cells_of notes.old ≡ cells.now }
    ensures of_these { cells_of notes.new ≡ cells.now }
{
    match cells.look(notes, i) {
        Some(mark) => Some(mark.number),
        None => None,
    }
}

/// Of two values for one cell the first stays, both calls lend it, a second note finds it, and the other cell is empty.
fn the_first_stays(alloc: Global) -> Result<bool, NoMemory> {
    let cells = Cells::make(alloc, 2)?;
    let mut notes = cells.notes(alloc)?;
    let mut other = cells.notes(alloc)?;
    let before = found(&cells, &mut other, 0);
    let first = settled(alloc, &cells, &mut notes, 0, 7)?;
    let second = settled(alloc, &cells, &mut notes, 0, 8)?;
    let seen = found(&cells, &mut other, 0);
    let empty = found(&cells, &mut other, 1);
    Ok((first, second, before, seen, empty) == (7, 7, None, Some(7), None))
}

#[test]
fn of_two_values_the_first_stays(rt: HostRuntime) -> Result<(), Fail> {
    assert!(rt; the_first_stays(rt.alloc())?);
    Ok(())
}

/// What a thread finds that settles the one cell, and then looks.
fn settled_and_seen(
    alloc: Global,
    cells: &Cells<Mark>,
    number: u32,
) -> Result<(u32, Option<u32>, Notes<Mark>), NoMemory>
    requires one { length cells.now ≡ 1 }
    ensures of_these { IfOk result (λ r. cells_of r.2 ≡ cells.now) }
{
    let mut notes = cells.notes(alloc)?;
    let lent = settled(alloc, cells, &mut notes, 0, number)?;
    let seen = found(cells, &mut notes, 0);
    Ok((lent, seen, notes))
}

/// Two threads settle one cell, and all that they see is one value.
fn two_threads_agree<X: Threads + Sync>(
    rt: &X,
    alloc: Global,
    cells: &Cells<Mark>,
) -> Result<bool, NoMemory>
    requires one { length cells.now ≡ 1 }
{
    let (one, other) = thread::join(
        rt,
        || -> Result<(u32, Option<u32>, Notes<Mark>), NoMemory>
            requires { length cells.now ≡ 1 }
            ensures { IfOk result (λ r. cells_of r.2 ≡ cells.entry.now) }
        { settled_and_seen(alloc, cells, 7) },
        || -> Result<(u32, Option<u32>, Notes<Mark>), NoMemory>
            requires { length cells.now ≡ 1 }
            ensures { IfOk result (λ r. cells_of r.2 ≡ cells.entry.now) }
        { settled_and_seen(alloc, cells, 8) },
    );
    let (first, first_seen, mut one) = one?;
    let (second, second_seen, mut other) = other?;
    cells.compare(&mut one, &mut other, 0);
    Ok(first == second && first_seen == Some(first) && second_seen == Some(first))
}

#[test]
fn looks_from_two_threads_agree(rt: HostRuntime) -> Result<(), Fail> {
    let cells = Cells::make(rt.alloc(), 1)?;
    assert!(rt; two_threads_agree(&rt, rt.alloc(), &cells)?);
    Ok(())
}

fn shared<T: Sync>(_value: &T) {}

fn sent<T: Send + Drop>(_value: T) {}

/// Cells can be shared by threads.
fn cells_are_shared<R: Drop + Send + Sync>(cells: &Cells<R>) {
    shared(cells);
}

/// Notes can be given to a thread.
fn notes_are_sent<R: Drop + Send>(notes: Notes<R>) {
    sent(notes);
}
