//! What is forced is done, until nothing is.
ghost use Rattle.std.specs.Prelude.{◌≡◌, ◌≢◌, false, ℕ, ◌+◌, ◌*◌, ◌≤◌, ◌<◌, ℤ, List, [], ◌∷◌, ◌++◌, length, Some, None, IfOk, IfSome, OnOk};
ghost use Rattle.std.specs.List.{AllByRecursion};
ghost use Rattle.mg_words.specs.Word.{IsOver};
ghost use Rattle.mg_tables.specs.Gaps.{Stands, gaps, number, packed};
ghost use Rattle.mg_tables.specs.Force.{IsStable};
ghost use Rattle.mg_tables.specs.Looking.{IsCovered, IsFound};
ghost use Rattle.mg_tables.specs.declared.look.Found.TheVariants as found;
ghost use Rattle.mg_tables.specs.Enumerating.{Deduced, IsTurn, left_to_set};

use crate::join::Pair;
use crate::look::{Entry, Found, look};
use crate::table::CosetTable;
use mg_present::Presentation;
use mg_words::{NoMemory, Words};
use std::alloc::Global;

// What came of a look at the last row of the list.
#[derive(Clone, Copy, Debug)]
pub(crate) enum Turn {
    // An entry was set, or the row is done.
    On,
    // Two rows are to be joined.
    Join(Pair),
    // The list is empty, and nothing is forced.
    Done,
}

// Sets an entry that is forced.
fn set_found(
    group: &Presentation,
    subgroup: &Words,
    table: &mut CosetTable,
    rows: &mut Vec<u32>,
    entry: Entry,
) -> Result<(), NoMemory>
    requires generators { table.old.generators ≡ group.now.generators }
    requires covered { IsCovered group.now.relators table.old.places rows.old.items }
    requires found { IsFound group.now subgroup.now table.old.places (found.Entry entry) }
    ensures deduced { Deduced group.now subgroup.now table.old table.new }
    ensures covered { OnOk result
        (IsCovered group.now.relators table.new.places rows.new.items) }
    ensures less { OnOk result (left_to_set table.new rows.new.items
        < left_to_set table.old rows.old.items) }
    ensures same { length (packed table.new.places) ≡ length (packed table.old.places) }
{
    let _ = group.generators();
    let _ = subgroup;
    let _ = table.generators();
    table.fill(entry.from, entry.letter, entry.to);
    let _ = table.generators();
    rows.push(entry.from)?;
    Ok(())
}

// Looks at the last row of the list.
fn take_turn(
    group: &Presentation,
    subgroup: &Words,
    table: &mut CosetTable,
    rows: &mut Vec<u32>,
) -> Result<Turn, NoMemory>
    requires generators { table.old.generators ≡ group.now.generators }
    requires over { AllByRecursion (IsOver group.now.generators) subgroup.now }
    requires covered { IsCovered group.now.relators table.old.places rows.old.items }
    ensures deduced { Deduced group.now subgroup.now table.old table.new }
    ensures covered { OnOk result
        (IsCovered group.now.relators table.new.places rows.new.items) }
    ensures same { length (packed table.new.places) ≡ length (packed table.old.places) }
    ensures turned { IfOk result (λ turn. IsTurn group.now subgroup.now
        table.old rows.old.items table.new rows.new.items turn) }
{
    let _ = group.generators();
    let _ = table.generators();
    match look(table, group, subgroup, rows) {
        Some(Found::Rows(left, right)) => Ok(Turn::Join(Pair { left, right })),
        Some(Found::Entry(entry)) => {
            set_found(group, subgroup, table, rows, entry)?;
            Ok(Turn::On)
        }
        None => match rows.pop() {
            Some(_) => Ok(Turn::On),
            None => Ok(Turn::Done),
        },
    }
}

// Sets the entries that are forced, until rows are to be joined, which are answered, or nothing is forced.
fn deduce(
    group: &Presentation,
    subgroup: &Words,
    table: &mut CosetTable,
    rows: &mut Vec<u32>,
) -> Result<Option<Pair>, NoMemory>
    requires generators { table.old.generators ≡ group.now.generators }
    requires over { AllByRecursion (IsOver group.now.generators) subgroup.now }
    requires covered { IsCovered group.now.relators table.old.places rows.old.items }
    ensures deduced { Deduced group.now subgroup.now table.old table.new }
    ensures covered { OnOk result
        (IsCovered group.now.relators table.new.places rows.new.items) }
    ensures found { IfOk result (λ pair. IfSome pair (λ p.
        IsFound group.now subgroup.now table.new.places (found.Rows p.left p.right))) }
    ensures stable { IfOk result (λ pair. pair ≡ None →
        IsStable group.now subgroup.now (packed table.new.places)) }
    ensures same { length (packed table.new.places) ≡ length (packed table.old.places) }
{
    loop {
        match take_turn(group, subgroup, table, rows)? {
            Turn::On => {}
            Turn::Join(pair) => return Ok(Some(pair)),
            Turn::Done => return Ok(None),
        }
    }
}

// Joins two rows that are to be joined.
fn join_found(
    alloc: Global,
    group: &Presentation,
    subgroup: &Words,
    table: CosetTable,
    rows: &mut Vec<u32>,
    pair: Pair,
) -> Result<CosetTable, NoMemory>
    requires generators { table.generators ≡ group.now.generators }
    requires covered { IsCovered group.now.relators table.places rows.old.items }
    requires found { IsFound group.now subgroup.now table.places
        (found.Rows pair.left pair.right) }
    ensures deduced { IfOk result (λ t. Deduced group.now subgroup.now table t) }
    ensures covered { IfOk result (λ t.
        IsCovered group.now.relators t.places rows.new.items) }
    ensures fewer { IfOk result (λ t. length (packed t.places) < length (packed table.places)) }
{
    let _ = group.generators();
    let _ = subgroup;
    let joined = table.join(alloc, pair.left, pair.right, rows)?;
    let _ = joined.generators();
    Ok(joined)
}

// A table in which nothing is forced, and whether rows were joined for it.
#[derive(Debug, Drop)]
pub(crate) struct Settled {
    pub table: CosetTable,
    pub joined: bool,
}

// Does what is forced through the rows of a list, until nothing is forced.
pub(crate) fn settle(
    alloc: Global,
    group: &Presentation,
    subgroup: &Words,
    table: CosetTable,
    rows: &mut Vec<u32>,
) -> Result<Settled, NoMemory>
    requires generators { table.generators ≡ group.now.generators }
    requires over { AllByRecursion (IsOver group.now.generators) subgroup.now }
    requires covered { IsCovered group.now.relators table.places rows.old.items }
    ensures deduced { IfOk result (λ s. Deduced group.now subgroup.now table s.table) }
    ensures stable { IfOk result (λ s.
        IsStable group.now subgroup.now (packed s.table.places)) }
    ensures same { IfOk result (λ s. s.joined ≡ false →
        length (packed s.table.places) ≡ length (packed table.places)) }
{
    let mut table = table;
    let mut joined = false;
    while let Some(pair) = deduce(group, subgroup, &mut table, rows)? {
        table = join_found(alloc, group, subgroup, table, rows, pair)?;
        joined = true;
    }
    Ok(Settled { table, joined })
}
