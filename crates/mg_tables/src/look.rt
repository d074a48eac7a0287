//! What words force at the rows from which they pass through a row.
ghost use Rattle.std.specs.Prelude.{◌≡◌, ℕ, ◌≤◌, ◌<◌, ℤ, List, [], ◌∷◌, ◌++◌, length, Some, None, IfSome, ◌⊎◌};
ghost use Rattle.std.specs.List.{AllByRecursion};
ghost use Rattle.mg_words.specs.Word.{IsOver, inv};
ghost use Rattle.mg_present.specs.Presentation.{Group};
ghost use Rattle.mg_tables.specs.Table.{row_after};
ghost use Rattle.mg_tables.specs.Gaps.{Stands, number, packed};
ghost use Rattle.mg_tables.specs.Scan.{ForcesNothing};
ghost use Rattle.mg_tables.specs.Looking.{IsQuiet, IsQuietAt, AreQuiet, MembersForceNothing, IsFound, IsFoundIn};

use crate::scan::{Forced, ahead, behind};
use crate::table::CosetTable;
use mg_present::Presentation;
use mg_words::{Letter, Words};

// An entry that is forced: the letter is to lead from one row to another.
#[derive(Clone, Copy, Debug)]
pub(crate) struct Entry {
    pub from: u32,
    pub letter: Letter,
    pub to: u32,
}

// What is found to be forced: two rows are to be joined, or an entry is to be set.
#[derive(Clone, Copy, Debug)]
pub(crate) enum Found {
    Rows(u32, u32),
    Entry(Entry),
}

// What a word forces at a row.
fn scan_word(table: &CosetTable, word: &[Letter], row: u32) -> Option<Found>
    requires row { Stands table.now.places row }
    requires over { IsOver table.now.generators word.now }
    ensures quiet { result ≡ None →
        ForcesNothing (packed table.now.places) (number table.now.places row) word.now }
    ensures found { IfSome result (λ f. IsFoundIn table.now.places row word.now f) }
{
    match table.scan(word, row) {
        Forced::Nothing => None,
        Forced::Rows(_, first, second) => Some(Found::Rows(first, second)),
        Forced::Entry(place, from, to) => Some(Found::Entry(Entry {
            from,
            letter: word[place],
            to,
        })),
    }
}

// The row from which a word leads to a row.
fn before(table: &CosetTable, word: &[Letter], row: u32) -> Option<u32>
    requires row { Stands table.now.places row }
    requires over { IsOver table.now.generators word.now }
    ensures stands { IfSome result (λ r. Stands table.now.places r) }
    ensures reaches { (r : ℕ) → Stands table.now.places r →
        row_after (packed table.now.places) (number table.now.places r) word.now
        ≡ Some (number table.now.places row) → result ≡ Some r }
{
    let _ = table.generators();
    let way = behind(table, word, row, 0);
    if way.place == 0 { Some(way.row) } else { None }
}

// The row to which a word leads, from which its inverse leads to a row.
fn after(table: &CosetTable, word: &[Letter], row: u32) -> Option<u32>
    requires row { Stands table.now.places row }
    requires over { IsOver table.now.generators word.now }
    ensures stands { IfSome result (λ r. Stands table.now.places r) }
    ensures reaches { (r : ℕ) → Stands table.now.places r →
        row_after (packed table.now.places) (number table.now.places r) (inv word.now)
        ≡ Some (number table.now.places row) → result ≡ Some r }
{
    let _ = table.generators();
    let way = ahead(table, word, row);
    if way.place == word.len() {
        Some(way.row)
    } else {
        None
    }
}

// What a word forces at a row, if one is given.
fn scan_from(table: &CosetTable, word: &[Letter], row: Option<u32>) -> Option<Found>
    requires row { IfSome row (λ r. Stands table.now.places r) }
    requires over { IsOver table.now.generators word.now }
    ensures quiet { result ≡ None → (r : ℕ) → row ≡ Some r →
        ForcesNothing (packed table.now.places) (number table.now.places r) word.now }
    ensures found { IfSome result (λ f. (r : ℕ) × Stands table.now.places r ×
        IsFoundIn table.now.places r word.now f) }
{
    match row {
        Some(row) => scan_word(table, word, row),
        None => None,
    }
}

// What a word forces at the rows from which it passes through a row at a place.
fn look_at(table: &CosetTable, word: &[Letter], place: usize, row: u32) -> Option<Found>
    requires place { place ≤ length word.now }
    requires row { Stands table.now.places row }
    requires over { IsOver table.now.generators word.now }
    ensures quiet { result ≡ None → IsQuietAt table.now.places row word.now place }
    ensures found { IfSome result (λ f. (r : ℕ) × Stands table.now.places r ×
        IsFoundIn table.now.places r word.now f) }
{
    let first = before(table, &word[..place], row);
    if let Some(found) = scan_from(table, word, first) {
        return Some(found);
    }
    let second = after(table, &word[place..], row);
    scan_from(table, word, second)
}

// What a word forces at the rows from which it passes through a row.
fn look_along(table: &CosetTable, word: &[Letter], row: u32) -> Option<Found>
    requires row { Stands table.now.places row }
    requires over { IsOver table.now.generators word.now }
    ensures quiet { result ≡ None → IsQuiet table.now.places row word.now }
    ensures found { IfSome result (λ f. (r : ℕ) × Stands table.now.places r ×
        IsFoundIn table.now.places r word.now f) }
{
    for place in 0..word.len() {
        if let Some(found) = look_at(table, word, place, row) {
            return Some(found);
        }
    }
    look_at(table, word, word.len(), row)
}

// What the relators force at the rows from which they pass through a row.
fn look_through(table: &CosetTable, group: &Presentation, row: u32) -> Option<Found>
    requires generators { table.now.generators ≡ group.now.generators }
    requires row { Stands table.now.places row }
    ensures quiet { result ≡ None → AreQuiet group.now.relators table.now.places row }
    ensures found { IfSome result (λ f. (subgroup : List (List ℤ)) →
        IsFound group.now subgroup table.now.places f) }
{
    for place in 0..group.relators().len() {
        if let Some(found) = look_along(table, group.relator(place).letters(), row) {
            return Some(found);
        }
    }
    None
}

// What the subgroup words force.
fn look_at_subgroup(table: &CosetTable, subgroup: &Words) -> Option<Found>
    requires over { AllByRecursion (IsOver table.now.generators) subgroup.now }
    ensures quiet { result ≡ None → MembersForceNothing subgroup.now table.now.places }
    ensures found { IfSome result (λ f. (group : Group) →
        group.generators ≡ table.now.generators →
        IsFound group subgroup.now table.now.places f) }
{
    let _ = table.places();
    for place in 0..subgroup.len() {
        if let Some(found) = scan_word(table, subgroup.at(place).letters(), 0) {
            return Some(found);
        }
    }
    None
}

// What is forced through the last row of a list, or else by the subgroup words.
pub(crate) fn look(
    table: &CosetTable,
    group: &Presentation,
    subgroup: &Words,
    rows: &[u32],
) -> Option<Found>
    requires generators { table.now.generators ≡ group.now.generators }
    requires over { AllByRecursion (IsOver group.now.generators) subgroup.now }
    ensures last { result ≡ None → (front : List ℕ) (row : ℕ) → rows.now ≡ front ++ row ∷ [] →
        Stands table.now.places row → AreQuiet group.now.relators table.now.places row }
    ensures empty { result ≡ None → rows.now ≡ [] →
        MembersForceNothing subgroup.now table.now.places }
    ensures found { IfSome result (λ f. IsFound group.now subgroup.now table.now.places f) }
{
    let Some(row) = rows.last() else {
        return look_at_subgroup(table, subgroup);
    };
    if !table.stands(*row) {
        return None;
    }
    look_through(table, group, *row)
}
