//! The first empty entry of a table, and how many rows it has.
ghost use Rattle.std.specs.Prelude.{◌≡◌, ℕ, ◌≤◌, ◌<◌, length};
ghost use Rattle.mg_tables.specs.Gaps.{Stands, packed};
ghost use Rattle.mg_tables.specs.Enumerating.{IsFullBefore, IsGapOf, IsSpot};

use crate::join::letter_at;
use crate::table::CosetTable;
use mg_words::Letter;

// Where an empty entry is.
#[derive(Clone, Copy, Debug)]
pub(crate) struct Spot {
    pub row: u32,
    pub letter: Letter,
}

// The letter of the first empty entry of the row at a place.
fn gap_of(table: &CosetTable, row: u32) -> Option<Letter>
    ensures { IsGapOf table.now.generators table.now.places row result }
{
    if !table.stands(row) {
        return None;
    }
    let generators = table.generators();
    for place in 0..2 * generators as usize {
        let letter = letter_at(place, generators);
        match table.entry(row, letter) {
            Some(_) => {}
            None => return Some(letter),
        }
    }
    None
}

// The first empty entry of a table, where none stands before a place.
pub(crate) fn find_spot(table: &CosetTable, from: u32) -> Option<Spot>
    requires { IsFullBefore table.now.generators table.now.places from }
    ensures { IsSpot table.now.generators table.now.places result }
{
    let _ = table.generators();
    for row in from..table.places() {
        if let Some(letter) = gap_of(table, row) {
            return Some(Spot { row, letter });
        }
    }
    None
}

// How many rows a table has.
pub(crate) fn count_rows(table: &CosetTable) -> u32
    ensures value { result ≡ length (packed table.now.places) }
{
    let mut rows = 0;
    for place in 0..table.places() {
        if table.stands(place) {
            rows += 1;
        }
    }
    rows
}
