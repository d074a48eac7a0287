//! What a word forces at a row.
ghost use Rattle.std.specs.Prelude.{◌≡◌, ℕ, ◌+◌, ◌≤◌, ◌<◌, ℤ, List, length};
ghost use Rattle.mg_words.specs.Word.{IsOver};
ghost use Rattle.mg_tables.specs.Gaps.{Stands};
ghost use Rattle.mg_tables.specs.Scan.{IsForced, IsAhead, IsBehind};

use crate::table::CosetTable;
use mg_words::Letter;

/// What a word forces at a row. Rows are told by their places.
#[derive(Clone, Copy, Debug, PartialEq, Eq)]
pub enum Forced {
    /// Nothing.
    Nothing,
    /// Two rows are to be joined: the letters before a place of the word lead to the first, and the inverse of the
    /// others to the second.
    Rows(usize, u32, u32),
    /// The letter at a place of the word is to lead from one row to another.
    Entry(usize, u32, u32),
}

// How far a word leads, and to which row.
#[derive(Clone, Copy, Debug)]
pub(crate) struct Way {
    pub place: usize,
    pub row: u32,
}

// How far a word leads on from a row.
pub(crate) fn ahead(table: &CosetTable, word: &[Letter], row: u32) -> Way
    requires row { Stands table.now.places row }
    requires over { IsOver table.now.generators word.now }
    ensures { IsAhead table.now.places row word.now result.place result.row }
{
    let mut way = row;
    for place in 0..word.len() {
        match table.entry(way, word[place]) {
            Some(next) => way = next,
            None => return Way { place, row: way },
        }
    }
    Way {
        place: word.len(),
        row: way,
    }
}

// How far the inverse of a word leads from a row, but not beyond a place.
pub(crate) fn behind(table: &CosetTable, word: &[Letter], row: u32, least: usize) -> Way
    requires row { Stands table.now.places row }
    requires over { IsOver table.now.generators word.now }
    requires least { least ≤ length word.now }
    ensures { IsBehind table.now.places row word.now least result.place result.row }
{
    let mut place = word.len();
    let mut way = row;
    while place > least {
        match table.entry(way, word[place - 1].inverted()) {
            Some(next) => {
                way = next;
                place -= 1;
            }
            None => return Way { place, row: way },
        }
    }
    Way { place, row: way }
}

impl CosetTable {
    /// What a word forces at a row. Of several pairs of rows it tells those of the last place to which the word leads.
    pub fn scan(&self, word: &[Letter], row: u32) -> Forced
        requires row { Stands self.now.places row }
        requires over { IsOver self.now.generators word.now }
        ensures { IsForced self.now.places row word.now result }
    {
        let _ = self.generators();
        let ahead = ahead(self, word, row);
        let behind = behind(self, word, row, ahead.place);
        if behind.place == ahead.place {
            if behind.row == ahead.row {
                return Forced::Nothing;
            }
            return Forced::Rows(ahead.place, ahead.row, behind.row);
        }
        if behind.place == ahead.place + 1 {
            return Forced::Entry(ahead.place, ahead.row, behind.row);
        }
        Forced::Nothing
    }
}
