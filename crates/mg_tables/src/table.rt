//! Coset tables with gaps.
ghost use Rattle.std.specs.Prelude.{◌≡◌, ◌≢◌, ◌↔◌, ℕ, ◌+◌, ◌*◌, ◌≤◌, ◌<◌, ℤ, neg_ℤ, IsTrue, IsSome, false, List, [], ◌∷◌, ◌++◌, length, Some, None, IfOk, IfSome, OnOk, OnErr};
ghost use Rattle.std.specs.Option.{option_map};
ghost use Rattle.mg_words.specs.Letter.{IsLetterOf};
ghost use Rattle.mg_tables.specs.Table.{column, entry, filled, first_table, empty_row, with_row, IsTable};
ghost use Rattle.mg_tables.specs.Gaps.{Stands, gaps, number, packed, cell_at, fill_at, IsGapped};
ghost use Rattle.mg_tables.specs.Looking.{In, Changes};
ghost use Rattle.mg_tables.specs.Joining.{Joins};

use crate::join::{Pair, collapse};
use mg_present::MOST_GENERATORS;
use mg_words::{Letter, NoMemory};
use std::alloc::Global;
use std::marker::Model;

/// The most places of a table.
pub const MOST_PLACES: u32 = 0x7fff_ffff;

// Numbers from here on mark a row that is gone.
pub(crate) const GONE: u32 = 0x8000_0000;

/// A coset table. Its rows stand at places from 0, and a place of a row that is gone is a gap; contracts speak of
/// the table without the gaps, in which a row is called by its number.
#[derive(Debug, Drop)]
pub struct CosetTable {
    generators: u32,
    places: u32,
    entries: Vec<u32>,
}

impl Model for CosetTable {
    ghost use Rattle.mg_tables.specs.Gaps.{Gapped};
    ghost use Rattle.mg_tables.specs.Cells.{seen, IsKept};

    ghost Value = { Gapped };

    ghost view = { λ t. seen t.generators t.places t.entries.items };

    ghost invariant = { λ t. IsKept t.generators t.places t.entries.items };
}

// The place of a letter's entry in a row.
pub(crate) fn column_of(letter: Letter) -> usize
    ensures column { result ≡ column letter }
    ensures few { result < 2 * MOST_GENERATORS }
{
    let generator = letter.generator as usize;
    if letter.inverse {
        2 * generator - 1
    } else {
        2 * generator - 2
    }
}

// Where the entry in a column of a place stands.
pub(crate) fn index(generators: u32, place: u32, column: usize) -> usize
    requires few { generators ≤ MOST_GENERATORS }
    requires column { column < 2 * MOST_GENERATORS }
    ensures { result ≡ place * (2 * generators) + column }
{
    place as usize * (2 * generators as usize) + column
}

impl CosetTable {
    /// The table of one row without entries.
    pub fn new(alloc: Global, generators: u32) -> Result<CosetTable, NoMemory>
        requires some { 1 ≤ generators }
        requires few { generators ≤ MOST_GENERATORS }
        ensures table { IfOk result (λ t. packed t.places ≡ first_table generators) }
        ensures gaps { IfOk result (λ t. gaps t.places ≡ false ∷ []) }
        ensures generators { IfOk result (λ t. t.generators ≡ generators) }
    {
        let mut entries = Vec::new(alloc);
        let zeros = [0; 2 * MOST_GENERATORS as usize];
        entries.extend_from_slice(&zeros[..2 * generators as usize])?;
        Ok(CosetTable {
            generators,
            places: 1,
            entries,
        })
    }

    /// How many generators there are.
    pub fn generators(&self) -> u32
        ensures value { result ≡ self.now.generators }
        ensures table { IsTable self.now.generators (packed self.now.places) }
        ensures gapped { IsGapped self.now.generators self.now.places }
        ensures some { 1 ≤ result }
        ensures few { result ≤ MOST_GENERATORS }
    {
        self.generators
    }

    /// How many places there are, the gaps too.
    pub fn places(&self) -> u32
        ensures value { result ≡ length self.now.places }
        ensures first { Stands self.now.places 0 }
    {
        self.places
    }

    /// Whether a row stands at a place.
    pub fn stands(&self, place: u32) -> bool
        ensures { IsTrue result ↔ Stands self.now.places place }
    {
        if place >= self.places {
            return false;
        }
        self.entries[index(self.generators, place, 0)] < GONE
    }

    /// The place to which a letter leads from a place.
    pub fn entry(&self, place: u32, letter: Letter) -> Option<u32>
        requires place { Stands self.now.places place }
        requires letter { IsLetterOf self.now.generators letter }
        ensures table { entry (packed self.now.places) (number self.now.places place) letter
            ≡ option_map (number self.now.places) result }
        ensures cell { cell_at self.now.places place (column letter) ≡ result }
        ensures stands { IfSome result (λ to. Stands self.now.places to) }
    {
        let cell = self.entries[index(self.generators, place, column_of(letter))];
        if cell == 0 { None } else { Some(cell - 1) }
    }

    /// Sets an entry and its inverse, which are both empty.
    pub fn fill(&mut self, from: u32, letter: Letter, to: u32)
        requires from { Stands self.old.places from }
        requires to { Stands self.old.places to }
        requires letter { IsLetterOf self.old.generators letter }
        requires empty { entry (packed self.old.places)
            (number self.old.places from) letter ≡ None }
        requires back { entry (packed self.old.places) (number self.old.places to) (neg_ℤ letter)
            ≡ None }
        ensures table { packed self.new.places ≡ filled (packed self.old.places)
            (number self.old.places from) letter (number self.old.places to) }
        ensures gaps { gaps self.new.places ≡ gaps self.old.places }
        ensures places { self.new.places ≡ fill_at self.old.places from letter to }
        ensures generators { self.new.generators ≡ self.old.generators }
    {
        let there = index(self.generators, from, column_of(letter));
        let back = index(self.generators, to, column_of(letter.inverted()));
        self.entries[there] = to + 1;
        self.entries[back] = from + 1;
    }

    // Appends a row without entries.
    fn push_row(&mut self) -> Result<(), NoMemory>
        requires { length self.old.places < MOST_PLACES }
        ensures row { OnOk result
            (self.new.places ≡ self.old.places ++ Some (empty_row self.old.generators) ∷ []) }
        ensures generators { self.new.generators ≡ self.old.generators }
        ensures gapped { IsGapped self.old.generators self.old.places }
        ensures err { OnErr result (self.new ≡ self.old) }
    {
        let zeros = [0; 2 * MOST_GENERATORS as usize];
        self.entries
            .extend_from_slice(&zeros[..2 * self.generators as usize])?;
        self.places += 1;
        Ok(())
    }

    /// Appends a row to which an entry leads that is empty, and answers its place. Without memory the table stays.
    pub fn add_row(&mut self, from: u32, letter: Letter) -> Result<u32, NoMemory>
        requires from { Stands self.old.places from }
        requires letter { IsLetterOf self.old.generators letter }
        requires empty { entry (packed self.old.places)
            (number self.old.places from) letter ≡ None }
        requires room { length self.old.places < MOST_PLACES }
        ensures table { OnOk result (packed self.new.places ≡ with_row self.old.generators
            (packed self.old.places) (number self.old.places from) letter) }
        ensures place { IfOk result (λ place. place ≡ length self.old.places) }
        ensures gaps { OnOk result (gaps self.new.places ≡ gaps self.old.places ++ false ∷ []) }
        ensures places { OnOk result (self.new.places ≡ fill_at
            (self.old.places ++ Some (empty_row self.old.generators) ∷ [])
            from letter (length self.old.places)) }
        ensures generators { self.new.generators ≡ self.old.generators }
        ensures err { OnErr result (self.new ≡ self.old) }
    {
        let row = self.places();
        self.push_row()?;
        self.fill(from, letter, row);
        Ok(row)
    }

    /// Joins two rows, and puts the rows that have got entries on a list. Without memory the table is gone.
    pub fn join(
        self,
        alloc: Global,
        first: u32,
        second: u32,
        touched: &mut Vec<u32>,
    ) -> Result<CosetTable, NoMemory>
        requires first { Stands self.places first }
        requires second { Stands self.places second }
        ensures table { IfOk result (λ t. Joins self.generators (packed self.places)
            (number self.places first) (number self.places second) (packed t.places)) }
        ensures places { IfOk result (λ t. length t.places ≡ length self.places) }
        ensures more { OnOk result ((c : ℕ) → In c touched.old.items → In c touched.new.items) }
        ensures changes { IfOk result (λ t.
            Changes self.generators self.places t.places touched.new.items) }
        ensures stood { IfOk result (λ t. (c : ℕ) → Stands t.places c → Stands self.places c) }
        ensures fewer { first ≢ second → IfOk result (λ t.
            length (packed t.places) < length (packed self.places)) }
        ensures generators { IfOk result (λ t. t.generators ≡ self.generators) }
    {
        let mut table = self;
        let mut pairs = Vec::new(alloc);
        pairs.push(Pair {
            left: first,
            right: second,
        })?;
        collapse(
            table.generators,
            table.places,
            &mut table.entries,
            &mut pairs,
            touched,
        )?;
        Ok(table)
    }
}
