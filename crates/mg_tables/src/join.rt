//! The joining of rows.
ghost use Rattle.std.specs.Prelude.{◌≡◌, ◌≢◌, ℕ, ◌+◌, ◌*◌, ◌≤◌, ◌<◌, neg_ℤ, List, [], ◌∷◌, length, Some, None, OnOk};
ghost use Rattle.mg_words.specs.Letter.{IsLetterOf};
ghost use Rattle.mg_tables.specs.Table.{column};
ghost use Rattle.mg_tables.specs.Gaps.{Places, Stands, cell_at, cleared, fill_at, without};
ghost use Rattle.mg_tables.specs.Cells.{places_of, IsKept};
ghost use Rattle.mg_tables.specs.Looking.{Touched};
ghost use Rattle.mg_tables.specs.Collapse.{IsCollapse, JoinsGone, Leads, KeepsGone, Makes, Moved, SomeCollapse, LeadsOn, went_of, left_to_do};

use crate::table::{GONE, column_of, index};
use mg_words::{Letter, NoMemory};

// Two rows that are to be joined.
#[derive(Clone, Copy, Debug)]
pub(crate) struct Pair {
    pub left: u32,
    pub right: u32,
}

// The row that stands for a place.
fn find(generators: u32, places: u32, entries: &[u32], place: u32) -> u32
    requires { (first : Places) × (p q : ℕ) × (pairs : List Pair) ×
        IsCollapse generators places first p q pairs entries.now × Stands first place }
    ensures stands { Stands (places_of (2 * generators) places entries.now) result }
    ensures below { result ≤ place }
    ensures joined { (first : Places) (p q : ℕ) (pairs : List Pair) (f : ℕ → ℕ) →
        IsCollapse generators places first p q pairs entries.now → Stands first place →
        JoinsGone first (places_of (2 * generators) places entries.now)
        (went_of (2 * generators) entries.now) f →
        f result ≡ f place }
{
    let mut row = place;
    loop {
        let number = entries[index(generators, row, 0)];
        if number < GONE {
            return row;
        }
        row = number - GONE;
    }
}

// The letter of a column.
pub(crate) fn letter_at(place: usize, generators: u32) -> Letter
    requires few { generators ≤ 64 }
    requires below { place < 2 * generators }
    ensures column { column result ≡ place }
    ensures letter { IsLetterOf generators result }
{
    Letter {
        generator: (place / 2 + 1) as u8,
        inverse: place % 2 == 1,
    }
}

// The place to which a letter leads from a row.
fn read(generators: u32, places: u32, entries: &[u32], row: u32, letter: Letter) -> Option<u32>
    requires kept { IsKept generators places entries.now }
    requires row { Stands (places_of (2 * generators) places entries.now) row }
    requires letter { IsLetterOf generators letter }
    ensures { cell_at (places_of (2 * generators) places entries.now) row (column letter) ≡ result }
{
    let number = entries[index(generators, row, column_of(letter))];
    if number == 0 { None } else { Some(number - 1) }
}

// Takes an entry away with its inverse.
fn clear(generators: u32, places: u32, entries: &mut [u32], from: u32, letter: Letter, to: u32)
    requires kept { IsKept generators places entries.old }
    requires from { Stands (places_of (2 * generators) places entries.old) from }
    requires letter { IsLetterOf generators letter }
    requires leads { Leads (places_of (2 * generators) places entries.old) from letter to }
    ensures { Makes generators places entries.old entries.new
        (cleared (places_of (2 * generators) places entries.old) from letter to) }
{
    let there = index(generators, from, column_of(letter));
    let back = index(generators, to, column_of(letter.inverted()));
    entries[there] = 0;
    entries[back] = 0;
}

// Sets an entry with its inverse.
fn set_entry(generators: u32, places: u32, entries: &mut [u32], from: u32, letter: Letter, to: u32)
    requires kept { IsKept generators places entries.old }
    requires from { Stands (places_of (2 * generators) places entries.old) from }
    requires to { Stands (places_of (2 * generators) places entries.old) to }
    requires letter { IsLetterOf generators letter }
    requires empty { cell_at (places_of (2 * generators) places entries.old) from (column letter)
        ≡ None }
    requires back { cell_at (places_of (2 * generators) places entries.old) to
        (column (neg_ℤ letter)) ≡ None }
    ensures { Makes generators places entries.old entries.new
        (fill_at (places_of (2 * generators) places entries.old) from letter to) }
{
    let there = index(generators, from, column_of(letter));
    let back = index(generators, to, column_of(letter.inverted()));
    entries[there] = to + 1;
    entries[back] = from + 1;
}

// Marks a row without entries, to which none leads, as gone to a row that is kept.
fn mark(generators: u32, places: u32, entries: &mut [u32], keep: u32, go: u32)
    requires kept { IsKept generators places entries.old }
    requires go { Stands (places_of (2 * generators) places entries.old) go }
    requires keep { keep < go }
    requires bare { (i : ℕ) →
        cell_at (places_of (2 * generators) places entries.old) go i ≡ None }
    ensures makes { Makes generators places entries.old entries.new
        (without (places_of (2 * generators) places entries.old) go) }
    ensures went { went_of (2 * generators) entries.new go ≡ keep }
{
    entries[index(generators, go, 0)] = GONE + keep;
}

// Where an entry of a row that goes leads when it is moved.
fn target(led: u32, go: u32, keep: u32) -> u32
    ensures goes { led ≡ go → result ≡ keep }
    ensures stays { led ≢ go → result ≡ led }
{
    if led == go { keep } else { led }
}

// Moves the entry of a row that goes to the row that is kept.
fn move_entry(
    generators: u32,
    places: u32,
    entries: &mut [u32],
    pairs: &mut Vec<Pair>,
    keep: u32,
    go: u32,
    letter: Letter,
) -> Result<(), NoMemory>
    requires kept { IsKept generators places entries.old }
    requires keep { Stands (places_of (2 * generators) places entries.old) keep }
    requires go { Stands (places_of (2 * generators) places entries.old) go }
    requires lower { keep < go }
    requires letter { IsLetterOf generators letter }
    ensures moved { OnOk result (Moved generators places keep go entries.old pairs.old.items
        entries.new pairs.new.items) }
    ensures taken { OnOk result (cell_at (places_of (2 * generators) places entries.new) go
        (column letter) ≡ None) }
    ensures few { OnOk result (length pairs.new.items ≤ length pairs.old.items + 1) }
{
    let Some(led) = read(generators, places, entries, go, letter) else {
        return Ok(());
    };
    clear(generators, places, entries, go, letter, led);
    let to = target(led, go, keep);
    if let Some(there) = read(generators, places, entries, keep, letter) {
        pairs.push(Pair {
            left: there,
            right: to,
        })?;
        return Ok(());
    }
    if let Some(there) = read(generators, places, entries, to, letter.inverted()) {
        pairs.push(Pair {
            left: there,
            right: keep,
        })?;
        return Ok(());
    }
    set_entry(generators, places, entries, keep, letter, to);
    Ok(())
}

// Moves all entries of a row that goes.
fn move_row(
    generators: u32,
    places: u32,
    entries: &mut [u32],
    pairs: &mut Vec<Pair>,
    keep: u32,
    go: u32,
) -> Result<(), NoMemory>
    requires kept { IsKept generators places entries.old }
    requires keep { Stands (places_of (2 * generators) places entries.old) keep }
    requires go { Stands (places_of (2 * generators) places entries.old) go }
    requires lower { keep < go }
    ensures moved { OnOk result (Moved generators places keep go entries.old pairs.old.items
        entries.new pairs.new.items) }
    ensures bare { OnOk result ((i : ℕ) →
        cell_at (places_of (2 * generators) places entries.new) go i ≡ None) }
    ensures few { OnOk result (length pairs.new.items ≤ length pairs.old.items + 2 * generators) }
{
    for place in 0..2 * generators as usize {
        move_entry(
            generators,
            places,
            entries,
            pairs,
            keep,
            go,
            letter_at(place, generators),
        )?;
    }
    Ok(())
}

// Lets a row go to a lower one, which is put on the list of rows that have got entries.
fn merge(
    generators: u32,
    places: u32,
    entries: &mut [u32],
    pairs: &mut Vec<Pair>,
    touched: &mut Vec<u32>,
    keep: u32,
    go: u32,
) -> Result<(), NoMemory>
    requires kept { IsKept generators places entries.old }
    requires keep { Stands (places_of (2 * generators) places entries.old) keep }
    requires go { Stands (places_of (2 * generators) places entries.old) go }
    requires lower { keep < go }
    ensures leads { OnOk result (LeadsOn generators places entries.old
        (record { left = keep; right = go } ∷ pairs.old.items) entries.new pairs.new.items) }
    ensures less { OnOk result (left_to_do generators places entries.new pairs.new.items
        ≤ left_to_do generators places entries.old pairs.old.items) }
    ensures touched { OnOk result (Touched generators places entries.old entries.new
        touched.old.items touched.new.items) }
{
    touched.push(keep)?;
    move_row(generators, places, entries, pairs, keep, go)?;
    mark(generators, places, entries, keep, go);
    Ok(())
}

// Joins the rows of a pair, and puts on the list what then has to be joined too.
fn join_pair(
    generators: u32,
    places: u32,
    entries: &mut [u32],
    pairs: &mut Vec<Pair>,
    touched: &mut Vec<u32>,
    pair: Pair,
) -> Result<(), NoMemory>
    requires { SomeCollapse generators places (pair ∷ pairs.old.items) entries.old }
    ensures leads { OnOk result (LeadsOn generators places entries.old
        (pair ∷ pairs.old.items) entries.new pairs.new.items) }
    ensures less { OnOk result (left_to_do generators places entries.new pairs.new.items
        ≤ left_to_do generators places entries.old pairs.old.items) }
    ensures touched { OnOk result (Touched generators places entries.old entries.new
        touched.old.items touched.new.items) }
{
    let left = find(generators, places, entries, pair.left);
    let right = find(generators, places, entries, pair.right);
    if left < right {
        return merge(generators, places, entries, pairs, touched, left, right);
    }
    if right < left {
        return merge(generators, places, entries, pairs, touched, right, left);
    }
    Ok(())
}

// Joins the rows of all pairs, and what then has to be joined too.
pub(crate) fn collapse(
    generators: u32,
    places: u32,
    entries: &mut [u32],
    pairs: &mut Vec<Pair>,
    touched: &mut Vec<u32>,
) -> Result<(), NoMemory>
    requires { SomeCollapse generators places pairs.old.items entries.old }
    ensures leads { OnOk result
        (LeadsOn generators places entries.old pairs.old.items entries.new []) }
    ensures touched { OnOk result (Touched generators places entries.old entries.new
        touched.old.items touched.new.items) }
{
    while let Some(pair) = pairs.pop() {
        join_pair(generators, places, entries, pairs, touched, pair)?;
    }
    Ok(())
}
