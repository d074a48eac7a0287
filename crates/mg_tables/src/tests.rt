//! A table of two rows, and each public call once.
ghost use Rattle.std.specs.Prelude.{◌≡◌, IfOk, IsTrue};
ghost use Rattle.std.specs.List.{AllByRecursion};
ghost use Rattle.mg_words.specs.Letter.{IsLetterOf};
ghost use Rattle.mg_words.specs.Word.{IsOver, letters_of};

use super::*;
use mg_present::{Presentation, fits};
use mg_words::{Letter, Word, Words, is_over};
use std::alloc::Global;
use std::test::Fail;

const A: Letter = Letter {
    generator: 1,
    inverse: false,
};

/// Appends a row to which a letter leads from a row, unless it leads somewhere.
fn lead(table: &mut CosetTable, from: u32, letter: Letter) -> Result<bool, NoMemory>
    requires letter { IsLetterOf table.old.generators letter }
    ensures generators { table.new.generators ≡ table.old.generators }
{
    if !table.stands(from) || table.places() >= MOST_PLACES || table.entry(from, letter).is_some() {
        return Ok(false);
    }
    let _ = table.add_row(from, letter)?;
    Ok(true)
}

/// Lets a letter lead from a row to a row, unless one of the entries is there.
fn bind(table: &mut CosetTable, from: u32, letter: Letter, to: u32) -> bool
    requires letter { IsLetterOf table.old.generators letter }
    ensures generators { table.new.generators ≡ table.old.generators }
{
    if !table.stands(from) || !table.stands(to) || table.entry(from, letter).is_some() {
        return false;
    }
    if table.entry(to, letter.inverted()).is_some() {
        return false;
    }
    table.fill(from, letter, to);
    true
}

/// Whether a word forces this at row 0.
fn forces(table: &CosetTable, word: &[Letter], forced: Forced) -> bool
    requires over { IsOver table.now.generators word.now }
{
    table.stands(0) && table.scan(word, 0) == forced
}

/// The table of one generator in which `a` leads from row 0 to row 1.
fn two_rows(alloc: Global) -> Result<CosetTable, NoMemory>
    ensures { IfOk result (λ table. table.generators ≡ 1) }
{
    let mut table = CosetTable::new(alloc, 1)?;
    let _ = lead(&mut table, 0, A)?;
    Ok(table)
}

/// There `a` forces the rows to be joined, `a^2` an entry and `a^3` nothing.
fn three_powers(alloc: Global) -> Result<bool, NoMemory> {
    let table = two_rows(alloc)?;
    Ok(
        forces(&table, &[A], Forced::Rows(1, 1, 0))
            && forces(&table, &[A, A], Forced::Entry(1, 1, 0))
            && forces(&table, &[A, A, A], Forced::Nothing),
    )
}

/// With the entry that `a^2` forces it forces nothing.
fn closed(alloc: Global) -> Result<bool, NoMemory> {
    let mut table = two_rows(alloc)?;
    Ok(bind(&mut table, 1, A, 0) && forces(&table, &[A, A], Forced::Nothing))
}

/// Joined, the two rows are one, to which `a` leads back.
fn joined(alloc: Global) -> Result<bool, NoMemory> {
    let table = two_rows(alloc)?;
    if !table.stands(0) || !table.stands(1) {
        return Ok(false);
    }
    let mut touched = Vec::new(alloc);
    let table = table.join(alloc, 0, 1, &mut touched)?;
    Ok(!table.stands(1) && forces(&table, &[A], Forced::Nothing))
}

const B: Letter = Letter {
    generator: 2,
    inverse: false,
};

/// The word of one letter so many times.
fn push_power(words: &mut Words, alloc: Global, letters: &[Letter]) -> Result<(), NoMemory> {
    words.push(Word::from_letters(alloc, letters)?)
}

/// How many units an enumeration takes, and the rows to which the generators lead, where no entry is empty in the
/// end.
fn run(
    alloc: Global,
    generators: u32,
    relators: Words,
    subgroup: Words,
) -> Result<Option<(u64, Vec<u32>)>, NoMemory> {
    if generators < 1 || !fits(generators, &relators) {
        return Ok(None);
    }
    if !are_over(generators, subgroup.as_slice()) {
        return Ok(None);
    }
    let group = Presentation::new(generators, relators);
    let mut enumeration = CosetEnumeration::start(alloc, group, subgroup)?;
    for _ in 0..400 {
        if enumeration.is_complete() {
            let images = enumeration.images(alloc)?;
            return Ok(Some((enumeration.units(), images)));
        }
        if !enumeration.fits_one_more() {
            return Ok(None);
        }
        enumeration = enumeration.make_row(alloc)?;
    }
    Ok(None)
}

/// Whether each word is one over the generators.
fn are_over(generators: u32, words: &[Word]) -> bool
    ensures { IsTrue result → AllByRecursion (IsOver generators) (letters_of words.now) }
{
    for w in words {
        if !is_over(generators, w) {
            return false;
        }
    }
    true
}

/// The relators of the symmetric group on three points: a^2, b^3 and (a b)^2.
fn s3(alloc: Global) -> Result<Words, NoMemory> {
    let mut words = Words::new(alloc);
    push_power(&mut words, alloc, &[A, A])?;
    push_power(&mut words, alloc, &[B, B, B])?;
    push_power(&mut words, alloc, &[A, B, A, B])?;
    Ok(words)
}

/// Whether an enumeration ends with so many units and these images.
fn ends(found: &Option<(u64, Vec<u32>)>, units: u64, images: &[u32]) -> bool {
    match found {
        Some((spent, list)) => *spent == units && list.as_slice() == images,
        None => false,
    }
}

/// The cosets of the trivial subgroup of S3.
fn s3_over_nothing(alloc: Global) -> Result<bool, NoMemory> {
    let found = run(alloc, 2, s3(alloc)?, Words::new(alloc))?;
    Ok(ends(&found, 5, &[1, 0, 5, 4, 3, 2, 2, 4, 3, 0, 5, 1]))
}

/// The cosets of the subgroup of S3 that a generates.
fn s3_over_a(alloc: Global) -> Result<bool, NoMemory> {
    let mut subgroup = Words::new(alloc);
    push_power(&mut subgroup, alloc, &[A])?;
    let found = run(alloc, 2, s3(alloc)?, subgroup)?;
    Ok(ends(&found, 2, &[0, 2, 1, 1, 2, 0]))
}

/// The cosets of the subgroup that a^3 and a^5 generate: a collapse.
fn coprime_powers(alloc: Global) -> Result<bool, NoMemory> {
    let mut subgroup = Words::new(alloc);
    push_power(&mut subgroup, alloc, &[A, A, A])?;
    push_power(&mut subgroup, alloc, &[A, A, A, A, A])?;
    let found = run(alloc, 1, Words::new(alloc), subgroup)?;
    Ok(ends(&found, 2, &[0]))
}

/// The cosets of the subgroup that a^6 and a^9 generate.
fn six_and_nine(alloc: Global) -> Result<bool, NoMemory> {
    let mut subgroup = Words::new(alloc);
    push_power(&mut subgroup, alloc, &[A, A, A, A, A, A])?;
    push_power(&mut subgroup, alloc, &[A, A, A, A, A, A, A, A, A])?;
    let found = run(alloc, 1, Words::new(alloc), subgroup)?;
    Ok(ends(&found, 5, &[1, 2, 0]))
}

#[test]
fn the_regular_action(rt: HostRuntime) -> Result<(), Fail> {
    assert!(rt; s3_over_nothing(rt.alloc())?);
    Ok(())
}

#[test]
fn three_cosets(rt: HostRuntime) -> Result<(), Fail> {
    assert!(rt; s3_over_a(rt.alloc())?);
    Ok(())
}

#[test]
fn all_rows_are_joined(rt: HostRuntime) -> Result<(), Fail> {
    assert!(rt; coprime_powers(rt.alloc())?);
    Ok(())
}

#[test]
fn some_rows_are_joined(rt: HostRuntime) -> Result<(), Fail> {
    assert!(rt; six_and_nine(rt.alloc())?);
    Ok(())
}

#[test]
fn powers_force(rt: HostRuntime) -> Result<(), Fail> {
    assert!(rt; three_powers(rt.alloc())?);
    Ok(())
}

#[test]
fn an_entry_closes(rt: HostRuntime) -> Result<(), Fail> {
    assert!(rt; closed(rt.alloc())?);
    Ok(())
}

#[test]
fn two_rows_are_joined(rt: HostRuntime) -> Result<(), Fail> {
    assert!(rt; joined(rt.alloc())?);
    Ok(())
}
