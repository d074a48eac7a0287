//! Words with the residues to which they sum at the map of a walk, which are kept while the map changes.
ghost use Rattle.std.specs.Prelude.{◌≡◌, ℕ, ℤ, List, ◌+◌, ◌%◌, ◌<◌, ◌≤◌, IfOk, IsTrue, length, replicate, slice_index};
ghost use Rattle.std.specs.List.{AllByRecursion};
ghost use Rattle.mg_words.specs.Word.{IsOver, letters_of};
ghost use Rattle.mg_numbers.specs.Residues.{ResidueTuple};
ghost use Rattle.mg_cyclic.specs.Exponents.{brought};
ghost use Rattle.mg_cyclic.specs.Kept.{IsKept, Keep, IsRaised, IsRenewed, IsNextOne};
ghost use Rattle.mg_cyclic.specs.Walk.{Breaks};

use crate::exponents::{Tally, reach_of};
use mg_present::MOST_GENERATORS;
use mg_words::{Letter, NoMemory, Word};
use std::alloc::Global;

/// What is kept of a word.
#[derive(Debug, Drop)]
pub(crate) struct Kept {
    /// How often each generator stands in it.
    tally: Tally,
    /// On how many of the first residues it depends.
    reach: u32,
    /// What each generator brings to its sum where the residue of the generator is raised by one.
    steps: [u32; MOST_GENERATORS as usize],
    /// To what it sums at the map of the walk.
    sum: u32,
}

impl Kept {
    // What is kept of a word at the map that takes all generators to 0 modulo 2.
    fn of(word: &[Letter], generators: u32) -> Kept
        requires few { generators ≤ 64 }
        requires over { IsOver generators word.now }
        ensures { IsKept
            (record { modulus = 2; residues = replicate generators 0 }) word.now result }
    {
        let tally = Tally::of(word);
        let steps = steps_at(&tally, 2);
        Kept {
            tally,
            reach: reach_of(word, generators),
            steps,
            sum: 0,
        }
    }

    // Goes with the map to that where the residue of the generator at a place is one more.
    fn raise(&mut self, place: usize, modulus: u32)
        requires there { place < 64 }
        ensures { IsRaised modulus place self.old self.new }
    {
        self.sum = added(self.sum, self.steps[place], modulus);
    }

    // Goes with a map that takes all generators to 0 to another modulus.
    fn renew(&mut self, modulus: u32)
        requires proper { 2 ≤ modulus }
        ensures { IsRenewed modulus self.old self.new }
    {
        self.steps = steps_at(&self.tally, modulus);
    }
}

// The sum of two residues.
fn added(residue: u32, step: u32, modulus: u32) -> u32
    ensures { residue < modulus → step < modulus → result ≡ (residue + step) % modulus }
{
    let left = modulus.saturating_sub(step);
    if residue < left {
        return residue + step;
    }
    residue - left
}

// What each generator brings to the residue of a word with these counts.
fn steps_at(tally: &Tally, modulus: u32) -> [u32; MOST_GENERATORS as usize]
    requires proper { 2 ≤ modulus }
    ensures { (place : ℕ) → place < MOST_GENERATORS → slice_index result place ≡
        brought modulus (slice_index tally.now.plus place) (slice_index tally.now.minus place) }
{
    let mut steps = [0; MOST_GENERATORS as usize];
    for place in 0..MOST_GENERATORS as usize {
        steps[place] = tally.brought(place, modulus);
    }
    steps
}

/// What is kept of each word at the map that takes all generators to 0 modulo 2.
pub(crate) fn kept_of(alloc: Global, words: &[Word], generators: u32) -> Result<Vec<Kept>, NoMemory>
    requires few { generators ≤ 64 }
    requires over { AllByRecursion (IsOver generators) (letters_of words.now) }
    ensures { IfOk result (λ rows. Keep (letters_of words.now)
        (record { modulus = 2; residues = replicate generators 0 }) rows.items) }
{
    let mut rows = Vec::with_capacity(alloc, words.len())?;
    for word in words {
        rows.push(Kept::of(word.letters(), generators))?;
    }
    Ok(rows)
}

/// Goes with the map to that where the residue of the generator at a place is one more, or 0 behind the last.
pub(crate) fn raise_all(rows: &mut [Kept], place: usize, modulus: u32)
    requires there { place < 64 }
    ensures { (words : List (List ℤ)) → (s t : ResidueTuple) → s.modulus ≡ modulus →
        length s.residues ≤ 64 → IsNextOne place s t →
        Keep words s rows.old → Keep words t rows.new }
{
    for row in rows.iter_mut() {
        row.raise(place, modulus);
    }
}

/// Goes with a map that takes all generators to 0 to another modulus.
pub(crate) fn renew_all(rows: &mut [Kept], modulus: u32)
    requires proper { 2 ≤ modulus }
    ensures { (words : List (List ℤ)) → (s t : ResidueTuple) → (generators : ℕ) → generators ≤ 64 →
        s.residues ≡ replicate generators 0 →
        t ≡ record { modulus = modulus; residues = s.residues } →
        Keep words s rows.old → Keep words t rows.new }
{
    for row in rows.iter_mut() {
        row.renew(modulus);
    }
}

/// Whether a word that depends on so many of the first residues alone doesn't sum to 0.
pub(crate) fn breaks(rows: &[Kept], level: usize) -> bool
    ensures { (words : List (List ℤ)) → (map : ResidueTuple) → Keep words map rows.now →
        IsTrue result → Breaks words level map }
{
    for row in rows {
        if row.reach as usize == level && row.sum != 0 {
            return true;
        }
    }
    false
}
