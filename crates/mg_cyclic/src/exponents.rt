//! The exponent sums of words: beyond which generator a word has none, and what divides those of all goals.
ghost use Rattle.std.specs.Prelude.{◌≡◌, ℕ, ◌+◌, ◌-◌, ◌%◌, ◌^◌, ◌<◌, ◌≤◌, length, replicate, slice_index};
ghost use Rattle.std.specs.List.{AllByRecursion};
ghost use Rattle.mg_words.specs.Letter.{IsLetterOf};
ghost use Rattle.mg_words.specs.Word.{IsOver, letters_of};
ghost use Rattle.mg_numbers.specs.Residues.{ResidueTuple};
ghost use Rattle.mg_cyclic.specs.Map.{added_by_letter};
ghost use Rattle.mg_cyclic.specs.Exponents.{DependsOnFirst, VanishesWith, Tallies, IsTally, tallied, brought};

use mg_present::MOST_GENERATORS;
use mg_words::{Letter, Word};

/// How often each generator stands in a word, and how often its inverse.
#[derive(Debug, Drop)]
pub(crate) struct Tally {
    plus: [u64; MOST_GENERATORS as usize],
    minus: [u64; MOST_GENERATORS as usize],
}

impl Tally {
    /// Counts the letters of a word.
    pub(crate) fn of(word: &[Letter]) -> Tally
        requires { IsOver MOST_GENERATORS word.now }
        ensures tallies { Tallies result.plus result.minus word.now }
        ensures tally { IsTally (length word.now) result.plus result.minus }
    {
        let mut tally = Tally::none();
        for &letter in word {
            tally.count(letter);
        }
        tally
    }

    // The counts of the empty word.
    fn none() -> Tally
        ensures plus { result.plus ≡ replicate 64 0 }
        ensures minus { result.minus ≡ replicate 64 0 }
    {
        Tally {
            plus: [0; MOST_GENERATORS as usize],
            minus: [0; MOST_GENERATORS as usize],
        }
    }

    // Counts one letter more.
    fn count(&mut self, letter: Letter)
        requires letter { IsLetterOf MOST_GENERATORS letter }
        requires room { (n : ℕ) × (n < 2 ^ 63) × IsTally n self.old.plus self.old.minus }
        ensures adds { (t : ResidueTuple) → IsLetterOf (length t.residues) letter →
            length t.residues ≤ 64 → tallied t.modulus self.new.plus self.new.minus t.residues ≡
            tallied t.modulus self.old.plus self.old.minus t.residues + added_by_letter t letter }
        ensures tally { (n : ℕ) → IsTally n self.old.plus self.old.minus →
            IsTally (n + 1) self.new.plus self.new.minus }
    {
        let place = letter.generator as usize - 1;
        if letter.inverse {
            self.minus[place] += 1;
            return;
        }
        self.plus[place] += 1;
    }

    // The exponent sum of the generator at a place, from 0, without its sign.
    fn exponent(&self, place: usize) -> u64
        requires { place < MOST_GENERATORS }
        ensures { result ≡ slice_index self.now.plus place - slice_index self.now.minus place +
            (slice_index self.now.minus place - slice_index self.now.plus place) }
    {
        self.plus[place].abs_diff(self.minus[place])
    }

    /// What the generator at a place brings to the residue of the word where its residue is raised by one.
    pub(crate) fn brought(&self, place: usize, modulus: u32) -> u32
        requires there { place < MOST_GENERATORS }
        requires proper { 2 ≤ modulus }
        ensures { result ≡ brought modulus (slice_index self.now.plus place)
            (slice_index self.now.minus place) }
    {
        let modulus = u64::from(modulus);
        let rest = self.exponent(place) % modulus;
        if rest == 0 {
            return 0;
        }
        if self.plus[place] < self.minus[place] {
            return (modulus - rest) as u32;
        }
        rest as u32
    }
}

/// From which generator on, counted from 0, the word has no exponent sum.
pub(crate) fn reach_of(word: &[Letter], generators: u32) -> u32
    requires few { generators ≤ MOST_GENERATORS }
    requires over { IsOver generators word.now }
    ensures { DependsOnFirst generators result word.now }
{
    let tally = Tally::of(word);
    let mut reach = generators;
    while reach > 0 && tally.exponent(reach as usize - 1) == 0 {
        reach -= 1;
    }
    reach
}

/// The greatest number that divides all exponent sums of the words.
pub(crate) fn content_of(words: &[Word], generators: u32) -> u64
    requires few { generators ≤ MOST_GENERATORS }
    requires over { AllByRecursion (IsOver generators) (letters_of words.now) }
    ensures { AllByRecursion (VanishesWith generators result) (letters_of words.now) }
{
    let mut content = 0;
    for word in words {
        content = content_with(content, word.letters(), generators);
    }
    content
}

// The greatest number that divides this one and all exponent sums of the word.
fn content_with(content: u64, word: &[Letter], generators: u32) -> u64
    requires few { generators ≤ MOST_GENERATORS }
    requires over { IsOver generators word.now }
    ensures word { VanishesWith generators result word.now }
    ensures content { (n : ℕ) → 1 ≤ n → result % n ≡ 0 → content % n ≡ 0 }
{
    let tally = Tally::of(word);
    let mut common = content;
    for place in 0..generators as usize {
        common = common_divisor(common, tally.exponent(place));
    }
    common
}

// The greatest common divisor of two numbers.
fn common_divisor(left: u64, right: u64) -> u64
    ensures left { (n : ℕ) → 1 ≤ n → result % n ≡ 0 → left % n ≡ 0 }
    ensures right { (n : ℕ) → 1 ≤ n → result % n ≡ 0 → right % n ≡ 0 }
{
    let mut common = left;
    let mut rest = right;
    while rest > 0 {
        let less = common % rest;
        common = rest;
        rest = less;
    }
    common
}
