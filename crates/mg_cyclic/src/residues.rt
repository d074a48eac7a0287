//! Maps to residues as values.
ghost use Rattle.std.specs.Prelude.{◌≡◌, ◌+◌, ◌%◌, ◌^◌, ◌≤◌, ◌<◌, false, IsTrue, IfOk, All, length, replicate, slice_index, set};
ghost use Rattle.mg_words.specs.Letter.{IsLetterOf};
ghost use Rattle.mg_words.specs.Word.{IsOver};
ghost use Rattle.mg_numbers.specs.Residues.{IsResidueTuple};
ghost use Rattle.mg_cyclic.specs.Map.{added_by_letter, residue_of_word};
ghost use Rattle.mg_cyclic.specs.Number.{IsNumbered};

use mg_numbers::{MOST_NUMBER, residue_block, residues_of};
use mg_present::MOST_GENERATORS;
use mg_words::{Letter, NoMemory};
use std::alloc::Global;
use std::marker::Model;

/// A modulus, at least 2, and a residue for each generator.
#[derive(Debug, Drop)]
pub struct Residues {
    modulus: u32,
    images: Vec<u32>,
}

impl Model for Residues {
    ghost use Rattle.std.specs.Prelude.{length};
    ghost use Rattle.mg_numbers.specs.Residues.{ResidueTuple, IsResidueTuple};

    ghost Value = { ResidueTuple };

    ghost view = { λ r. record { modulus = r.modulus; residues = r.images.items } };

    ghost invariant = { λ r. IsResidueTuple (length r.images.items)
        (record { modulus = r.modulus; residues = r.images.items }) };
}

impl Residues {
    /// The map that takes the generators to these residues.
    pub fn from_images(alloc: Global, modulus: u32, images: &[u32]) -> Result<Residues, NoMemory>
        requires proper { 2 ≤ modulus }
        requires below { All (λ x. x < modulus) images.now }
        ensures { IfOk result (λ map. map ≡ record { modulus = modulus; residues = images.now }) }
    {
        Ok(Residues {
            modulus,
            images: Vec::from_slice(alloc, images)?,
        })
    }

    /// The map that takes so many generators to 0 modulo 2, which has number 1.
    pub fn all_zero(alloc: Global, generators: u32) -> Result<Residues, NoMemory>
        requires { generators ≤ MOST_GENERATORS }
        ensures { IfOk result (λ map.
            map ≡ record { modulus = 2; residues = replicate generators 0 }) }
    {
        let zeros = [0; MOST_GENERATORS as usize];
        Residues::from_images(alloc, 2, &zeros[..generators as usize])
    }

    /// The modulus.
    pub fn modulus(&self) -> u32
        ensures value { result ≡ self.now.modulus }
        ensures residues { IsResidueTuple (length self.now.residues) self.now }
    {
        self.modulus
    }

    /// Lends the residues of the generators.
    pub fn images(&self) -> &[u32]
        ensures value { result.now ≡ self.now.residues }
        ensures residues { IsResidueTuple (length self.now.residues) self.now }
    {
        self.images.as_slice()
    }

    /// The same map.
    pub fn copy(&self, alloc: Global) -> Result<Residues, NoMemory>
        ensures { IfOk result (λ map. map ≡ self.now) }
    {
        Residues::from_images(alloc, self.modulus(), self.images())
    }

    /// Puts the map of as many generators that has this number. It takes no memory.
    pub fn put_number(&mut self, number: u64)
        requires from_one { 1 ≤ number }
        requires up_to { number ≤ MOST_NUMBER }
        requires some { 1 ≤ length self.old.residues }
        requires few { length self.old.residues ≤ MOST_GENERATORS }
        ensures { IsNumbered (length self.old.residues) self.new number }
    {
        let block = residue_block(number, self.images.len() as u32);
        self.modulus = block.size;
        residues_of(block.index, block.size, &mut self.images);
    }

    // Raises the residue at a place by one, and the last one to 0; whether it wasn't the last one.
    pub(crate) fn raise(&mut self, place: usize) -> bool
        requires { place < length self.old.residues }
        ensures up { IsTrue result →
            slice_index self.old.residues place + 1 < self.old.modulus }
        ensures raised { IsTrue result → self.new ≡ record {
          modulus = self.old.modulus;
          residues = set self.old.residues place (slice_index self.old.residues place + 1);
        } }
        ensures last { result ≡ false →
            slice_index self.old.residues place + 1 ≡ self.old.modulus }
        ensures around { result ≡ false → self.new ≡ record {
          modulus = self.old.modulus;
          residues = set self.old.residues place 0;
        } }
    {
        let above = self.images[place] + 1;
        if above < self.modulus {
            self.images[place] = above;
            return true;
        }
        self.images[place] = 0;
        false
    }

    // Goes to the next modulus with the same residues.
    pub(crate) fn enlarge(&mut self)
        requires { self.old.modulus + 1 < 2 ^ 32 }
        ensures { self.new ≡ record {
          modulus = self.old.modulus + 1;
          residues = self.old.residues;
        } }
    {
        self.modulus += 1;
    }

    // The residue of a word.
    #[tactic(auto, using(crate::proofs::Sums::residue_more))]
    pub(crate) fn residue(&self, word: &[Letter]) -> u32
        requires { IsOver (length self.now.residues) word.now }
        ensures { result ≡ residue_of_word self.now word.now }
    {
        let mut residue = 0;
        for &letter in word {
            residue = self.sum(residue, self.added(letter));
        }
        residue
    }

    // The sum of two numbers, modulo the modulus.
    fn sum(&self, left: u32, right: u32) -> u32
        ensures { result ≡ (left + right) % self.now.modulus }
    {
        ((u64::from(left) + u64::from(right)) % u64::from(self.modulus)) as u32
    }

    // What a letter adds.
    fn added(&self, letter: Letter) -> u32
        requires { IsLetterOf (length self.now.residues) letter }
        ensures { result ≡ added_by_letter self.now letter }
    {
        let residue = self.images[letter.generator as usize - 1];
        if letter.inverse {
            self.modulus - residue
        } else {
            residue
        }
    }
}
