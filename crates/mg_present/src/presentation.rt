//! Presentations of groups.
ghost use Rattle.std.specs.Prelude.{◌≡◌, ◌<◌, ◌≤◌, ◌↔◌, [], IfOk, IsTrue, slice_get, Some, length};
ghost use Rattle.std.specs.List.{AllByRecursion};
ghost use Rattle.mg_words.specs.Word.{letters_of};
ghost use Rattle.mg_present.specs.Presentation.{Fits, IsRelator};

use mg_words::{MOST_PLACE, MOST_POWER_LETTERS, NoMemory, Word, Words, is_over, is_reduced};
use std::alloc::Global;
use std::marker::Model;

/// How many generators a presentation may have.
pub const MOST_GENERATORS: u32 = MOST_PLACE as u32;

/// How many relators a presentation may have.
pub const MOST_RELATORS: usize = 256;

/// How many letters a relator may have.
pub const MOST_RELATOR_LETTERS: usize = MOST_POWER_LETTERS;

/// Whether a presentation may have this many generators and these relators.
pub fn fits(generators: u32, relators: &Words) -> bool
    ensures { IsTrue result ↔ Fits generators relators.now }
{
    let few = generators <= MOST_GENERATORS && relators.len() <= MOST_RELATORS;
    few && are_relators(generators, relators.as_slice())
}

/// Whether each word may be a relator.
fn are_relators(generators: u32, words: &[Word]) -> bool
    ensures { IsTrue result ↔ AllByRecursion (IsRelator generators) (letters_of words.now) }
{
    for w in words {
        if !is_relator(generators, w) {
            return false;
        }
    }
    true
}

/// Whether the word may be a relator.
fn is_relator(generators: u32, w: &Word) -> bool
    ensures { IsTrue result ↔ IsRelator generators w.now.letters }
{
    w.letters().len() <= MOST_RELATOR_LETTERS && is_over(generators, w) && is_reduced(w)
}

/// A group by generators and relators. The generators are the letters x1, x2 and so on; they have no
/// names here. Presentations are compared by their whole content.
#[derive(Debug, PartialEq, Eq, PartialOrd, Ord, Drop)]
pub struct Presentation {
    generators: u32,
    relators: Words,
}

impl Model for Presentation {
    ghost use Rattle.mg_present.specs.Presentation.{Group, IsPresented};

    ghost Value = { Group };

    ghost view = { λ a. record { generators = a.generators; relators = a.relators } };

    ghost invariant = { λ a. IsPresented (record { generators = a.generators; relators = a.relators }) };

    ghost inverse = { λ group. record { generators = group.generators; relators = group.relators } };
}

impl Presentation {
    ghost use Rattle.mg_present.specs.Presentation.{IsPresented};

    /// The presentation with this many generators and these relators.
    pub fn new(generators: u32, relators: Words) -> Presentation
        requires { Fits generators relators }
        ensures generators { result.generators ≡ generators }
        ensures relators { result.relators ≡ relators }
    {
        Presentation {
            generators,
            relators,
        }
    }

    /// The presentation without relators.
    pub fn free(alloc: Global, generators: u32) -> Presentation
        requires { generators ≤ MOST_GENERATORS }
        ensures generators { result.generators ≡ generators }
        ensures relators { result.relators ≡ [] }
    {
        Presentation::new(generators, Words::new(alloc))
    }

    /// How many generators there are.
    pub fn generators(&self) -> u32
        ensures value { result ≡ self.now.generators }
        ensures fits { IsPresented self.now }
    {
        self.generators
    }

    /// The relators.
    pub fn relators(&self) -> &Words
        ensures value { result.now ≡ self.now.relators }
        ensures fits { IsPresented self.now }
    {
        &self.relators
    }

    /// The relator at a place, from 0.
    pub fn relator(&self, place: usize) -> &Word
        requires { place < length self.now.relators }
        ensures { slice_get self.now.relators place ≡ Some result.now.letters }
    {
        self.relators.at(place)
    }

    /// The same presentation.
    pub fn copy(&self, alloc: Global) -> Result<Presentation, NoMemory>
        ensures { IfOk result (λ group. group ≡ self.now) }
    {
        Ok(Presentation {
            generators: self.generators,
            relators: self.relators.copy(alloc)?,
        })
    }
}
