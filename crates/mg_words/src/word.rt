//! One word.
ghost use Rattle.std.specs.Prelude.{◌≡◌, ℕ, ℤ, neg_ℤ, ◌+◌, ◌<◌, ◌≤◌, ◌↔◌, IsTrue, List, [], ◌∷◌, ◌++◌, IfOk, OnOk, OnErr, length};
ghost use Rattle.std.proofs.Common.{rules};
ghost use Rattle.std.specs.Ordering.{as_partial_cmp, eq_by_cmp};
ghost use Rattle.std.specs.Cmp.{partial_order_from_own_ties};
ghost use Rattle.std.specs.Cmp.Rules.{comparing};
ghost use Rattle.mg_words.specs.Orders.{word_cmp, word_total};

use crate::letter::Letter;
use mg_lists::NoMemory;
use std::alloc::Global;
use std::cmp::Ordering;
use std::marker::Model;

/// A word: letters in order, with spare room. Copies, equality and order speak of the letters alone.
#[derive(Debug, Drop)]
pub struct Word {
    letters: Vec<Letter>,
}

impl Model for Word {
    ghost use Rattle.std.specs.Prelude.{vec_capacity};
    ghost use Rattle.mg_words.specs.Word.{Held};

    ghost Value = { Held };

    ghost view = { λ w. record { letters = w.letters.items; capacity = vec_capacity w.letters } };
}

impl Word {
    /// The empty word, which takes no memory.
    pub fn new(alloc: Global) -> Word
        ensures { result.letters ≡ [] }
    {
        Word {
            letters: Vec::new(alloc),
        }
    }

    /// The word of these letters.
    pub fn from_letters(alloc: Global, letters: &[Letter]) -> Result<Word, NoMemory>
        ensures { IfOk result (λ w. w.letters ≡ letters.now) }
    {
        Ok(Word {
            letters: Vec::from_slice(alloc, letters)?,
        })
    }

    /// Lends the letters in order.
    pub fn letters(&self) -> &[Letter]
        ensures { result.now ≡ self.now.letters }
    {
        self.letters.as_slice()
    }

    /// A word with the same letters.
    pub fn copy(&self, alloc: Global) -> Result<Word, NoMemory>
        ensures { IfOk result (λ w. w.letters ≡ self.now.letters) }
    {
        Word::from_letters(alloc, self.letters())
    }

    /// Makes the spare room at least `n` letters.
    pub fn reserve(&mut self, n: usize) -> Result<(), NoMemory>
        ensures room { OnOk result (length self.new.letters + n ≤ self.new.capacity) }
        ensures same { self.new.letters ≡ self.old.letters }
        ensures capacity { self.old.capacity ≤ self.new.capacity }
    {
        self.letters.reserve(n)?;
        Ok(())
    }

    /// Empties the word, and keeps its room.
    pub fn clear(&mut self)
        ensures empty { self.new.letters ≡ [] }
        ensures capacity { self.old.capacity ≤ self.new.capacity }
    {
        self.letters.clear();
    }

    /// Appends letters.
    pub fn push_all(&mut self, letters: &[Letter]) -> Result<(), NoMemory>
        ensures ok { OnOk result (self.new.letters ≡ self.old.letters ++ letters.now) }
        ensures err { OnErr result (self.new.letters ≡ self.old.letters) }
    {
        self.letters.extend_from_slice(letters)?;
        Ok(())
    }

    // The word of these letters.
    pub(crate) fn from_vec(letters: Vec<Letter>) -> Word
        ensures { result.letters ≡ letters.items }
    {
        Word { letters }
    }

    // Whether the last letter is the inverse of `x`.
    pub(crate) fn ends_with_inverse_of(&self, x: Letter) -> bool
        ensures { IsTrue result ↔ ((rest : List ℤ) × (self.now.letters ≡ rest ++ neg_ℤ x ∷ [])) }
    {
        match self.letters.last() {
            Some(last) => last.undoes(x),
            None => false,
        }
    }

    // Takes the last letter away.
    pub(crate) fn drop_last(&mut self)
        requires { 0 < length self.old.letters }
        ensures rest { (x : ℤ) × (self.old.letters ≡ self.new.letters ++ x ∷ []) }
        ensures capacity { self.old.capacity ≤ self.new.capacity }
    {
        let _ = self.letters.pop();
    }

    // Appends a letter, for which there is room.
    pub(crate) fn append(&mut self, x: Letter)
        requires { length self.old.letters + 1 ≤ self.old.capacity }
        ensures letters { self.new.letters ≡ self.old.letters ++ x ∷ [] }
        ensures capacity { self.old.capacity ≤ self.new.capacity }
    {
        match self.letters.push(x) {
            Ok(()) => {}
            Err(_) => unreachable!(),
        }
    }
}

impl PartialEq for Word {
    ghost eq = { eq_by_cmp word_cmp };

    ghost laws = { Prim.search (word_total, comparing, rules) };

    fn eq(&self, other: &Word) -> bool {
        self.cmp(other).is_eq()
    }
}

impl Eq for Word {
    ghost laws = { Prim.search (word_total, comparing, rules) };
}

impl PartialOrd for Word {
    ghost partial_cmp = { as_partial_cmp word_cmp };

    ghost laws = { partial_order_from_own_ties (Prim.search (word_total, comparing, rules))
        (Prim.search (comparing, rules)) };

    fn partial_cmp(&self, other: &Word) -> Option<Ordering> {
        Some(self.cmp(other))
    }
}

impl Ord for Word {
    ghost cmp = { word_cmp };

    ghost total = { word_total };

    ghost matches_partial_cmp = { Prim.search (comparing, rules) };

    ghost matches_eq = { Prim.search (comparing, rules) };

    fn cmp(&self, other: &Word) -> Ordering {
        self.letters().cmp(other.letters())
    }
}
