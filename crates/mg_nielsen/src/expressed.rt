//! Words with expressions in the subgroup words.
ghost use Rattle.std.specs.Prelude.{◌≡◌, ◌++◌, List, [], ℤ, IfOk, IsTrue, ◌↔◌};
ghost use Rattle.mg_words.specs.Word.{inv};
ghost use Rattle.mg_words.specs.Reduction.{free_form};
ghost use Rattle.mg_present.specs.Same.{signed};
ghost use Rattle.mg_nielsen.specs.Expressed.{turned, times};
ghost use Rattle.mg_nielsen.specs.Moves.{peeled, trimmed};

use mg_core::NoMemory;
use mg_words::{Letter, Word, inverse, reduce};
use std::alloc::Global;
use std::marker::Model;

/// A word, its inverse, and a list of signs. A sign is a letter whose generator is the place of a subgroup word.
#[derive(Debug, Drop)]
pub(crate) struct Expressed {
    word: Word,
    back: Word,
    signs: Word,
}

impl Model for Expressed {
    ghost use Rattle.std.specs.Prelude.{◌≡◌};
    ghost use Rattle.mg_words.specs.Word.{inv};
    ghost use Rattle.mg_nielsen.specs.Expressed.{Expressed};

    ghost Value = { Expressed };

    ghost view = { λ e. record { word = e.word.letters; signs = e.signs.letters } };

    ghost invariant = { λ e. e.back.letters ≡ inv e.word.letters };
}

impl Expressed {
    /// The word with these signs.
    pub(crate) fn new(alloc: Global, word: Word, signs: Word) -> Result<Expressed, NoMemory>
        ensures word { IfOk result (λ e. e.word ≡ word.letters) }
        ensures signs { IfOk result (λ e. e.signs ≡ signs.letters) }
    {
        let back = inverse(alloc, &word)?;
        Ok(Expressed { word, back, signs })
    }

    /// The letters of the word, or of its inverse.
    pub(crate) fn letters(&self, inverse: bool) -> &[Letter]
        ensures { result.now ≡ (turned inverse self.now).word }
    {
        if inverse {
            self.back.letters()
        } else {
            self.word.letters()
        }
    }

    /// The signs.
    pub(crate) fn signs(&self) -> &[Letter]
        ensures { result.now ≡ self.now.signs }
    {
        self.signs.letters()
    }

    /// Whether the word is empty.
    pub(crate) fn is_empty(&self) -> bool
        ensures { IsTrue result ↔ (self.now.word ≡ []) }
    {
        self.word.letters().is_empty()
    }

    /// Itself or its inverse.
    pub(crate) fn turned(&self, alloc: Global, inverse: bool) -> Result<Expressed, NoMemory>
        ensures { IfOk result (λ e. e ≡ turned inverse self.now) }
    {
        if inverse {
            Expressed::new(
                alloc,
                self.back.copy(alloc)?,
                mg_words::inverse(alloc, &self.signs)?,
            )
        } else {
            Expressed::new(alloc, self.word.copy(alloc)?, self.signs.copy(alloc)?)
        }
    }

    /// The product.
    pub(crate) fn times(&self, alloc: Global, other: &Expressed) -> Result<Expressed, NoMemory>
        ensures { IfOk result (λ e. e ≡ times self.now other.now) }
    {
        let word = product(alloc, &self.word, &other.word)?;
        let signs = product(alloc, &self.signs, &other.signs)?;
        Expressed::new(alloc, word, signs)
    }

    /// Itself, as the rest of a goal, peeled by a factor.
    pub(crate) fn peeled(&self, alloc: Global, factor: &Expressed) -> Result<Expressed, NoMemory>
        ensures { IfOk result (λ e. e ≡ peeled factor.now self.now) }
    {
        let word = product(alloc, &factor.back, &self.word)?;
        let signs = product(alloc, &self.signs, &factor.signs)?;
        Expressed::new(alloc, word, signs)
    }

    /// Itself without signs where it is empty.
    pub(crate) fn trimmed(mut self, alloc: Global) -> Expressed
        ensures { result ≡ trimmed self }
    {
        if self.word.letters().is_empty() {
            self.signs = Word::new(alloc);
        }
        self
    }
}

/// The freely reduced product.
fn product(alloc: Global, u: &Word, v: &Word) -> Result<Word, NoMemory>
    ensures { IfOk result (λ w. w.letters ≡ free_form (u.now.letters ++ v.now.letters)) }
{
    let both = mg_words::concat(alloc, u, v)?;
    reduce(alloc, &both)
}
