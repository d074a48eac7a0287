//! Inverses, products, commutators and powers, written out and not reduced.
ghost use Rattle.std.specs.Prelude.{◌≡◌, ℕ, ◌+◌, ◌*◌, ◌^◌, ◌<◌, ◌≤◌, [], ◌∷◌, ◌++◌, IfOk, OnOk, length, nat_abs};
ghost use Rattle.mg_words.specs.Word.{inv, times, power_of, commutator_of};

use crate::letter::Letter;
use crate::limits::{MOST_EXPONENT, MOST_POWER_LETTERS};
use crate::word::Word;
use mg_lists::NoMemory;
use std::alloc::Global;
use thiserror::Error;

/// Why there is no power.
#[derive(Clone, Copy, Debug, PartialEq, Eq, Error)]
pub enum WordFault {
    /// The power would have this many letters, which is more than [`MOST_POWER_LETTERS`].
    #[error("a power of {length} letters is too long")]
    TooLong {
        /// The length of the word times the size of the exponent.
        length: u128,
    },
    /// Want of memory.
    #[error("no memory")]
    NoMemory,
}

impl From<NoMemory> for WordFault {
    ghost use Rattle.mg_words.specs.declared.operations.WordFault.TheVariants.{NoMemory};

    ghost from_gives = { λ _ fault. fault ≡ NoMemory };

    fn from(_: NoMemory) -> WordFault {
        WordFault::NoMemory
    }
}

/// The inverse of a word: reversed, with every letter inverted.
pub fn inverse(alloc: Global, w: &Word) -> Result<Word, NoMemory>
    ensures { IfOk result (λ v. v.letters ≡ inv w.now.letters) }
{
    let letters = inverted(alloc, w.letters())?;
    Ok(Word::from_vec(letters))
}

// The letters in the other order, each of them inverted.
fn inverted(alloc: Global, letters: &[Letter]) -> Result<Vec<Letter>, NoMemory>
    ensures { IfOk result (λ v. v.items ≡ inv letters.now) }
{
    letters.iter().rev().map(|x| x.inverted()).collect(alloc)
}

/// The product of two words: the letters of one and then those of the other.
pub fn concat(alloc: Global, u: &Word, v: &Word) -> Result<Word, NoMemory>
    ensures { IfOk result (λ w. w.letters ≡ u.now.letters ++ v.now.letters) }
{
    let mut product = Word::new(alloc);
    product.push_all(u.letters())?;
    product.push_all(v.letters())?;
    Ok(product)
}

/// The commutator of two words, `u^-1 v^-1 u v`.
pub fn commutator(alloc: Global, u: &Word, v: &Word) -> Result<Word, NoMemory>
    ensures { IfOk result (λ w. w.letters ≡ commutator_of u.now.letters v.now.letters) }
{
    let mut word = inverse(alloc, u)?;
    let back = inverse(alloc, v)?;
    word.push_all(back.letters())?;
    word.push_all(u.letters())?;
    word.push_all(v.letters())?;
    Ok(word)
}

/// The word written `k` times, or its inverse `-k` times. It is refused where that would have more
/// than [`MOST_POWER_LETTERS`] letters.
pub fn power(alloc: Global, w: &Word, k: i64) -> Result<Word, WordFault>
    requires { nat_abs k ≤ MOST_EXPONENT }
    ensures power { IfOk result (λ v. v.letters ≡ power_of k w.now.letters) }
    ensures fits { OnOk result (length w.now.letters * nat_abs k ≤ MOST_POWER_LETTERS) }
    ensures too_long { (n : ℕ) → result ≡ Err (WordFault.TooLong n) →
        (n ≡ length w.now.letters * nat_abs k) × (MOST_POWER_LETTERS < n) }
{
    let count = k.unsigned_abs();
    let length = w.letters().len() as u128 * u128::from(count);
    if length > MOST_POWER_LETTERS as u128 {
        return Err(WordFault::TooLong { length });
    }
    if k < 0 {
        let back = inverse(alloc, w)?;
        Ok(repeat(alloc, &back, count)?)
    } else {
        Ok(repeat(alloc, w, count)?)
    }
}

// The word written `count` times; one loop step for each time, unless the word is empty.
fn repeat(alloc: Global, w: &Word, count: u64) -> Result<Word, NoMemory>
    ensures { IfOk result (λ v. v.letters ≡ times count w.now.letters) }
{
    let mut word = Word::new(alloc);
    if w.letters().is_empty() {
        return Ok(word);
    }
    for _i in 0..count {
        word.push_all(w.letters())?;
    }
    Ok(word)
}
