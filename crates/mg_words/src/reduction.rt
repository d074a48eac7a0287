//! Free reduction and free equality.
ghost use Rattle.std.specs.Prelude.{◌≡◌, ℕ, ◌+◌, ◌≤◌, ◌↔◌, List, [], ◌∷◌, ◌++◌, IfOk, OnOk, IsTrue, length, neg_ℤ, ℤ};
ghost use Rattle.mg_words.specs.Word.{IsOver, IsReduced};
ghost use Rattle.mg_words.specs.Chain.{FreelyEqual};
ghost use Rattle.mg_words.specs.Reduction.{IsFormOf, PushesReduced, free_form};

use crate::letter::Letter;
use crate::word::Word;
use mg_lists::NoMemory;
use std::alloc::Global;

/// Multiplies a reduced word by a letter: removes the last letter where that is the inverse of `x`,
/// and else appends `x`. It takes no memory.
pub fn push_reduced(w: &mut Word, x: Letter)
    requires reduced { IsReduced w.old.letters }
    requires room { length w.old.letters + 1 ≤ w.old.capacity }
    ensures pushed { PushesReduced w.old.letters x w.new.letters }
    ensures reduced { IsReduced w.new.letters }
    ensures capacity { w.old.capacity ≤ w.new.capacity }
{
    if w.ends_with_inverse_of(x) {
        w.drop_last();
    } else {
        w.append(x);
    }
}

/// The freely reduced form of a word.
pub fn reduce(alloc: Global, w: &Word) -> Result<Word, NoMemory>
    ensures form { IfOk result (λ v. v.letters ≡ free_form w.now.letters) }
    ensures equal { IfOk result (λ v. (m : ℕ) → IsOver m w.now.letters →
        FreelyEqual m w.now.letters v.letters) }
    ensures over { IfOk result (λ v. (m : ℕ) → IsOver m w.now.letters → IsOver m v.letters) }
    ensures reduced { IfOk result (λ v. IsReduced v.letters) }
{
    let letters = w.letters();
    let mut reduced = Word::new(alloc);
    reduced.reserve(letters.len())?;
    for x in letters {
        push_reduced(&mut reduced, *x);
    }
    Ok(reduced)
}

/// Whether two words are freely equal. It takes no memory and leaves `scratch` empty.
pub fn freely_equal(u: &Word, v: &Word, scratch: &mut Word) -> bool
    requires room { length u.now.letters + length v.now.letters ≤ scratch.old.capacity }
    ensures equal { (m : ℕ) → IsOver m u.now.letters → IsOver m v.now.letters →
        IsTrue result ↔ FreelyEqual m u.now.letters v.now.letters }
    ensures empty { scratch.new.letters ≡ [] }
    ensures capacity { scratch.old.capacity ≤ scratch.new.capacity }
{
    scratch.clear();
    for x in u.letters() {
        push_reduced(scratch, *x);
    }
    for y in v.letters().iter().rev() {
        push_reduced(scratch, y.inverted());
    }
    let equal = scratch.letters().is_empty();
    scratch.clear();
    equal
}

/// Whether no letter of the word stands next to its inverse.
pub fn is_reduced(w: &Word) -> bool
    ensures { IsTrue result ↔ IsReduced w.now.letters }
{
    let letters = w.letters();
    for place in 1..letters.len() {
        if letters[place].undoes(letters[place - 1]) {
            return false;
        }
    }
    true
}

/// Whether the word is over the first `generators` generators.
pub fn is_over(generators: u32, w: &Word) -> bool
    ensures { IsTrue result ↔ IsOver generators w.now.letters }
{
    w.letters().iter().all(|x| x.is_of(generators))
}

/// Two reduced words that are freely equal are the same word, so each word has one reduced form.
pub fn reduced_forms_are_unique()
    ensures { (m : ℕ) (u v : List ℤ) → IsReduced u → IsReduced v → FreelyEqual m u v → u ≡ v }
{}

/// The form that `free_form` gives of a word is reduced and freely equal to it, and is the one reduced
/// word that is.
pub fn free_form_is_the_reduced_form()
    ensures form { (w : List ℤ) → IsFormOf w (free_form w) }
    ensures one { (m : ℕ) (w v : List ℤ) → IsReduced v → FreelyEqual m w v → v ≡ free_form w }
{}
