//! Lists of words: generators, commutators and conjugates, written out, and freely reduced forms.
ghost use Rattle.std.specs.Prelude.{◌≡◌, ◌++◌, IfOk, OnOk, length, map as map_of};
ghost use Rattle.std.specs.List.{AllByRecursion, AllZip};
ghost use Rattle.mg_words.specs.Word.{IsOver, commutator_of, inv, letters_of};
ghost use Rattle.mg_words.specs.Reduction.{IsFormOf};
ghost use Rattle.mg_present.specs.Image.{image_of};
ghost use Rattle.mg_questions.specs.Goals.{commutators as commutators_of, conjugates as conjugates_of, conjugates_by, generators as generators_of};

use mg_present::{GenMap, Presentation, image};
use mg_words::{Letter, NoMemory, Word, Words, commutator, concat, inverse, reduce};
use std::alloc::Global;

// The generators of the group as words.
pub(crate) fn generators(alloc: Global, group: &Presentation) -> Result<Words, NoMemory>
    ensures { IfOk result (λ words. words ≡ generators_of group.now.generators) }
{
    let mut words = Words::new(alloc);
    for place in 0..group.generators() {
        let generator = place as u8 + 1;
        let letter = Letter {
            generator,
            inverse: false,
        };
        words.push(Word::from_letters(alloc, &[letter])?)?;
    }
    Ok(words)
}

// The one word times the inverse of the other.
pub(crate) fn quotient(alloc: Global, left: &Word, right: &Word) -> Result<Word, NoMemory>
    ensures { IfOk result (λ w. w.letters ≡ left.now.letters ++ inv right.now.letters) }
{
    let back = inverse(alloc, right)?;
    concat(alloc, left, &back)
}

// The commutators of each word with each one after it.
pub(crate) fn commutators(alloc: Global, us: &[Word]) -> Result<Words, NoMemory>
    ensures { IfOk result (λ words. words ≡ commutators_of (letters_of us.now)) }
{
    let mut words = Words::new(alloc);
    for place in 0..us.len() {
        push_commutators(alloc, &mut words, &us[place], &us[place + 1..])?;
    }
    Ok(words)
}

// The commutators of one word with others.
pub(crate) fn commutators_with(alloc: Global, u: &Word, vs: &[Word]) -> Result<Words, NoMemory>
    ensures { IfOk result (λ words.
        words ≡ map_of (commutator_of u.now.letters) (letters_of vs.now)) }
{
    let mut words = Words::new(alloc);
    push_commutators(alloc, &mut words, u, vs)?;
    Ok(words)
}

// Appends the commutators of one word with others.
fn push_commutators(alloc: Global, words: &mut Words, u: &Word, vs: &[Word]) -> Result<(), NoMemory>
    ensures { OnOk result (words.new ≡
        words.old ++ map_of (commutator_of u.now.letters) (letters_of vs.now)) }
{
    for v in vs {
        words.push(commutator(alloc, u, v)?)?;
    }
    Ok(())
}

// The conjugates of the words `hs` by each of the words `xs` and by its inverse.
pub(crate) fn conjugates(alloc: Global, xs: &[Word], hs: &[Word]) -> Result<Words, NoMemory>
    ensures { IfOk result (λ words. words ≡ conjugates_of (letters_of xs.now) (letters_of hs.now)) }
{
    let mut words = Words::new(alloc);
    for x in xs {
        push_conjugates(alloc, &mut words, x, hs)?;
    }
    Ok(words)
}

// Appends the conjugates of the words by `x` and by its inverse.
fn push_conjugates(alloc: Global, words: &mut Words, x: &Word, hs: &[Word]) -> Result<(), NoMemory>
    ensures { OnOk result (words.new ≡
        words.old ++ conjugates_by x.now.letters (letters_of hs.now)) }
{
    let back = inverse(alloc, x)?;
    for h in hs {
        words.push(product(alloc, x, h, &back)?)?;
        words.push(product(alloc, &back, h, x)?)?;
    }
    Ok(())
}

// The product of three words.
fn product(alloc: Global, u: &Word, v: &Word, w: &Word) -> Result<Word, NoMemory>
    ensures { IfOk result (λ word. word.letters ≡ u.now.letters ++ v.now.letters ++ w.now.letters) }
{
    let front = concat(alloc, u, v)?;
    concat(alloc, &front, w)
}

// The freely reduced forms of the words.
pub(crate) fn reduced(alloc: Global, words: &[Word]) -> Result<Words, NoMemory>
    ensures { IfOk result (λ goals. AllZip IsFormOf (letters_of words.now) goals) }
{
    let mut goals = Words::new(alloc);
    for word in words {
        goals.push(reduce(alloc, word)?)?;
    }
    Ok(goals)
}

// The images of the words, freely reduced.
pub(crate) fn images(alloc: Global, map: &GenMap, words: &[Word]) -> Result<Words, NoMemory>
    requires { AllByRecursion (IsOver (length map.now)) (letters_of words.now) }
    ensures { IfOk result
        (AllZip IsFormOf (map_of (image_of map.now) (letters_of words.now))) }
{
    let mut goals = Words::new(alloc);
    for word in words {
        goals.push(image(alloc, map, word)?)?;
    }
    Ok(goals)
}
