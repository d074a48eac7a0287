//! Maps of generators.
ghost use Rattle.std.specs.Prelude.{◌≡◌, ◌-◌, ◌≤◌, ◌++◌, IfOk, OnOk, Some, length, nat_abs, slice_get};
ghost use Rattle.std.specs.List.{AllByRecursion};
ghost use Rattle.mg_words.specs.Letter.{IsLetterOf};
ghost use Rattle.mg_words.specs.Word.{IsOver};
ghost use Rattle.mg_words.specs.Reduction.{IsFormOf};
ghost use Rattle.mg_present.specs.Image.{letter_image, image_of};

use mg_words::{Letter, MOST_POWER_LETTERS, NoMemory, Word, Words, inverse, reduce};
use std::alloc::Global;
use std::marker::Model;

/// How many letters a word, and each image of a generator, may have where [`image_length`] is asked for.
pub const MOST_MAPPED_LETTERS: usize = MOST_POWER_LETTERS;

/// Takes each generator to a word: the first to the first image, and so on. Maps are compared by their
/// images.
#[derive(Debug, PartialEq, Eq, PartialOrd, Ord, Drop)]
pub struct GenMap {
    images: Words,
}

impl Model for GenMap {
    ghost use Rattle.std.specs.Prelude.{ℤ, List as ListOf};

    ghost Value = { ListOf (ListOf ℤ) };

    ghost view = { λ map. map.images };

    ghost inverse = { λ images. record { images = images } };
}

impl GenMap {
    /// The map with these images.
    pub fn new(images: Words) -> GenMap
        ensures { result ≡ images }
    {
        GenMap { images }
    }

    /// The images, in the order of the generators.
    pub fn images(&self) -> &Words
        ensures { result.now ≡ self.now }
    {
        &self.images
    }

    /// The same map.
    pub fn copy(&self, alloc: Global) -> Result<GenMap, NoMemory>
        ensures { IfOk result (λ map. map ≡ self.now) }
    {
        Ok(GenMap {
            images: self.images.copy(alloc)?,
        })
    }
}

/// The image of a word, freely reduced: each letter is replaced by the image of its generator, and an
/// inverse letter by the inverse of that image. Each letter of the word needs an image.
pub fn image(alloc: Global, map: &GenMap, w: &Word) -> Result<Word, NoMemory>
    requires { IsOver (length map.now) w.now.letters }
    ensures { IfOk result (λ v. IsFormOf (image_of map.now w.now.letters) v.letters) }
{
    let written = written_image(alloc, map, w)?;
    reduce(alloc, &written)
}

/// How many letters the image of a word has before it is reduced.
pub fn image_length(map: &GenMap, w: &Word) -> u64
    requires there { IsOver (length map.now) w.now.letters }
    requires short { length w.now.letters ≤ MOST_MAPPED_LETTERS }
    requires images { AllByRecursion (λ image. length image ≤ MOST_MAPPED_LETTERS) map.now }
    ensures { result ≡ length (image_of map.now w.now.letters) }
{
    let mut sum = 0;
    for x in w.letters() {
        sum += generator_image(map, *x).letters().len() as u64;
    }
    sum
}

// The image of a word, written out.
fn written_image(alloc: Global, map: &GenMap, w: &Word) -> Result<Word, NoMemory>
    requires { IsOver (length map.now) w.now.letters }
    ensures { IfOk result (λ v. v.letters ≡ image_of map.now w.now.letters) }
{
    let mut written = Word::new(alloc);
    for x in w.letters() {
        push_image(alloc, &mut written, map, *x)?;
    }
    Ok(written)
}

// Appends the image of a letter.
fn push_image(alloc: Global, written: &mut Word, map: &GenMap, x: Letter) -> Result<(), NoMemory>
    requires { IsLetterOf (length map.now) x }
    ensures { OnOk result (written.new.letters ≡ written.old.letters ++ letter_image map.now x) }
{
    let image = generator_image(map, x);
    if x.inverse {
        let back = inverse(alloc, image)?;
        written.push_all(back.letters())
    } else {
        written.push_all(image.letters())
    }
}

// The image of the letter's generator.
fn generator_image(map: &GenMap, x: Letter) -> &Word
    requires { IsLetterOf (length map.now) x }
    ensures { slice_get map.now (nat_abs x - 1) ≡ Some result.now.letters }
{
    let place = usize::from(x.generator) - 1;
    map.images().at(place)
}
