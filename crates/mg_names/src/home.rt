//! Where the names of words are looked up.

ghost use Rattle.std.specs.Prelude.{◌≡◌, ◌<◌, ◌≤◌, None, Some, IfOk, IfSome, length, nat_eq, position};
ghost use Rattle.std.specs.Cmp.Lexicographic.{pointwise};
ghost use Rattle.mg_names.specs.Scope.{lookup, generator_place};
ghost use Rattle.mg_names.specs.Meaning.{letter_at, declared_word, name_value};
ghost use Rattle.mg_names.specs.Named.{Named};
ghost use Rattle.mg_names.specs.Cause.{at, no_letter, not_a_letter, no_word};
ghost use Rattle.mg_names.specs.Name.{named_of};
ghost use Rattle.mg_names.specs.Least.{Gets};

use crate::cursor::Name;
use crate::least::Found;
use crate::scope::Names;
use mg_lex::{Cause, Text};
use mg_words::{Letter, NoMemory, Word};
use std::alloc::Global;

/// The group in which words are read.
#[derive(Drop)]
pub(crate) struct Home<'a> {
    /// All names that are declared.
    pub(crate) names: &'a Names,
    /// The place of the group.
    pub(crate) place: u32,
    /// The names of its generators.
    pub(crate) generators: &'a mg_lex::Names,
    ghost few: { length generators.now ≤ 64 },
}

/// The place of a text among others.
pub(crate) fn place_of(texts: &[Text], text: &[u8]) -> Option<usize>
    ensures place { result ≡ position (λ t. pointwise nat_eq t text.now) texts.now }
    ensures within { IfSome result (λ i. i < length texts.now) }
{
    texts.iter().position(|other| other.as_slice() == text)
}

/// The word that is one generator.
fn generator_word(alloc: Global, place: usize) -> Result<Word, NoMemory>
    requires { place < 64 }
    ensures { IfOk result (λ w. w.letters ≡ letter_at (Some place)) }
{
    let letter = Letter {
        generator: place as u8 + 1,
        inverse: false,
    };
    Word::from_letters(alloc, &[letter])
}

impl<'a> Home<'a> {
    /// The place of the generator with this name.
    fn generator(&self, text: &[u8]) -> Option<usize>
        ensures place { result ≡ generator_place self.now.generators.now text.now }
        ensures within { IfSome result (λ i. i < 64) }
    {
        place_of(self.generators.as_slice(), text)
    }

    /// The cause that a name shows which is no generator.
    fn unknown(&self, text: &[u8]) -> Cause
        ensures { (n : Named) →
            no_letter n (lookup self.now.names.now text.now) None ≡ at result n.place }
    {
        match self.names.find(text) {
            None => Cause::UnknownGenerator,
            Some(_) => Cause::WrongKind,
        }
    }

    /// A name that is no generator shows a cause.
    pub(crate) fn check_generator(&self, name: Name, found: &mut Found)
        ensures { Gets
            (not_a_letter self.now.names.now self.now.generators.now (named_of name.entry))
            found.old found.new }
    {
        if self.generator(name.text).is_none() {
            found.offer(name.place, self.unknown(name.text));
        }
    }

    /// The letter that a name in a word stands for. A name that is no generator stands for none.
    pub(crate) fn letter(
        &self,
        alloc: Global,
        name: Name,
        found: &mut Found,
    ) -> Result<Word, NoMemory>
        ensures letters { IfOk result (λ w. w.letters ≡
            letter_at (generator_place self.now.generators.now name.entry.text.now)) }
        ensures causes { Gets
            (not_a_letter self.now.names.now self.now.generators.now (named_of name.entry))
            found.old found.new }
    {
        match self.generator(name.text) {
            Some(place) => generator_word(alloc, place),
            None => {
                found.offer(name.place, self.unknown(name.text));
                Ok(Word::new(alloc))
            }
        }
    }

    /// What a name alone stands for: a generator, or a declared word of the group.
    pub(crate) fn name_alone(
        &self,
        alloc: Global,
        name: Name,
        found: &mut Found,
    ) -> Result<Word, NoMemory>
        ensures letters { IfOk result (λ w. w.letters ≡
            name_value self.now.place (lookup self.now.names.now name.entry.text.now)
            (generator_place self.now.generators.now name.entry.text.now)) }
        ensures causes { Gets (no_word self.now.place (named_of name.entry)
            (lookup self.now.names.now name.entry.text.now)
            (generator_place self.now.generators.now name.entry.text.now)) found.old found.new }
    {
        match self.generator(name.text) {
            Some(place) => generator_word(alloc, place),
            None => self.declared(alloc, name, found),
        }
    }

    /// The declared word of the group with this name, which is no generator.
    fn declared(&self, alloc: Global, name: Name, found: &mut Found) -> Result<Word, NoMemory>
        ensures letters { IfOk result (λ w. w.letters ≡
            declared_word self.now.place (lookup self.now.names.now name.entry.text.now)) }
        ensures causes { Gets (no_word self.now.place (named_of name.entry)
            (lookup self.now.names.now name.entry.text.now) None) found.old found.new }
    {
        match self.names.find(name.text) {
            None => {
                found.offer(name.place, Cause::UnknownGenerator);
                Ok(Word::new(alloc))
            }
            Some(object) => match object.word_in(self.place) {
                Some(word) => word.copy(alloc),
                None => {
                    found.offer(name.place, Cause::WrongKind);
                    Ok(Word::new(alloc))
                }
            },
        }
    }
}
