//! Questions about presented groups.
ghost use Rattle.std.specs.Prelude.{◌↔◌, IsTrue};
ghost use Rattle.std.specs.List.{AllByRecursion};
ghost use Rattle.mg_words.specs.Word.{letters_of};
ghost use Rattle.mg_questions.specs.Asking.{AreGiven, IsFit, IsGiven};

use mg_present::{GenMap, MOST_SUBGROUP_WORDS, Presentation};
use mg_words::{MOST_POWER_LETTERS, Word, Words, is_over, is_reduced};

/// How many letters a word may have that a question names.
pub const MOST_WORD_LETTERS: usize = MOST_POWER_LETTERS;

/// How many letters a goal may have before it is reduced.
pub const MOST_GOAL_LETTERS: u64 = 40_000;

/// A question about one group, or about a map from one group to another. Questions are compared by
/// their whole content.
#[derive(Debug, PartialEq, Eq, PartialOrd, Ord, Drop)]
pub enum Question {
    /// Whether the word is one in the group.
    WordIsOne {
        /// The group.
        group: Presentation,
        /// The word.
        word: Word,
    },
    /// Whether the two words are equal in the group.
    WordsEqual {
        /// The group.
        group: Presentation,
        /// The one word.
        left: Word,
        /// The other word.
        right: Word,
    },
    /// Whether the word lies in the subgroup.
    InSubgroup {
        /// The group.
        group: Presentation,
        /// The words that generate the subgroup.
        subgroup: Words,
        /// The word.
        word: Word,
    },
    /// Whether the group has one element alone.
    Trivial {
        /// The group.
        group: Presentation,
    },
    /// Whether all elements commute.
    Abelian {
        /// The group.
        group: Presentation,
    },
    /// Whether the word commutes with every element.
    Central {
        /// The group.
        group: Presentation,
        /// The word.
        word: Word,
    },
    /// Whether the subgroup is normal.
    Normal {
        /// The group.
        group: Presentation,
        /// The words that generate the subgroup.
        subgroup: Words,
    },
    /// Whether the map of generators extends to a homomorphism.
    Extends {
        /// The group that is mapped.
        source: Presentation,
        /// The group of the images.
        target: Presentation,
        /// The images of the generators of the source.
        map: GenMap,
    },
    /// Whether the images generate the whole group.
    Onto {
        /// The group of the images.
        target: Presentation,
        /// The images.
        map: GenMap,
    },
    /// Whether the image of the word is one.
    InKernel {
        /// The group of the images.
        target: Presentation,
        /// The images of the letters of the word.
        map: GenMap,
        /// The word.
        word: Word,
    },
}

/// Whether the question has an Ask, its length and memory aside: each word that it names is reduced,
/// not too long and over the generators of its group, or over letters that have images; each generator
/// of the source of a map has an image; and no list of words is too long.
pub fn is_fit(question: &Question) -> bool
    ensures { IsTrue result ↔ IsFit question.now }
{
    match question {
        Question::WordIsOne { group, word } => is_given(group.generators(), word),
        Question::WordsEqual { group, left, right } => {
            is_given(group.generators(), left) && is_given(group.generators(), right)
        }
        Question::InSubgroup {
            group,
            subgroup,
            word,
        } => are_given(group.generators(), subgroup) && is_given(group.generators(), word),
        Question::Trivial { .. } => true,
        Question::Abelian { .. } => true,
        Question::Central { group, word } => is_given(group.generators(), word),
        Question::Normal { group, subgroup } => are_given(group.generators(), subgroup),
        Question::Extends {
            source,
            target,
            map,
        } => {
            are_given(target.generators(), map.images())
                && source.generators() as usize <= map.images().len()
        }
        Question::Onto { target, map } => are_given(target.generators(), map.images()),
        Question::InKernel { target, map, word } => {
            are_given(target.generators(), map.images())
                && is_given(map.images().len() as u32, word)
        }
    }
}

// Whether a question may name the words, for a subgroup or as images.
fn are_given(generators: u32, words: &Words) -> bool
    ensures { IsTrue result ↔ AreGiven generators words.now }
{
    words.len() <= MOST_SUBGROUP_WORDS && each_is_given(generators, words.as_slice())
}

// Whether a question may name each of the words.
fn each_is_given(generators: u32, words: &[Word]) -> bool
    ensures { IsTrue result ↔ AllByRecursion (IsGiven generators) (letters_of words.now) }
{
    for w in words {
        if !is_given(generators, w) {
            return false;
        }
    }
    true
}

// Whether a question about a group with this many generators may name the word.
fn is_given(generators: u32, w: &Word) -> bool
    ensures { IsTrue result ↔ IsGiven generators w.now.letters }
{
    w.letters().len() <= MOST_WORD_LETTERS && is_over(generators, w) && is_reduced(w)
}
