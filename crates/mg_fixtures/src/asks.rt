//! Groups, maps of generators and Asks.
ghost use Rattle.std.specs.Prelude.{◌↔◌, IsTrue};
ghost use Rattle.std.specs.List.{AllByRecursion};
ghost use Rattle.mg_words.specs.Word.{letters_of};
ghost use Rattle.mg_present.specs.Ask.{IsReducedOver};

use crate::texts::{each_word, part, words};
use mg_present::{Ask, GenMap, MOST_GOALS, MOST_SUBGROUP_WORDS, Presentation, fits};
use mg_words::{Word, Words, is_over, is_reduced};
use std::alloc::Global;

/// The group that is written so: how many generators, and then the relators. An example is
/// `2 aa bbb abab`. None where they don't fit.
pub fn group(alloc: Global, text: &str) -> Option<Presentation> {
    let mut parts = text.split_whitespace();
    let generators = parts.next()?.parse::<u32>().ok()?;
    let relators = each_word(alloc, parts);
    if !fits(generators, &relators) {
        return None;
    }
    Some(Presentation::new(generators, relators))
}

/// The map with these images.
pub fn gen_map(alloc: Global, images: &str) -> GenMap {
    GenMap::new(words(alloc, images))
}

/// The Ask that is written so: the group, the subgroup words and the goals, with bars between them. An
/// example is `2 aa bbb abab | b | aba`. None where they don't fit.
pub fn ask(alloc: Global, text: &str) -> Option<Ask> {
    let group = group(alloc, part(text, 0))?;
    ask_in(
        group,
        words(alloc, part(text, 1)),
        words(alloc, part(text, 2)),
    )
}

/// The Ask in the group. None where the words are too many, or not reduced and over its generators.
pub fn ask_in(group: Presentation, subgroup: Words, goals: Words) -> Option<Ask> {
    if subgroup.len() > MOST_SUBGROUP_WORDS || goals.len() > MOST_GOALS {
        return None;
    }
    let generators = group.generators();
    if !are_reduced(generators, subgroup.as_slice()) || !are_reduced(generators, goals.as_slice()) {
        return None;
    }
    Some(Ask::new(group, subgroup, goals))
}

// Whether each of the words is reduced and over the generators.
fn are_reduced(generators: u32, words: &[Word]) -> bool
    ensures { IsTrue result ↔ AllByRecursion (IsReducedOver generators) (letters_of words.now) }
{
    for word in words {
        if !is_over(generators, word) || !is_reduced(word) {
            return false;
        }
    }
    true
}
