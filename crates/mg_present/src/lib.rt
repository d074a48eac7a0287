//! Finitely presented groups and what is asked about them: presentations by generators and relators,
//! Asks, and what it means that two words are the same element or that a word lies in a subgroup.
#![tactic(auto)]

mod ask;
mod gen_map;
mod laws;
mod presentation;
mod procedures;

pub use ask::{Ask, MOST_GOALS, MOST_SUBGROUP_WORDS};
pub use gen_map::{GenMap, MOST_MAPPED_LETTERS, image, image_length};
pub use laws::{
    equal_asks_are_one, sameness_is_an_equivalence, sameness_is_kept, subgroups_are_closed,
    the_limits, words_are_the_same,
};
pub use mg_words::NoMemory;
pub use presentation::{MOST_GENERATORS, MOST_RELATOR_LETTERS, MOST_RELATORS, Presentation, fits};
pub use procedures::applies;

#[cfg(test)]
mod tests;
