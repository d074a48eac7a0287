//! Letters, words, groups and Asks that are written as texts. Only tests use it: it promises nothing
//! but what the types that it answers promise.
#![tactic(auto)]

mod asks;
mod texts;

pub use asks::{ask, ask_in, gen_map, group};
pub use texts::{are_words, copies, is_word, letter, part, power, word, words};
