//! What the words of the command line ask for: one command with its values, or why they ask for none.
#![tactic(auto)]

mod command;
mod laws;
mod reading;
mod values;
mod words;

pub use command::{Command, PolicyName, UsageCause, WordsRefused};
pub use laws::{each_list_says_one_thing, no_list_says_two};
pub use words::read_words;

#[cfg(test)]
mod tests;
