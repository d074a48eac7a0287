//! A record, a stop and a search made up for the tests of code that runs searches. The search finds at its third
//! unit.
#![tactic(auto)]

mod finder;
mod mark;

pub use finder::{Finder, Knows};
pub use mark::Mark;

#[cfg(test)]
mod tests;
