//! What a search is to those that run it: turns for a number of units, each with an end that has its
//! cause.
#![tactic(auto)]

mod bounds;
mod outcome;
mod searcher;
mod stop;

pub use bounds::{
    MOST_ENTRIES, MOST_LETTERS, MOST_MOVES, MOST_RULES, MOST_SIDE_LETTERS, MOST_SYMBOLS, the_limits,
};
pub use outcome::{Limit, Outcome, TurnEnd};
pub use searcher::Searcher;
pub use stop::{Stop, known_verdict};
