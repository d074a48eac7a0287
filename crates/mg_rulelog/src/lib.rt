//! Logs of rules, which are certificates that goals are the empty word: rules with moves that show them,
//! for each goal the rules that rewrite it to the empty word, and the checker of them.
#![tactic(auto)]

mod checker;
mod laws;
mod log;
mod moves;
mod tape;

pub use checker::accepts;
pub use laws::accepted_logs_hold;
pub use log::{GoalMoves, LoggedRule, LoggedRules, RuleLog};
pub use mg_words::NoMemory;
pub use moves::{Move, Moves, copy_moves};

#[cfg(test)]
mod tests;
