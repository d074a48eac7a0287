//! Finite actions as evidence: that a goal doesn't lie in a subgroup, where the subgroup words fix a point
//! that the goal moves.
#![tactic(auto)]

mod action;
mod depths;
mod evidence;
mod laws;
mod lists;
mod nexts;
mod search;
mod walk;

pub use action::Action;
pub use evidence::{is_action, refutes};
pub use laws::{actions_and_numbers_correspond, refuted_goals_do_not_lie, same_words_act_alike};
pub use lists::are_images;
pub use mg_numbers::Advance;
pub use mg_words::NoMemory;
pub use search::Enumeration;

#[cfg(test)]
mod tests;
