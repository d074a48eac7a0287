//! Maps to cyclic groups as evidence: that a goal doesn't lie in a subgroup, where the subgroup words sum to 0
//! modulo some number and the goal doesn't.
#![tactic(auto)]

mod evidence;
mod exponents;
mod kept;
mod laws;
mod residues;
mod search;
mod walk;

pub use evidence::{is_map, refutes};
pub use laws::{maps_and_numbers_correspond, refuted_goals_do_not_lie, same_words_sum_alike};
pub use mg_words::NoMemory;
pub use residues::Residues;
pub use search::Enumeration;

#[cfg(test)]
mod tests;
