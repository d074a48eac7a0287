//! Searches that enumerate the cosets of an Ask's subgroup.
#![tactic(auto)]

mod cosets;
mod ending;
mod laws;
mod records;
mod turning;

pub use cosets::Cosets;
pub use laws::{
    a_first_table_is_enumerated, coset_turns_are_sound, turns_keep_what_a_search_keeps,
};
pub use mg_core::NoMemory;

#[cfg(test)]
mod tests;
