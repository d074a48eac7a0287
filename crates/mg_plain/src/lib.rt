//! Searches that test numbered objects one after another.
#![tactic(auto)]

mod laws;
mod objects;
mod plain;
mod records;

pub use laws::{
    a_first_search_has_tested_nothing, plain_turns_are_sound, turns_keep_what_is_searched,
};
pub use mg_core::NoMemory;
pub use plain::{Plain, StartRefused};

#[cfg(test)]
mod tests;
