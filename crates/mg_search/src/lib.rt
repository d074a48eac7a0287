//! Searches of all procedures, one case for each kind.
#![tactic(auto)]

mod laws;
mod search;

pub use laws::{
    a_search_opens_where_it_applies, all_turns_are_sound, recall_alone_reads,
    some_search_opens_where_it_applies, turns_keep_the_kind,
};
pub use mg_core::NoMemory;
pub use search::{Search, StartRefused};

#[cfg(test)]
mod tests;
