//! Searches by completion, by the method of Knuth and Bendix.
#![tactic(auto)]

mod affirm;
mod begin;
mod completion;
mod desk;
mod ending;
mod goals;
mod going;
mod laws;
mod moves;
mod refute;
mod system;
mod work;

pub use completion::Completion;
pub use desk::Settled;
pub use laws::{
    a_first_search_is_kept, a_search_with_all_done_ends, completion_turns_are_sound,
    turns_keep_what_is_kept,
};
pub use mg_core::NoMemory;
pub use system::Passed;
pub use work::Work;

#[cfg(test)]
mod tests;
