//! Searches that read the models which other searches have published for their group.
#![tactic(auto)]

mod laws;
mod reading;
mod recall;

pub use laws::{recall_turns_are_sound, turns_read_what_they_spend};
pub use mg_core::NoMemory;
pub use recall::{MOST_MODELS, Recall};

#[cfg(test)]
mod tests;
