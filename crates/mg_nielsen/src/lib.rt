//! Nielsen reduction in free groups.
#![tactic(auto)]

mod choice;
mod expressed;
mod laws;
mod nielsen;
mod text;

pub use laws::{
    a_first_search_is_kept, a_turn_of_enough_units_ends_the_search, the_subgroup_stays,
    turns_are_sound, turns_keep_what_is_kept,
};
pub use mg_core::NoMemory;
pub use nielsen::Nielsen;

#[cfg(test)]
mod tests;
