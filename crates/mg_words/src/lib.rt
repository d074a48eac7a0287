//! Letters, words.
#![tactic(auto)]

mod letter;
mod limits;
mod operations;
mod procedure;
mod reduction;
mod word;
mod words;

pub use letter::Letter;
pub use limits::{MOST_EXPONENT, MOST_PLACE, MOST_POWER_LETTERS, the_limits};
pub use mg_lists::NoMemory;
pub use operations::{WordFault, commutator, concat, inverse, power};
pub use procedure::{PROCEDURES, Procedure};
pub use reduction::{
    free_form_is_the_reduced_form, freely_equal, is_over, is_reduced, push_reduced, reduce,
    reduced_forms_are_unique,
};
pub use word::Word;
pub use words::{Words, equal_lists_are_one};

#[cfg(test)]
mod tests;
