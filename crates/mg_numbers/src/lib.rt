//! Texts, permutations and tuples of residues by number: each number is exactly one of them.
#![tactic(auto)]

mod advance;
mod blocks;
mod limits;
mod texts;

pub use advance::Advance;
pub use blocks::{
    Block, MOST_DEGREE, MOST_NUMBER, action_block, perm_of, perm_places, permutations_are_numbered,
    residue_block, residues_are_numbered, residues_of,
};
pub use limits::the_limits;
pub use texts::{
    Digits, MOST_BASE, MOST_DIGITS, NoMemory, number_of, text_of, texts_and_numbers_correspond,
    values_are_in_shortlex_order,
};
