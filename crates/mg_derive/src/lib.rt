//! Derivations: texts of letters, relator signs and subgroup signs that show that goals lie in a
//! subgroup, the checker of them, and the search through them in the order of their numbers.
#![tactic(auto)]

mod buffers;
mod checker;
mod derivation;
mod laws;
mod limits;
mod numbering;
mod search;
mod symbol;
mod walk;

pub use buffers::Buffers;
pub use checker::accepts;
pub use derivation::Derivation;
pub use laws::{accepted_derivations_hold, true_questions_have_derivations};
pub use limits::the_limits;
pub use mg_words::NoMemory;
pub use numbering::{digit_of, symbol_count, symbol_of, symbols_at, texts_and_numbers_correspond};
pub use search::Enumeration;
pub use symbol::Symbol;

#[cfg(test)]
mod tests;
