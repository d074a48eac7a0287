//! Limits of what a script may ask for.

/// How many letters all Asks may have together: those of their relators, subgroup words and goals.
pub const ASK_LETTER_LIMIT: u64 = 8_000_000;

/// How many pairs of a question and a procedure that grants name may complete rewriting systems.
pub const REWRITE_LIMIT: usize = 64;

/// How many of them may enumerate cosets.
pub const COSET_LIMIT: usize = 64;
