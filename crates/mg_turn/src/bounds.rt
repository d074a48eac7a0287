//! What searches keep within limits.
ghost use Rattle.std.specs.Prelude.{◌≡◌};

/// The most rules of a rewriting system.
pub const MOST_RULES: u64 = 4_096;

/// The most letters of the left side of a rule.
pub const MOST_SIDE_LETTERS: u64 = 2_000;

/// The most letters of all rules of a rewriting system, and of a derivation written out.
pub const MOST_LETTERS: u64 = 4_000_000;

/// The most entries of a coset table.
pub const MOST_ENTRIES: u64 = 4_000_000;

/// The most moves of a log of rules.
pub const MOST_MOVES: u64 = 1_000_000;

/// The most symbols of a derivation, and of all lists of signs that a search keeps.
pub const MOST_SYMBOLS: u64 = 1_000_000;

/// The limits as numbers.
pub fn the_limits()
    ensures rules { MOST_RULES ≡ 4096 }
    ensures side_letters { MOST_SIDE_LETTERS ≡ 2000 }
    ensures letters { MOST_LETTERS ≡ 4000000 }
    ensures entries { MOST_ENTRIES ≡ 4000000 }
    ensures moves { MOST_MOVES ≡ 1000000 }
    ensures symbols { MOST_SYMBOLS ≡ 1000000 }
{}
