//! The limits of letters and words.

ghost use Rattle.std.specs.Prelude.{◌≡◌, ◌^◌};

/// The greatest place of a generator.
pub const MOST_PLACE: u8 = 64;

/// How many letters a power may have, written out.
pub const MOST_POWER_LETTERS: usize = 10_000;

/// The greatest size of an exponent, 2^62.
pub const MOST_EXPONENT: u64 = 4_611_686_018_427_387_904;

/// The limits of letters and words by their values. The function does nothing; its clauses are the
/// values.
pub fn the_limits()
    ensures place { MOST_PLACE ≡ 64 }
    ensures letters { MOST_POWER_LETTERS ≡ 10000 }
    ensures exponent { MOST_EXPONENT ≡ 2 ^ 62 }
{}
