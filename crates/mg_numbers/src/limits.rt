//! The limits of the crate by their values.

ghost use Rattle.std.specs.Prelude.{◌≡◌, ◌^◌};

use crate::blocks::{MOST_DEGREE, MOST_NUMBER};
use crate::texts::{MOST_BASE, MOST_DIGITS};

/// The limits of texts and tuples. The function does nothing; its clauses are the values.
pub fn the_limits()
    ensures number { MOST_NUMBER ≡ 2 ^ 62 }
    ensures degree { MOST_DEGREE ≡ 21 }
    ensures digits { MOST_DIGITS ≡ 4096 }
    ensures base { MOST_BASE ≡ 769 }
{}
