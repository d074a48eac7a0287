//! The limits of the crate by their values.

ghost use Rattle.std.specs.Prelude.{◌≡◌, ◌^◌};

use crate::ledger::{MOST_FUNDED, MOST_GRANTED};

/// The limits of ledgers. The function does nothing; its clauses are the values.
pub fn the_limits()
    ensures funded { MOST_FUNDED ≡ 2 ^ 62 }
    ensures granted { MOST_GRANTED ≡ 2 ^ 120 }
{}
