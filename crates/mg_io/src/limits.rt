// The limits of the crate by their values.

ghost use Rattle.std.specs.Prelude.{◌≡◌};

use crate::whole::MOST_READ;

/// The limits of reading. The function does nothing; its clause is the value.
pub fn the_limits()
    ensures { MOST_READ ≡ 67108864 }
{}
