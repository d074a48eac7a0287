//! Numbers of letters.

ghost use Rattle.std.specs.Prelude.{◌≡◌, ◌+◌, ◌*◌, ◌<◌, ◌≤◌, IfSome, IfNone};

use crate::limits::WORD_LIMIT;

/// The number of letters, where it is within the limit.
pub(crate) fn within(letters: u128) -> Option<u32>
    ensures some { IfSome result (λ n. (n ≡ letters) × (n ≤ WORD_LIMIT)) }
    ensures none { IfNone result (WORD_LIMIT < letters) }
{
    if letters > WORD_LIMIT as u128 {
        return None;
    }
    Some(letters as u32)
}

/// How many letters a product has with one more factor, a power of a base.
pub(crate) fn product(before: u32, base: u32, exponent: u64) -> u128
    ensures { result ≡ before + base * exponent }
{
    before as u128 + base as u128 * exponent as u128
}

/// How many letters a commutator has.
pub(crate) fn commutator(left: u32, right: u32) -> u128
    ensures { result ≡ 2 * (left + right) }
{
    2 * (left as u128 + right as u128)
}
