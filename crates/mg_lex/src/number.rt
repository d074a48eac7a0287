//! Numbers, in decimal digits.

ghost use Rattle.std.specs.Prelude.{◌≡◌, ◌<◌, ◌≤◌, IfSome, IfNone};
ghost use Rattle.mg_lex.specs.Number.{IsNumber, number_value};

use crate::limits::NUMBER_LIMIT;

/// The number that the digits write; None exactly where it passes `NUMBER_LIMIT`.
pub fn value_of(digits: &[u8]) -> Option<u64>
    requires { IsNumber digits.now }
    ensures value { IfSome result (λ value. value ≡ number_value digits.now) }
    ensures within { IfSome result (λ value. value ≤ NUMBER_LIMIT) }
    ensures none { IfNone result (NUMBER_LIMIT < number_value digits.now) }
{
    let mut value = 0;
    for digit in digits {
        if value > NUMBER_LIMIT / 10 {
            return None;
        }
        value = 10 * value + (*digit - b'0') as u64;
    }
    if value > NUMBER_LIMIT {
        None
    } else {
        Some(value)
    }
}
