//! The values among the words.
ghost use Rattle.std.specs.Prelude.{◌≡◌, ℕ, ◌<◌, ◌≤◌, IfSome, IfNone, IsTrue, length, option_map};
ghost use Rattle.std.specs.Char.{is_ascii_digit};
ghost use Rattle.std.specs.List.{list_all};
ghost use Rattle.mg_command.specs.Words.{IsNumberOf, policy_text};
ghost use Rattle.mg_command.specs.Reading.{IsWorkers, IsPolicy, IsSampled};
ghost use Rattle.mg_lex.specs.declared.limits.TheConstants.{NUMBER_LIMIT};

use crate::command::PolicyName;
use mg_lex::{NUMBER_LIMIT, value_of};

const DEFAULT_WORKERS: u64 = 4;

const MOST_NUMBER: u64 = 1 << 62;

/// The number of workers, by the value of its option where it is given.
pub fn workers_of(text: Option<&str>) -> Option<u64>
    ensures some { IfSome result (IsWorkers (option_map (λ s. s.now) text.entry)) }
    ensures none { IfNone result ((n : ℕ) →
        IsWorkers (option_map (λ s. s.now) text.entry) n → ⊥) }
{
    match text {
        None => Some(DEFAULT_WORKERS),
        Some(text) => number_within(text.as_bytes(), 10, 1, 64),
    }
}

/// The policy, by the value of its option where it is given.
pub fn policy_of(text: Option<&str>) -> Option<PolicyName>
    ensures some { IfSome result (IsPolicy (option_map (λ s. s.now) text.entry)) }
    ensures none { IfNone result ((p : PolicyName) →
        IsPolicy (option_map (λ s. s.now) text.entry) p → ⊥) }
{
    match text {
        None => Some(PolicyName::Even),
        Some(text) => policy_named(text),
    }
}

/// The policy of this name.
fn policy_named(text: &str) -> Option<PolicyName>
    ensures some { IfSome result (λ p. text.now ≡ policy_text p) }
    ensures none { IfNone result ((p : PolicyName) → text.now ≡ policy_text p → ⊥) }
{
    if text == "even" {
        Some(PolicyName::Even)
    } else if text == "doubling" {
        Some(PolicyName::Doubling)
    } else {
        None
    }
}

/// The number of a sample, by the text that stands for it.
pub fn sampled_of(text: Option<&str>) -> Option<u64>
    ensures some { IfSome result (IsSampled (option_map (λ s. s.now) text.entry)) }
    ensures none { IfNone result ((n : ℕ) →
        IsSampled (option_map (λ s. s.now) text.entry) n → ⊥) }
{
    match text {
        None => None,
        Some(text) => number_within(text.as_bytes(), 19, 0, MOST_NUMBER),
    }
}

/// The number that the text is, in at most so many digits, from the least to the most.
fn number_within(text: &[u8], digits: usize, least: u64, most: u64) -> Option<u64>
    requires { most ≤ NUMBER_LIMIT }
    ensures some { IfSome result (IsNumberOf digits least most text.now) }
    ensures none { IfNone result ((n : ℕ) → IsNumberOf digits least most text.now n → ⊥) }
{
    if text.is_empty() || text.len() > digits || !are_digits(text) {
        return None;
    }
    let value = value_of(text)?;
    if least <= value && value <= most {
        Some(value)
    } else {
        None
    }
}

/// Whether all bytes are digits.
fn are_digits(text: &[u8]) -> bool
    ensures { result ≡ list_all is_ascii_digit text.now }
{
    text.iter().all(|byte| byte.is_ascii_digit())
}
