//! The token at the front of some bytes.

ghost use Rattle.std.specs.Prelude.{◌≡◌, ◌↔◌, ℕ, ◌≤◌, length, take, IsTrue, IfSome, IfNone};
ghost use Rattle.mg_lex.specs.Mark.{IsMark, IsLongestMark};
ghost use Rattle.mg_lex.specs.Line.{IsLongest, BeginsNone};

use crate::mark::mark_of;
use crate::token::TokenKind;
use crate::word::{digits_length, word_kind, word_length};

/// Whether the first `count` bytes are there and are a mark.
fn has_mark(bytes: &[u8], count: usize) -> bool
    ensures { IsTrue result ↔ ((count ≤ length bytes.now) × IsMark (take count bytes.now)) }
{
    count <= bytes.len() && mark_of(&bytes[..count]).is_some()
}

/// How long the longest mark at the front is.
fn mark_length(bytes: &[u8]) -> Option<usize>
    ensures some { IfSome result (IsLongestMark bytes.now) }
    ensures none { IfNone result ((n : ℕ) → n ≤ length bytes.now → IsMark (take n bytes.now) → ⊥) }
{
    if has_mark(bytes, 2) {
        Some(2)
    } else if has_mark(bytes, 1) {
        Some(1)
    } else {
        None
    }
}

/// What the longest token at the front is, and how long it is.
pub(crate) fn longest_token(bytes: &[u8]) -> Option<(TokenKind, usize)>
    ensures some { IfSome result (λ t. IsLongest bytes.now t.0 t.1) }
    ensures none { IfNone result (BeginsNone bytes.now) }
{
    if bytes.is_empty() {
        return None;
    }
    let first = bytes[0];
    if first.is_ascii_alphabetic() {
        let length = word_length(bytes);
        Some((word_kind(&bytes[..length]), length))
    } else if first.is_ascii_digit() {
        Some((TokenKind::Number, digits_length(bytes)))
    } else {
        match mark_length(bytes) {
            Some(length) => Some((TokenKind::Mark, length)),
            None => None,
        }
    }
}
