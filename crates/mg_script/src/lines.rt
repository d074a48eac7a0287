//! The lines of a script.

ghost use Rattle.std.specs.Prelude.{◌≡◌, ◌≢◌, ◌⊎◌, [], ◌∷◌, ◌++◌, ◌≤◌, ◌==◌, not, length, IfSome, IfNone};
ghost use Rattle.std.specs.List.{prefix_len};
ghost use Rattle.mg_script.specs.Lines.{AreLines, EndsInReturn};
ghost use Rattle.mg_script.specs.Cut.{lines_of};

use std::marker::Model;

/// The byte that ends a line.
pub(crate) const FEED: u8 = b'\n';

/// The byte that may stand before it, and is no part of the line then.
pub(crate) const RETURN: u8 = b'\r';

/// The lines that are still to come, each without its end.
#[derive(Drop)]
pub struct Lines<'a> {
    bytes: &'a [u8],
}

impl<'a> Model for Lines<'a> {
    ghost use Rattle.std.specs.Prelude.{ℕ, List};
    ghost use Rattle.mg_script.specs.Cut.{lines_of};

    ghost Value = { List (List ℕ) };

    ghost view = { λ l. lines_of l.bytes.now };
}

impl<'a> Lines<'a> {
    /// The lines of these bytes. The last one may have no end.
    pub fn of(bytes: &'a [u8]) -> Lines<'a>
        ensures { AreLines bytes.now result }
    {
        Lines { bytes }
    }

    /// The next line, without its end.
    pub fn next(&mut self) -> Option<&'a [u8]>
        ensures none { IfNone result (self.old ≡ []) }
        ensures some { IfSome result (λ line. self.old ≡ line.now ∷ self.new) }
    {
        if self.bytes.is_empty() {
            return None;
        }
        let (line, rest) = first_line(self.bytes);
        self.bytes = rest;
        Some(line)
    }
}

/// How many bytes stand before the first line feed.
fn feed_place(bytes: &[u8]) -> usize
    ensures count { result ≡ prefix_len (λ b. not (b == FEED)) bytes.now }
    ensures within { result ≤ length bytes.now }
{
    bytes.iter().take_while(|byte| **byte != FEED).count()
}

/// The bytes without the carriage return at their end, if there is one.
fn without_return(bytes: &[u8]) -> &[u8]
    ensures { (bytes.now ≡ result.now ++ RETURN ∷ []) ⊎ ((bytes.now ≡ result.now) ×
        (¬ EndsInReturn bytes.now)) }
{
    match bytes {
        [front @ .., RETURN] => front,
        _ => bytes,
    }
}

/// The first line, without its end, and what stands behind it.
fn first_line(bytes: &[u8]) -> (&[u8], &[u8])
    requires { bytes.now ≢ [] }
    ensures { lines_of bytes.now ≡ result.0.now ∷ lines_of result.1.now }
{
    let place = feed_place(bytes);
    if place == bytes.len() {
        return (bytes, &[]);
    }
    (without_return(&bytes[..place]), &bytes[place + 1..])
}
