//! Words whose names aren't looked up.

ghost use Rattle.std.specs.Prelude.{◌≡◌, ◌++◌, ◌+◌, ◌<◌, List as ListOf};
ghost use Rattle.mg_names.specs.Named.{Word};
ghost use Rattle.mg_names.specs.Sign as spec;
ghost use Rattle.mg_names.specs.Sign.{Sign, word_signs, Stops};

use crate::cursor::{Cursor, goes_on};
use mg_lex::Mark;
use mg_terms::Lexeme;

/// Goes on behind a word.
pub(crate) fn skip_word(cursor: &mut Cursor)
    ensures { (w : Word) (rest : ListOf Sign) → cursor.old ≡ word_signs w ++ rest → Stops rest →
        cursor.new ≡ rest }
{
    let mut depth = 0;
    for _step in 0..cursor.left() {
        match cursor.lexeme() {
            None => return,
            Some(lexeme) => {
                if depth == 0 && !goes_on(lexeme) {
                    return;
                }
                depth = depth_behind(depth, lexeme);
                cursor.skip();
            }
        }
    }
}

/// How many brackets are open behind a lexeme.
fn depth_behind(depth: usize, lexeme: Lexeme) -> usize
    requires { depth < usize.MAX }
    ensures { result ≡ spec.depth_behind depth lexeme }
{
    match lexeme {
        Lexeme::Mark(mark) => mark_behind(depth, mark),
        Lexeme::Name | Lexeme::Keyword(_) | Lexeme::RelatorSign | Lexeme::Number(_) => depth,
    }
}

/// How many brackets are open behind a mark.
fn mark_behind(depth: usize, mark: Mark) -> usize
    requires { depth < usize.MAX }
    ensures { result ≡ spec.mark_behind depth mark }
{
    match mark {
        Mark::OpenRound | Mark::OpenSquare => depth + 1,
        Mark::CloseRound | Mark::CloseSquare => depth.saturating_sub(1),
        Mark::Less
        | Mark::Greater
        | Mark::Comma
        | Mark::Bar
        | Mark::Equals
        | Mark::Caret
        | Mark::Colon
        | Mark::Semicolon
        | Mark::Star
        | Mark::Minus
        | Mark::Arrow => depth,
    }
}
