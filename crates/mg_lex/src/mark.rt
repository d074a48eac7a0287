//! Punctuation marks.

ghost use Rattle.std.specs.Prelude.{◌≡◌, IfSome, IfNone};
ghost use Rattle.mg_lex.specs.Mark.{mark_text, IsMark};

/// A punctuation mark.
#[derive(Clone, Copy, Debug, PartialEq, Eq)]
pub enum Mark {
    /// `<`
    Less,
    /// `>`
    Greater,
    /// `,`
    Comma,
    /// `|`
    Bar,
    /// `=`
    Equals,
    /// `^`
    Caret,
    /// `(`
    OpenRound,
    /// `)`
    CloseRound,
    /// `[`
    OpenSquare,
    /// `]`
    CloseSquare,
    /// `:`
    Colon,
    /// `;`
    Semicolon,
    /// `*`
    Star,
    /// `-`
    Minus,
    /// `->`
    Arrow,
}

/// The mark that is written so; None exactly where there is none.
pub fn mark_of(text: &[u8]) -> Option<Mark>
    ensures some { IfSome result (λ m. mark_text m ≡ text.now) }
    ensures none { IfNone result (¬ IsMark text.now) }
{
    match text {
        b"<" => Some(Mark::Less),
        b">" => Some(Mark::Greater),
        b"," => Some(Mark::Comma),
        b"|" => Some(Mark::Bar),
        b"=" => Some(Mark::Equals),
        b"^" => Some(Mark::Caret),
        b"(" => Some(Mark::OpenRound),
        b")" => Some(Mark::CloseRound),
        b"[" => Some(Mark::OpenSquare),
        b"]" => Some(Mark::CloseSquare),
        b":" => Some(Mark::Colon),
        b";" => Some(Mark::Semicolon),
        b"*" => Some(Mark::Star),
        b"-" => Some(Mark::Minus),
        b"->" => Some(Mark::Arrow),
        _ => None,
    }
}
