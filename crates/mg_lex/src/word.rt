//! Words: names, keywords and relator signs.

ghost use Rattle.std.specs.Prelude.{◌≡◌, ◌↔◌, IsTrue};
ghost use Rattle.std.specs.List.{list_all, prefix_len};
ghost use Rattle.std.specs.Char.{is_ascii_digit};
ghost use Rattle.mg_lex.specs.Number.{IsNumber};
ghost use Rattle.mg_lex.specs.Token.{is_word_byte, IsWord, IsRelatorSign, IsToken};

use crate::keyword::keyword_of;
use crate::token::TokenKind;

fn is_word_byte(byte: u8) -> bool
    ensures { result ≡ is_word_byte byte }
{
    byte.is_ascii_alphanumeric() || byte == b'_'
}

/// How many letters, digits and underscores stand at the front.
pub(crate) fn word_length(bytes: &[u8]) -> usize
    ensures { result ≡ prefix_len is_word_byte bytes.now }
{
    bytes.iter().take_while(|byte| is_word_byte(**byte)).count()
}

/// How many digits stand at the front.
pub(crate) fn digits_length(bytes: &[u8]) -> usize
    ensures { result ≡ prefix_len is_ascii_digit bytes.now }
{
    bytes
        .iter()
        .take_while(|byte| byte.is_ascii_digit())
        .count()
}

fn are_digits(bytes: &[u8]) -> bool
    ensures { result ≡ list_all is_ascii_digit bytes.now }
{
    bytes.iter().all(|byte| byte.is_ascii_digit())
}

fn is_number(bytes: &[u8]) -> bool
    ensures { IsTrue result ↔ IsNumber bytes.now }
{
    !bytes.is_empty() && are_digits(bytes)
}

fn is_relator_sign(word: &[u8]) -> bool
    ensures { IsTrue result ↔ IsRelatorSign word.now }
{
    match word {
        [b'r', digits @ ..] => is_number(digits),
        _ => false,
    }
}

/// What a word is.
pub(crate) fn word_kind(word: &[u8]) -> TokenKind
    requires { IsWord word.now }
    ensures { IsToken result word.now }
{
    if keyword_of(word).is_some() {
        TokenKind::Keyword
    } else if is_relator_sign(word) {
        TokenKind::RelatorSign
    } else {
        TokenKind::Name
    }
}
