ghost use Rattle.std.specs.Prelude.{◌<◌, ◌-◌, ◌^◌, length};

use super::*;
use std::alloc::Global;
use std::test::*;

/// The letter that stands where a token of this kind begins.
fn first_letter(kind: TokenKind) -> u8 {
    match kind {
        TokenKind::Name => b'N',
        TokenKind::Keyword => b'K',
        TokenKind::RelatorSign => b'R',
        TokenKind::Number => b'D',
        TokenKind::Mark => b'M',
    }
}

/// The tokens as a picture of their line: a large letter where one begins, small letters for its other
/// bytes, and spaces between. It is shorter where memory fails.
fn picture(alloc: Global, tokens: &[Token]) -> Text {
    let mut picture = Text::new(alloc);
    for token in tokens {
        for _ in picture.as_slice().len()..token.start as usize {
            let _ = picture.push(b' ');
        }
        let letter = first_letter(token.kind);
        let _ = picture.push(letter);
        for _ in 1..token.length {
            let _ = picture.push(letter.to_ascii_lowercase());
        }
    }
    picture
}

/// Whether the line has exactly the tokens of the picture.
fn is_cut(alloc: Global, line: &[u8], expected: &str) -> bool
    requires { length line.now < 2 ^ 32 - 1 }
{
    match tokens(alloc, line, 1) {
        Ok(found) => picture(alloc, found.as_slice()).as_slice() == expected.as_bytes(),
        Err(_) => false,
    }
}

/// Whether the line is cut as the picture behind the arrow says.
fn is_drawn(alloc: Global, row: &str) -> bool {
    match row.split_once(" => ") {
        Some((line, expected)) => line.len() < 1_000 && is_cut(alloc, line.as_bytes(), expected),
        None => false,
    }
}

const LINES: &str = "c = 1 in G => N M D Kk N
-> - >#->~ => Mm M M
\ta*b*a =>  NMNMN
r12x 012a => Nnnn DddN
r0123456789012345678901234567890123456789 => Rrrrrrrrrrrrrrrrrrrrrrrrrrrrrrrrrrrrrrrrr
4611686018427387904 a2345678901234567890123456789_12 => Ddddddddddddddddddd Nnnnnnnnnnnnnnnnnnnnnnnnnnnnnnnn";

#[test]
fn lines_are_cut(rt: HostRuntime) {
    for row in LINES.lines() {
        assert!(rt; is_drawn(rt.alloc(), row), "{row}");
    }
    assert!(rt; is_cut(rt.alloc(), b"", ""));
}

/// Whether `tokens` refuses the line so.
fn is_refused(alloc: Global, line: &[u8], refused: Refused) -> bool
    requires { length line.now < 2 ^ 32 - 1 }
{
    match tokens(alloc, line, refused.line) {
        Err(LexRefused::Refused(found)) => found == refused,
        _ => false,
    }
}

/// Whether `lex` stops so, with so many tokens before, and with the token of the picture there.
fn stops(alloc: Global, line: &[u8], refused: Refused, before: usize, at: &str) -> bool
    requires { length line.now < 2 ^ 32 - 1 }
{
    let Ok(lexed) = lex(alloc, line, refused.line) else {
        return false;
    };
    if lexed.tokens.as_slice().len() != before {
        return false;
    }
    match lexed.fault {
        Some(fault) => fault.refused == refused && is_token(alloc, fault.token, at),
        None => false,
    }
}

/// Whether the token is the one of the picture, or there is none and the picture is empty.
fn is_token(alloc: Global, token: Option<Token>, at: &str) -> bool {
    match token {
        Some(token) => picture(alloc, &[token]).as_slice() == at.as_bytes(),
        None => at.is_empty(),
    }
}

/// Whether both calls refuse the line, which has the number 7.
fn fails(alloc: Global, line: &[u8], column: u32, cause: Cause, before: usize, at: &str) -> bool {
    let refused = Refused {
        line: 7,
        column,
        cause,
    };
    line.len() < 100_000
        && is_refused(alloc, line, refused)
        && stops(alloc, line, refused, before, at)
}

#[test]
fn the_least_refusal_comes(rt: HostRuntime) {
    let alloc = rt.alloc();
    let number = "  Ddddddddddddddddddd";
    assert!(rt;
        fails(
            alloc,
            b"a^4611686018427387905",
            3,
            Cause::NumberTooLarge,
            2,
            number
        )
    );
    let name = "Nnnnnnnnnnnnnnnnnnnnnnnnnnnnnnnnn";
    let long = b"a23456789012345678901234567890123 \x7f";
    assert!(rt; fails(alloc, long, 1, Cause::BadToken, 0, name));
    assert!(rt; fails(alloc, b"map _ \x7f", 5, Cause::BadToken, 1, ""));
    assert!(rt; fails(alloc, b"a #\x7f", 4, Cause::BadByte, 1, ""));
    assert!(rt; fails(alloc, b"# \xc8", 3, Cause::BadByte, 0, ""));
}

/// So many spaces, and then the bytes.
fn behind_spaces(alloc: Global, bytes: &[u8]) -> Text {
    let mut line = Text::new(alloc);
    for _ in 0..65_536 {
        let _ = line.push(b' ');
    }
    let _ = line.extend_from_slice(bytes);
    line
}

/// Whether the refusal is at this token: its kind, its place and its length.
fn is_span(token: Option<Token>, kind: TokenKind, start: u32, length: u32) -> bool {
    match token {
        Some(token) => token.kind == kind && token.start == start && token.length == length,
        None => false,
    }
}

/// Whether the long line, which ends with a number of one digit, is refused there.
fn is_too_long(alloc: Global, line: &[u8]) -> bool {
    let refused = Refused {
        line: 7,
        column: 65_537,
        cause: Cause::LineTooLong,
    };
    if line.len() > 100_000 || !is_refused(alloc, line, refused) {
        return false;
    }
    match lex(alloc, line, 7) {
        Ok(lexed) => match lexed.fault {
            Some(fault) => fault.refused == refused
                && is_span(fault.token, TokenKind::Number, 65_536, 1)
                && lexed.tokens.as_slice().is_empty(),
            None => false,
        },
        Err(_) => false,
    }
}

/// Whether the long line has no token.
fn is_blank(alloc: Global, line: &[u8]) -> bool {
    line.len() < 100_000 && is_cut(alloc, line, "")
}

#[test]
fn long_lines_are_refused(rt: HostRuntime) {
    let alloc = rt.alloc();
    assert!(rt; is_blank(alloc, behind_spaces(alloc, b"").as_slice()));
    assert!(rt; is_too_long(alloc, behind_spaces(alloc, b"9").as_slice()));
    let bad = behind_spaces(alloc, b"\"\0");
    assert!(rt; fails(alloc, bad.as_slice(), 65_537, Cause::BadToken, 0, ""));
}

#[test]
fn keywords_are_known(rt: HostRuntime) {
    assert!(rt; keyword_of(b"cosets") == Some(Keyword::Cosets));
    assert!(rt; keyword_of(b"coset").is_none());
    assert!(rt; Keyword::By.text() == b"by".as_slice());
}

#[test]
fn marks_are_known(rt: HostRuntime) {
    assert!(rt; mark_of(b"->") == Some(Mark::Arrow));
    assert!(rt; mark_of(b">-").is_none());
}

#[test]
fn numbers_are_known(rt: HostRuntime) {
    assert!(rt; value_of(b"0004611686018427387904") == Some(4_611_686_018_427_387_904));
    assert!(rt; value_of(b"46116860184273879040").is_none());
}

/// Whether the two bytes in the middle of four are those of the token there.
fn has_bytes(line: &[u8], expected: &[u8]) -> bool {
    let token = Token {
        kind: TokenKind::Name,
        start: 1,
        length: 2,
    };
    line.len() == 4 && token.bytes(line) == expected
}

/// Whether the refusal has this message.
fn has_message(alloc: Global, refused: LexRefused, message: &str) -> bool {
    match format!(in alloc; "{refused}") {
        Ok(found) => found.as_str() == message,
        Err(_) => false,
    }
}

#[test]
fn tokens_and_causes_are_written(rt: HostRuntime) {
    assert!(rt; has_bytes(b"(ab)", b"ab"));
    let refused = LexRefused::Refused(Refused {
        line: 2,
        column: 3,
        cause: Cause::BadByte,
    });
    assert!(rt; has_message(rt.alloc(), refused, "line 2, column 3: BadByte"));
}

#[test]
fn causes_are_in_order(rt: HostRuntime) {
    assert!(rt; Cause::ProcedureDoesNotApply.number() == 14);
    assert!(rt; Cause::LineTooLong.is_before(Cause::NumberTooLarge));
    one_kind();
    one_reading();
    one_refusal();
}
