use super::*;
use mg_lex::{Cause, Keyword, Mark, Text, tokens};
use std::alloc::Global;
use std::test::*;

/// What is read of a line that is cut into tokens.
fn reading(alloc: Global, line: &[u8]) -> Option<Result<WordRead, WordFault>> {
    if line.len() > 1_000 {
        return None;
    }
    let Ok(tokens) = tokens(alloc, line, 1) else {
        return None;
    };
    let Ok(lexemes) = lexemes_of(alloc, line, tokens.as_slice()) else {
        return None;
    };
    Some(read_word(lexemes.as_slice()))
}

/// Whether a word of so many tokens and letters stands at the front, where these numbers are written
/// before the line.
fn is_word(alloc: Global, text: &str) -> Option<bool> {
    let (count, rest) = text.split_once(' ')?;
    let (letters, line) = rest.split_once(' ')?;
    let count = count.parse::<usize>().ok()?;
    let letters = letters.parse::<u32>().ok()?;
    match reading(alloc, line.as_bytes()) {
        Some(Ok(word)) => Some(word == WordRead { count, letters }),
        _ => None,
    }
}

/// Whether the line is refused at the token with so many before it.
fn is_refused(alloc: Global, line: &[u8], place: usize, cause: Cause) -> bool {
    match reading(alloc, line) {
        Some(Err(fault)) => fault == WordFault { place, cause },
        _ => false,
    }
}

/// Whether the line is refused for the cause at the token whose place is written before it.
fn fails(alloc: Global, text: &str, cause: Cause) -> Option<bool> {
    let (place, line) = text.split_once(' ')?;
    let place = place.parse::<usize>().ok()?;
    Some(is_refused(alloc, line.as_bytes(), place, cause))
}

const WORDS: &str = "7 4 a*b*a*b
8 4 [a,b]^-1
5 3 a b ^ -2
1 0 01
3 0 c^0
3 0 1^5
3 0 1^4611686018427387904
7 10000 (a^100)^100
6 10000 a^10000 b^0
3 2 a^2^3
1 1 a central in G
3 1 (a),b
1 1 a)
1 1 a 2";

const TOO_LONG: &str = "10 ((a^100)^100)^2
2 a^10001 = 1 in G
3 a^10000 b = a
6 [a^5000,b]";

const UNEXPECTED: &str = "5 a^10000 b^)
0 2
2 a* = 1
2 (a
2 [a]
4 [a,b,c]
3 a^-b
0 r1";

#[test]
fn words_are_counted(rt: HostRuntime) {
    for text in WORDS.lines() {
        assert!(rt; is_word(rt.alloc(), text) == Some(true), "{text}");
    }
}

#[test]
fn long_words_are_refused(rt: HostRuntime) {
    for text in TOO_LONG.lines() {
        assert!(rt;
            fails(rt.alloc(), text, Cause::WordTooLong) == Some(true),
            "{text}"
        );
    }
}

#[test]
fn unexpected_tokens_are_refused(rt: HostRuntime) {
    for text in UNEXPECTED.lines() {
        assert!(rt;
            fails(rt.alloc(), text, Cause::Unexpected) == Some(true),
            "{text}"
        );
    }
    assert!(rt; is_refused(rt.alloc(), b"", 0, Cause::Unexpected));
}

/// So many brackets that open. They are fewer where memory fails.
fn brackets(alloc: Global, count: u32) -> Text {
    let mut line = Text::new(alloc);
    for _ in 0..count {
        let _ = line.push(b'(');
    }
    line
}

#[test]
fn brackets_are_counted(rt: HostRuntime) {
    let alloc = rt.alloc();
    assert!(rt;
        is_refused(
            alloc,
            brackets(alloc, 256).as_slice(),
            256,
            Cause::Unexpected
        )
    );
    assert!(rt; is_refused(alloc, brackets(alloc, 257).as_slice(), 256, Cause::TooMany));
}

#[test]
fn lexemes_are_told_apart(rt: HostRuntime) {
    assert!(rt; Lexeme::Mark(Mark::Star).is(Mark::Star));
    assert!(rt; !Lexeme::Keyword(Keyword::In).is(Mark::Star));
    one_word();
    one_end();
    one_place();
    what_follows();
}
