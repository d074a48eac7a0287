use super::*;
use mg_fixtures::part;
use mg_lex::{Cause, Refused, Text, tokens};
use mg_lists::NoMemory;
use mg_terms::lexemes_of;
use std::alloc::Global;
use std::str::SplitWhitespace;
use std::test::*;

/// Whether these are the three lines of the bytes.
fn are_lines(bytes: &[u8], first: &[u8], second: &[u8], third: &[u8]) -> bool {
    let mut lines = Lines::of(bytes);
    is_next(&mut lines, first)
        && is_next(&mut lines, second)
        && is_next(&mut lines, third)
        && lines.next().is_none()
}

fn is_next(lines: &mut Lines, bytes: &[u8]) -> bool {
    match lines.next() {
        Some(line) => line == bytes,
        None => false,
    }
}

#[test]
fn lines_end_in_two_ways(rt: HostRuntime) {
    assert!(rt; are_lines(b"run\r\n\n report\t", b"run", b"", b" report\t"));
    assert!(rt; are_lines(b"\r\r\na\rb\n\r", b"\r", b"a\rb", b"\r"));
    assert!(rt; Lines::of(b"").next().is_none());
}

#[test]
fn laws_are_called(rt: HostRuntime) {
    one_cut();
    one_statement();
    one_place();
    a_script_or_a_refusal();
    the_limits();
    assert!(rt; Property::Trivial != Property::Onto);
    assert!(rt; Printed::Facts != Printed::Log);
}

const NOTHING: Counts = Counts {
    groups: 0,
    words: 0,
    subgroups: 0,
    maps: 0,
    questions: 0,
    generators: 0,
    relators: 0,
    members: 0,
    reports: 0,
    letters: 0,
};

/// What is read of the lexemes of a line, where so much has been counted before.
fn reading(alloc: Global, line: &[u8], counts: Counts) -> Option<Result<Counts, StatementFault>> {
    if line.len() > 10_000 {
        return None;
    }
    let Ok(tokens) = tokens(alloc, line, 1) else {
        return None;
    };
    let Ok(lexemes) = lexemes_of(alloc, line, tokens.as_slice()) else {
        return None;
    };
    Some(read_statement(lexemes.as_slice(), counts))
}

/// Whether the line is a statement behind what has been counted, after which so much has been counted.
fn counts_to(alloc: Global, line: &str, before: Counts, after: Counts) -> bool {
    match reading(alloc, line.as_bytes(), before) {
        Some(Ok(counts)) => counts == after,
        _ => false,
    }
}

/// Whether the line is refused at the lexeme with so many before it.
fn is_refused(alloc: Global, line: &[u8], before: Counts, place: usize, cause: Cause) -> bool {
    match reading(alloc, line, before) {
        Some(Err(fault)) => fault == StatementFault { place, cause },
        _ => false,
    }
}

/// Whether the line is a statement behind what has been counted, or None where it has a bad token.
fn is_read(alloc: Global, line: &str, before: Counts) -> Option<bool> {
    Some(reading(alloc, line.as_bytes(), before)?.is_ok())
}

const STATEMENTS: &str = "ask q : a = b c in G
ask q : a in H
ask q : a in kernel f
ask q : a central in G
ask q : G trivial
ask q : f onto
run
run 5
fund 1
grant q act 1
cancel q recall
report
report facts
report log
group G = < >
group G = < | >
group G = < a, b | c >
subgroup H of G = < >
subgroup H of G = < a a, 1 >
map f : G -> H = [ a -> b ]";

#[test]
fn statements_are_read(rt: HostRuntime) {
    for line in STATEMENTS.lines() {
        assert!(rt; is_read(rt.alloc(), line, NOTHING) == Some(true), "{line}");
    }
}

/// Whether a lexeme of the line is unexpected. How many stand before it is written before the line.
fn is_unexpected(alloc: Global, text: &str) -> Option<bool> {
    let (place, line) = text.split_once(' ')?;
    let place = place.parse::<usize>().ok()?;
    Some(is_refused(alloc, line.as_bytes(), NOTHING, place, Cause::Unexpected))
}

const UNEXPECTED: &str = "5 ask q : a b trivial
4 ask q : 1 trivial
1 fund
2 run 5 5
4 group G = <
6 group G = < a, >
8 group G = < a | b = >
10 map f : G -> H = [ a -> ]";

#[test]
fn statements_are_refused(rt: HostRuntime) {
    for text in UNEXPECTED.lines() {
        assert!(rt; is_unexpected(rt.alloc(), text) == Some(true), "{text}");
    }
    let long = b"group G = < a | a^10000 = a >";
    assert!(rt; is_refused(rt.alloc(), long, NOTHING, 10, Cause::WordTooLong));
}

/// So many words, questions, subgroups and maps as the text says.
fn declared(text: &str) -> Counts {
    let mut numbers = text.split_whitespace();
    Counts {
        words: next_number(&mut numbers),
        questions: next_number(&mut numbers),
        subgroups: next_number(&mut numbers),
        maps: next_number(&mut numbers),
        ..NOTHING
    }
}

fn next_number(numbers: &mut SplitWhitespace<'_>) -> u32 {
    match numbers.next() {
        Some(number) => number.parse::<u32>().unwrap_or(0),
        None => 0,
    }
}

/// Whether the line is a statement behind the declarations first written, and none behind the others.
fn ends_between(alloc: Global, text: &str) -> bool {
    let line = part(text, 2);
    is_read(alloc, line, declared(part(text, 0))) == Some(true)
        && is_read(alloc, line, declared(part(text, 1))) == Some(false)
}

const LIMITS: &str = "1023 1024 256 256 | 1024 0 0 0 | word w in G = a
1024 1023 256 256 | 0 1024 0 0 | ask q : a in H
1024 1024 255 256 | 0 0 256 0 | subgroup H of G = < >
1024 1024 256 255 | 0 0 0 256 | map f : G -> H = [ ]";

#[test]
fn declarations_have_limits(rt: HostRuntime) {
    for text in LIMITS.lines() {
        assert!(rt; ends_between(rt.alloc(), text), "{text}");
    }
}

#[test]
fn reports_are_counted(rt: HostRuntime) {
    let many = Counts {
        reports: 64,
        ..NOTHING
    };
    assert!(rt; is_refused(rt.alloc(), b"report", many, 0, Cause::TooMany));
}

#[test]
fn words_are_counted(rt: HostRuntime) {
    let after = Counts {
        words: 1,
        letters: 2,
        ..NOTHING
    };
    assert!(rt; counts_to(rt.alloc(), "word w in G = a a", NOTHING, after));
    let full = Counts {
        letters: 999_999,
        ..NOTHING
    };
    assert!(rt; is_refused(rt.alloc(), b"word w in G = a a", full, 6, Cause::TooMany));
}

#[test]
fn groups_are_counted(rt: HostRuntime) {
    let after = Counts {
        groups: 1,
        generators: 2,
        relators: 2,
        letters: 4,
        ..NOTHING
    };
    let line = "group G = < a, b | a = b a, b >";
    assert!(rt; counts_to(rt.alloc(), line, NOTHING, after));
    let full = Counts {
        relators: 255,
        ..NOTHING
    };
    assert!(rt; is_refused(rt.alloc(), line.as_bytes(), full, 13, Cause::TooMany));
}

#[test]
fn generators_have_a_limit(rt: HostRuntime) -> Result<(), Fail> {
    let mut line = repeated(rt.alloc(), b"group G = < a", b", a", 64)?;
    line.extend_from_slice(b" >")?;
    assert!(rt; is_refused(rt.alloc(), line.as_slice(), NOTHING, 132, Cause::TooMany));
    Ok(())
}

/// The bytes, and then so many times the piece.
fn repeated(alloc: Global, bytes: &[u8], piece: &[u8], count: usize) -> Result<Text, NoMemory> {
    let mut text = Text::new(alloc);
    text.extend_from_slice(bytes)?;
    for _ in 0..count {
        text.extend_from_slice(piece)?;
    }
    Ok(text)
}

/// The script of some bytes, which are few enough.
fn script_of(alloc: Global, bytes: &[u8]) -> Result<Script, ParseRefused> {
    if bytes.len() >= u32::MAX as usize {
        return Err(ParseRefused::NoMemory);
    }
    parse(alloc, bytes)
}

/// Whether the bytes are a script with so many statements.
fn is_script(alloc: Global, bytes: &[u8], count: usize) -> bool {
    match script_of(alloc, bytes) {
        Ok(script) => script.as_slice().len() == count,
        Err(_) => false,
    }
}

fn refused_at(alloc: Global, bytes: &[u8], line: u32, column: u32, cause: Cause) -> bool {
    match script_of(alloc, bytes) {
        Err(ParseRefused::Refused(refused)) => refused
            == Refused {
                line,
                column,
                cause,
            },
        _ => false,
    }
}

const GROUP_LINE: &[u8] = b"group G = < a | >\n";

/// Whether the line is read behind that of a group.
fn follows(alloc: Global, line: &[u8]) -> bool {
    match repeated(alloc, GROUP_LINE, line, 1) {
        Ok(script) => is_script(alloc, script.as_slice(), 2),
        Err(_) => false,
    }
}

fn follows_not(alloc: Global, line: &[u8], column: u32, cause: Cause) -> bool {
    match repeated(alloc, GROUP_LINE, line, 1) {
        Ok(script) => refused_at(alloc, script.as_slice(), 2, column, cause),
        Err(_) => false,
    }
}

#[test]
fn words_are_read(rt: HostRuntime) {
    let alloc = rt.alloc();
    assert!(rt; follows(alloc, b"word w in G = (a^100)^100"));
    assert!(rt; follows(alloc, b"word w in G = 1^4611686018427387904"));
    assert!(rt; follows(alloc, b"word w in G = 01"));
    assert!(rt; follows(alloc, b"word w in G = 1^5"));
}

#[test]
fn words_are_refused(rt: HostRuntime) {
    let alloc = rt.alloc();
    assert!(rt;
        follows_not(
            alloc,
            b"word w in G = ((a^100)^100)^2",
            29,
            Cause::WordTooLong
        )
    );
    assert!(rt; follows_not(alloc, b"ask q : a^10001 = 1 in G", 11, Cause::WordTooLong));
    assert!(rt;
        follows_not(
            alloc,
            b"word w in G = a^4611686018427387905",
            17,
            Cause::NumberTooLarge
        )
    );
    assert!(rt;
        follows_not(
            alloc,
            b"word w in G = 99999999999999999999",
            15,
            Cause::Unexpected
        )
    );
}

#[test]
fn lines_end_too_early(rt: HostRuntime) {
    let alloc = rt.alloc();
    assert!(rt; follows_not(alloc, b"word w in G =", 14, Cause::Unexpected));
    assert!(rt; follows_not(alloc, b"word w in G = ", 15, Cause::Unexpected));
    assert!(rt; follows_not(alloc, b"word w in G =  # a\n", 19, Cause::Unexpected));
}

#[test]
fn brackets_are_counted(rt: HostRuntime) -> Result<(), Fail> {
    let alloc = rt.alloc();
    let line = repeated(alloc, b"word w in G = ", b"(", 257)?;
    assert!(rt; follows_not(alloc, line.as_slice(), 271, Cause::TooMany));
    Ok(())
}

#[test]
fn groups_have_a_limit(rt: HostRuntime) -> Result<(), Fail> {
    let alloc = rt.alloc();
    let most = repeated(alloc, b"", GROUP_LINE, 64)?;
    assert!(rt; is_script(alloc, most.as_slice(), 64));
    let more = repeated(alloc, b"", GROUP_LINE, 65)?;
    assert!(rt; refused_at(alloc, more.as_slice(), 65, 7, Cause::TooMany));
    Ok(())
}

/// A group, a hundred words of 10,000 letters, and then the line.
fn behind_all_letters(alloc: Global, line: &[u8]) -> Result<Text, NoMemory> {
    let mut text = repeated(alloc, GROUP_LINE, b"word w in G = a^10000\n", 100)?;
    text.extend_from_slice(line)?;
    Ok(text)
}

#[test]
fn a_name_counts_no_letter(rt: HostRuntime) -> Result<(), Fail> {
    let alloc = rt.alloc();
    let about_a_name = behind_all_letters(alloc, b"ask q : G trivial")?;
    assert!(rt; is_script(alloc, about_a_name.as_slice(), 102));
    let without_letters = behind_all_letters(alloc, b"ask q : 1 = 1 in G")?;
    assert!(rt; is_script(alloc, without_letters.as_slice(), 102));
    Ok(())
}

#[test]
fn all_words_have_at_most_1_000_000_letters(rt: HostRuntime) -> Result<(), Fail> {
    let alloc = rt.alloc();
    let with_a_power = behind_all_letters(alloc, b"ask q : a^1 = 1 in G")?;
    assert!(rt; refused_at(alloc, with_a_power.as_slice(), 102, 11, Cause::TooMany));
    let with_a_letter = behind_all_letters(alloc, b"ask q : a = 1 in G")?;
    assert!(rt; refused_at(alloc, with_a_letter.as_slice(), 102, 9, Cause::TooMany));
    Ok(())
}

#[test]
fn lines_without_tokens_are_skipped(rt: HostRuntime) {
    let alloc = rt.alloc();
    assert!(rt; is_script(alloc, b"", 0));
    assert!(rt; is_script(alloc, b"\r\n# fund\n\t\n", 0));
    assert!(rt; is_script(alloc, b"group\tG=<a>\r\n#\n run # all\n\treport facts", 3));
    assert!(rt; is_script(alloc, b"group G = < a | 1 >\r\n", 1));
}

#[test]
fn bytes_are_refused(rt: HostRuntime) {
    let alloc = rt.alloc();
    assert!(rt; refused_at(alloc, b"run\r", 1, 4, Cause::BadByte));
    assert!(rt; refused_at(alloc, b"# \x7f\n", 1, 3, Cause::BadByte));
    assert!(rt; refused_at(alloc, b"run 1 $", 1, 7, Cause::BadToken));
}

#[test]
fn the_first_cause_wins(rt: HostRuntime) {
    let alloc = rt.alloc();
    assert!(rt; refused_at(alloc, b"run run # \x7f", 1, 5, Cause::Unexpected));
    assert!(rt; refused_at(alloc, b"report fa\x7fcts", 1, 8, Cause::Unexpected));
    assert!(rt; refused_at(alloc, b"run # \x7f\nrun run", 1, 7, Cause::BadByte));
}

/// Whether the bytes have one statement, on this line, of these bytes and so many tokens.
fn is_kept(alloc: Global, bytes: &[u8], number: u32, line: &[u8], count: usize) -> bool {
    let Ok(script) = script_of(alloc, bytes) else {
        return false;
    };
    match script.as_slice() {
        [kept] => kept.number == number
            && kept.bytes.as_slice() == line
            && kept.tokens.as_slice().len() == count
            && kept.lexemes.as_slice().len() == count,
        _ => false,
    }
}

#[test]
fn statements_are_kept(rt: HostRuntime) {
    let alloc = rt.alloc();
    assert!(rt; is_kept(alloc, b"\n#\n\tfund 5 # x\r\n", 3, b"\tfund 5 # x", 2));
    assert!(rt; is_kept(alloc, b"cancel q act", 1, b"cancel q act", 3));
}
