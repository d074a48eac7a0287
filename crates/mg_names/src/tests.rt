//! Words and names, read in a group with the generators a and b in which u is the name of a word.
ghost use Rattle.std.specs.Prelude.{◌≡◌, ◌≤◌, length, IfSome};
ghost use Rattle.mg_names.specs.Sign.{IsReadable};

use super::*;
use crate::cursor::{Cursor, Name};
use crate::home::Home;
use crate::least::{Fault, Found};
use crate::scope::{Names, Object};
use crate::skipping::skip_word;
use crate::words::product;
use mg_fixtures::{is_word, part, word};
use mg_lex::{Cause, Mark, Text, tokens};
use mg_script::ScriptLine;
use mg_terms::lexemes_of;
use mg_words::Word;
use std::alloc::Global;
use std::test::*;

fn text_of(alloc: Global, bytes: &[u8]) -> Option<Text>
    ensures { IfSome result (λ text. text ≡ bytes.now) }
{
    let mut text = Text::new(alloc);
    match text.extend_from_slice(bytes) {
        Ok(()) => Some(text),
        Err(_) => None,
    }
}

/// The line, which isn't too long, with its tokens and lexemes.
fn line_of(alloc: Global, text: &[u8]) -> Option<ScriptLine>
    ensures { IfSome result IsReadable }
{
    if text.len() > 1_000 {
        return None;
    }
    let bytes = text_of(alloc, text)?;
    let Ok(tokens) = tokens(alloc, text, 1) else {
        return None;
    };
    let Ok(lexemes) = lexemes_of(alloc, text, tokens.as_slice()) else {
        return None;
    };
    Some(ScriptLine {
        number: 1,
        bytes,
        tokens,
        lexemes,
    })
}

/// The names a and b.
fn generators(alloc: Global) -> Option<mg_lex::Names>
    ensures { IfSome result (λ names. length names ≤ 64) }
{
    let mut names = mg_lex::Names::new(alloc);
    let Ok(()) = names.push(text_of(alloc, b"a")?) else {
        return None;
    };
    let Ok(()) = names.push(text_of(alloc, b"b")?) else {
        return None;
    };
    Some(names)
}

/// The names of a table in which u stands for a word of a group.
fn names_with_word(alloc: Global, group: u32) -> Option<Names> {
    let word = word(alloc, "ba");
    let mut names = Names::new(alloc);
    match names.declare(alloc, b"u", Object::Word { group, word }) {
        Ok(()) => Some(names),
        Err(_) => None,
    }
}

/// What a word at the front of the text comes to, and the least cause that its names show.
fn reading(alloc: Global, text: &str) -> Option<(Word, Option<Fault>)> {
    let line = line_of(alloc, text.as_bytes())?;
    let generators = generators(alloc)?;
    let names = names_with_word(alloc, 0)?;
    let home = Home {
        names: &names,
        place: 0,
        generators: &generators,
    };
    let mut found = Found::new();
    match product(alloc, &mut Cursor::of(&line), &home, &mut found) {
        Ok(word) => Some((word, found.least())),
        Err(_) => None,
    }
}

/// Whether the word before the bar is written out as the one behind it.
fn is_written(alloc: Global, line: &str) -> bool {
    match reading(alloc, part(line, 0)) {
        Some((word, None)) => is_word(alloc, &word, part(line, 1)),
        _ => false,
    }
}

fn shows(alloc: Global, text: &str, place: u32, cause: Cause) -> bool {
    match reading(alloc, text) {
        Some((_, Some(fault))) => fault == Fault { place, cause },
        _ => false,
    }
}

const WRITTEN: &str = "[a,b] | ABab
a*(b a)*b | abab
(a b)^2 | abab
(a b)^-1 1 | BA
b^0 a 1^4611686018427387904 = b | a
[a,1]^3 | AaAaAa";

#[test]
fn words_are_written_out(rt: HostRuntime) {
    for line in WRITTEN.lines() {
        assert!(rt; is_written(rt.alloc(), line), "{line}");
    }
}

#[test]
fn names_in_words_are_generators(rt: HostRuntime) {
    let alloc = rt.alloc();
    assert!(rt; shows(alloc, "(u)", 1, Cause::WrongKind));
    assert!(rt; shows(alloc, "a [b, d] u c^0", 6, Cause::UnknownGenerator));
    assert!(rt; shows(alloc, "c^0", 0, Cause::UnknownGenerator));
}

/// What the name u alone comes to where it stands for a word of a group, and in which group it is read.
fn alone(alloc: Global, group: u32, place: u32) -> Option<(Word, Option<Fault>)> {
    let generators = generators(alloc)?;
    let names = names_with_word(alloc, group)?;
    let home = Home {
        names: &names,
        place,
        generators: &generators,
    };
    let mut found = Found::new();
    match home.name_alone(
        alloc,
        Name {
            text: b"u",
            place: 9,
        },
        &mut found,
    ) {
        Ok(word) => Some((word, found.least())),
        Err(_) => None,
    }
}

/// Whether the name comes to the word that is written so.
fn is_alone(alloc: Global, group: u32, place: u32, text: &str) -> bool {
    match alone(alloc, group, place) {
        Some((word, None)) => is_word(alloc, &word, text),
        _ => false,
    }
}

/// Whether the name, at place 9, has the wrong kind there.
fn is_of_wrong_kind(alloc: Global, group: u32, place: u32) -> bool {
    match alone(alloc, group, place) {
        Some((_, Some(fault))) => fault.place == 9 && fault.cause == Cause::WrongKind,
        _ => false,
    }
}

#[test]
fn a_name_alone_is_a_declared_word(rt: HostRuntime) {
    assert!(rt; is_alone(rt.alloc(), 3, 3, "ba"));
    assert!(rt; is_of_wrong_kind(rt.alloc(), 3, 4));
}

/// Whether the mark stands behind the word at the front of the text.
fn stands_behind(alloc: Global, text: &[u8], mark: Mark) -> bool {
    match line_of(alloc, text) {
        Some(line) => {
            let mut cursor = Cursor::of(&line);
            skip_word(&mut cursor);
            cursor.is(mark)
        }
        None => false,
    }
}

#[test]
fn words_are_passed_over(rt: HostRuntime) {
    let alloc = rt.alloc();
    assert!(rt; stands_behind(alloc, b"[a,b^-1]*((c d)^2 1), x", Mark::Comma));
    assert!(rt; stands_behind(alloc, b"x = y", Mark::Equals));
}

#[test]
fn the_least_cause_is_kept(rt: HostRuntime) {
    let mut found = Found::new();
    found.offer(5, Cause::NameTaken);
    found.offer(3, Cause::UnknownGenerator);
    found.offer(3, Cause::WrongKind);
    found.offer(4, Cause::NameTaken);
    assert!(rt;
        found.least()
            == Some(Fault {
                place: 3,
                cause: Cause::WrongKind
            })
    );
}
