//! Searches and acceptance for worked Asks. In texts of symbols `r`, `s` and `t` are the relators, `h`
//! and `k` the subgroup words, `R`, `H` and `K` inverses of these, `;` the cut, and `a`, `b`, `A` and
//! `B` letters.
ghost use Rattle.std.specs.Prelude.{◌≡◌, ◌≤◌, true};

use super::*;
use mg_fixtures::{ask, ask_in, copies, group, letter, part};
use mg_numbers::{Advance, Digits};
use mg_words::Words;
use std::alloc::Global;

const FREE: &str = "2 | aa ab | Ba";

// The symbol that is written so.
fn symbol(byte: u8) -> Symbol {
    match byte {
        b'r' | b's' | b't' => Symbol::Relator {
            place: u32::from(byte - b'q'),
            inverse: false,
        },
        b'R' => Symbol::Relator {
            place: 1,
            inverse: true,
        },
        b'h' | b'k' => Symbol::Member {
            place: if byte == b'h' { 1 } else { 2 },
            inverse: false,
        },
        b'H' | b'K' => Symbol::Member {
            place: if byte == b'H' { 1 } else { 2 },
            inverse: true,
        },
        _ => match letter(byte) {
            Some(letter) => Symbol::Letter(letter),
            None => Symbol::Cut,
        },
    }
}

// The text that is written so; shorter where memory fails.
fn text_of(alloc: Global, text: &str) -> Option<Derivation> {
    let mut symbols = Vec::new(alloc);
    for byte in text.bytes() {
        let _ = symbols.push(symbol(byte));
    }
    Derivation::from_symbols(alloc, symbols.as_slice()).ok()
}

// Whether this is the text that is written so.
fn is_text(alloc: Global, found: &Derivation, text: &str) -> bool {
    match text_of(alloc, text) {
        Some(expected) => found.symbols() == expected.symbols(),
        None => false,
    }
}

// Whether the search stands at this number with the text that is written so.
fn stands_at(alloc: Global, search: &Enumeration, number: u64, text: &str) -> bool {
    search.cursor() == number && is_text(alloc, search.text(), text)
}

// Whether the search of the Ask at the front of the line finds the text at its end, at the number before
// that text and not earlier.
fn finds(alloc: Global, line: &str) -> Option<bool> {
    let number = part(line, 3).parse::<u64>().ok()?;
    let ask = ask(alloc, line)?;
    let Ok(mut search) = Enumeration::start(alloc, ask) else {
        return None;
    };
    let end = search.advance(300_000);
    Some(
        end == (Advance::Found { spent: number })
            && stands_at(alloc, &search, number, part(line, 4)),
    )
}

const FIRST_TEXTS: &str = "0 | | | 1 |
1 aa | | 1 | 6 | ;
1 aa | | aa | 21 | r;
1 aa | | aa aa | 521 | r;r;
2 aa | | baaB | 1310 | brB;
2 aa bbb abab | b | aba | 1691 | tH;";

#[test]
fn first_texts(rt: HostRuntime) {
    for line in FIRST_TEXTS.lines() {
        assert!(rt; finds(rt.alloc(), line) == Some(true), "{line}");
    }
}

// Whether the search finds as many cuts as goals where these are 4,096 empty words in the trivial group.
fn cuts_are_found(alloc: Global) -> Option<bool> {
    let group = group(alloc, "0")?;
    let ask = ask_in(group, Words::new(alloc), copies(alloc, "1", 4_096))?;
    let Ok(mut search) = Enumeration::start(alloc, ask) else {
        return None;
    };
    let end = search.advance(5_000);
    Some(end == (Advance::Found { spent: 4_097 }) && search.text().symbols().len() == 4_096)
}

#[test]
fn an_ask_with_one_symbol_is_settled_by_cuts(rt: HostRuntime) {
    assert!(rt; cuts_are_found(rt.alloc()) == Some(true));
}

// In how many turns of so many units the search ends, but one.
fn turns_before_the_last(search: &mut Enumeration, units: u64) -> u32
    requires goes_on { search.old.is_open ≡ true }
    requires least { 1 ≤ units }
    requires most { units ≤ 1_000 }
{
    for turn in 0..2_000 {
        if search.cursor() > 300_000 || search.advance(units) != Advance::More {
            return turn;
        }
    }
    2_000
}

// Whether the search in a free group finds its text after so many turns of so many units.
fn finds_in_turns(alloc: Global, units: u64, turns: u32) -> Option<bool>
    requires least { 1 ≤ units }
    requires most { units ≤ 1_000 }
{
    let ask = ask(alloc, FREE)?;
    let Ok(mut search) = Enumeration::start(alloc, ask) else {
        return None;
    };
    let goals = search.ask().goals().len();
    let made = turns_before_the_last(&mut search, units);
    Some(goals == 1 && made == turns && stands_at(alloc, &search, 703, "Kh;"))
}

#[test]
fn turns_of_any_size_find_the_same(rt: HostRuntime) {
    for (units, turns) in [(1, 702), (7, 100), (702, 1), (1_000, 0)] {
        assert!(rt;
            finds_in_turns(rt.alloc(), units, turns) == Some(true),
            "{units}"
        );
    }
}

// Whether the text at the end of the line is accepted for the Ask at its front.
fn is_accepted(alloc: Global, line: &str) -> Option<bool> {
    let ask = ask(alloc, line)?;
    let text = text_of(alloc, part(line, 3))?;
    match Buffers::for_text(alloc, &ask, &text) {
        Ok(mut buffers) => Some(accepts(&ask, &text, &mut buffers)),
        Err(_) => None,
    }
}

// Whether the text, of at most three symbols, is accepted for the Ask in a free group with room for three.
fn is_accepted_in_three(alloc: Global, text: &str) -> Option<bool> {
    let ask = ask(alloc, FREE)?;
    let text = text_of(alloc, text)?;
    if text.symbols().len() > 3 {
        return None;
    }
    match Buffers::for_length(alloc, &ask, 3) {
        Ok(mut buffers) => Some(accepts(&ask, &text, &mut buffers)),
        Err(_) => None,
    }
}

#[test]
fn texts_are_accepted_or_refused(rt: HostRuntime) {
    let alloc = rt.alloc();
    assert!(rt; is_accepted(alloc, "2 | aa ab | Ba | Kh;") == Some(true));
    assert!(rt; is_accepted(alloc, "2 | aa ab | Ba | KaAh;") == Some(false));
    assert!(rt; is_accepted(alloc, "2 aa | | baaB | baaBRbAABbrBr;") == Some(true));
    assert!(rt; is_accepted_in_three(alloc, "Kh;") == Some(true));
    assert!(rt; is_accepted_in_three(alloc, "t;") == Some(false));
}

// Whether this is the text with the number 703 of the Ask in a free group.
fn is_text_703(alloc: Global, text: &str) -> Option<bool> {
    let ask = ask(alloc, FREE)?;
    let Ok(mut found) = Derivation::with_room(alloc, 4_096) else {
        return None;
    };
    let Ok(mut digits) = Digits::make(alloc) else {
        return None;
    };
    symbols_at(&ask, 703, &mut found, &mut digits);
    match found.copy(alloc) {
        Ok(copy) => Some(is_text(alloc, &copy, text)),
        Err(_) => None,
    }
}

// Whether the digit 8 of 9 is that of the inverse of the second subgroup word.
fn digit_comes_back(alloc: Global) -> Option<bool> {
    let ask = ask(alloc, FREE)?;
    if symbol_count(&ask) != 9 {
        return None;
    }
    let sign = symbol_of(&ask, 8);
    Some(digit_of(&ask, sign) == 8 && sign == symbol(b'K'))
}

#[test]
fn texts_and_symbols_by_number(rt: HostRuntime) {
    assert!(rt; is_text_703(rt.alloc(), "Kh;") == Some(true));
    assert!(rt; digit_comes_back(rt.alloc()) == Some(true));
}
