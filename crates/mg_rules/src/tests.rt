//! Worked systems. Rules and words are read from texts: a, b and c are generators, A, B and C their
//! inverses; `>` stands between the sides of a rule, and a comma ends a rule or a word.
ghost use Rattle.std.specs.Prelude.{◌≡◌, ◌≤◌, IfOk, length};
ghost use Rattle.std.specs.List.{AllByRecursion};
ghost use Rattle.mg_present.specs.Ask.{IsReducedOver};
ghost use Rattle.mg_rules.specs.Index.{IsIndexOf};

use super::*;
use mg_lists::List;
use mg_present::{Ask, Presentation, fits};
use mg_words::{Letter, Word, Words, is_over, is_reduced};
use std::alloc::{AllocError, Global};
use std::test::Fail;

// The letter that a byte stands for.
fn letter_of(byte: u8) -> Option<Letter> {
    if byte >= b'a' && byte <= b'z' {
        return Some(Letter {
            generator: byte - b'a' + 1,
            inverse: false,
        });
    }
    if byte >= b'A' && byte <= b'Z' {
        return Some(Letter {
            generator: byte - b'A' + 1,
            inverse: true,
        });
    }
    None
}

// The word that a text stands for, up to a mark.
fn word_of(alloc: Global, text: &[u8]) -> Result<Word, NoMemory> {
    let mut letters = Vec::new(alloc);
    for byte in text {
        let Some(letter) = letter_of(*byte) else {
            break;
        };
        letters.push(letter)?;
    }
    Word::from_letters(alloc, &letters)
}

// The text behind the first such mark.
fn behind(text: &[u8], mark: u8) -> &[u8]
    ensures { length result.now ≤ length text.now }
{
    match text.iter().position(|byte| *byte == mark) {
        Some(place) => &text[place + 1..],
        None => &[],
    }
}

// The words that a text stands for.
fn words_of(alloc: Global, text: &[u8]) -> Result<Words, NoMemory> {
    let mut words = Words::new(alloc);
    let mut rest = text;
    for _ in 0..text.len() {
        if rest.is_empty() {
            break;
        }
        words.push(word_of(alloc, rest)?)?;
        rest = behind(rest, b',');
    }
    Ok(words)
}

// The rules that a text stands for.
fn rules_of(alloc: Global, text: &[u8]) -> Result<Rules, NoMemory> {
    let mut rules = Rules::from_pairs(List::new(alloc));
    let mut rest = text;
    for _ in 0..text.len() {
        if rest.is_empty() {
            break;
        }
        rules.push(RulePair {
            left: word_of(alloc, rest)?,
            right: word_of(alloc, behind(rest, b'>'))?,
        })?;
        rest = behind(rest, b',');
    }
    Ok(rules)
}

// The group with this many generators and these relators.
fn group_of(alloc: Global, generators: u32, relators: &[u8]) -> Result<Presentation, NoMemory>
    ensures { IfOk result (λ group. group.generators ≡ generators) }
{
    let relators = words_of(alloc, relators)?;
    if !fits(generators, &relators) {
        return Err(AllocError);
    }
    Ok(Presentation::new(generators, relators))
}

// Whether the rules are complete for the group.
fn complete(
    alloc: Global,
    generators: u32,
    relators: &[u8],
    rules: &[u8],
) -> Result<bool, NoMemory> {
    let group = group_of(alloc, generators, relators)?;
    is_complete_for(alloc, &group, &rules_of(alloc, rules)?)
}

// The number that the byte of a digit stands for.
fn is_digit(number: u32, byte: u8) -> bool {
    byte >= b'0' && u32::from(byte - b'0') == number
}

// Whether the overlaps and inclusions are these, three digits each, in this order.
fn lists(alloc: Global, rules: &[u8], digits: &[u8]) -> Result<bool, NoMemory> {
    let list = overlaps(alloc, &rules_of(alloc, rules)?)?;
    let mut rest = digits;
    for met in list.as_slice() {
        if rest.len() < 3 {
            return Ok(false);
        }
        if !is_digit(met.first, rest[0]) || !is_digit(met.second, rest[1]) {
            return Ok(false);
        }
        if !is_digit(met.place, rest[2]) {
            return Ok(false);
        }
        rest = &rest[3..];
    }
    Ok(rest.is_empty())
}

// Whether going on from each overlap gives the next one of the list, and nothing behind the last.
fn walks(alloc: Global, text: &[u8], count: usize) -> Result<bool, NoMemory> {
    let rules = rules_of(alloc, text)?;
    let list = overlaps(alloc, &rules)?;
    let mut at = Meeting::before_all();
    for met in list.as_slice() {
        let Some(next) = next_overlap(&rules, &at) else {
            return Ok(false);
        };
        let numbers = (next.first, next.second, next.place);
        if numbers != (met.first as usize, met.second as usize, met.place as usize) {
            return Ok(false);
        }
        at = next;
    }
    Ok(list.as_slice().len() == count && next_overlap(&rules, &at).is_none())
}

// Whether the first descendant of the word is the other one, by both calls.
fn sends(alloc: Global, text: &[u8], from: &[u8], to: &[u8]) -> Result<bool, NoMemory> {
    let rules = rules_of(alloc, text)?;
    if !rules.all_decrease() {
        return Ok(false);
    }
    let index = RuleIndex::make(alloc, &rules)?;
    let word = word_of(alloc, from)?;
    let end = word_of(alloc, to)?;
    let plain = normal_form(alloc, &rules, &word)?;
    Ok(plain == end && normal_form_with(alloc, &rules, &index, &word)? == end)
}

// Whether one rewriting alone is told of the word: the rule is used at the place.
fn tells(
    alloc: Global,
    text: &[u8],
    from: &[u8],
    rule: usize,
    place: usize,
) -> Result<bool, NoMemory> {
    let rules = rules_of(alloc, text)?.copy(alloc)?;
    if !rules.all_decrease() {
        return Ok(false);
    }
    let index = RuleIndex::make(alloc, &rules)?;
    let word = word_of(alloc, from)?;
    let mut told = List::new(alloc);
    let mut rewriter = Rewriter::new(alloc);
    rewriter.descend_and_tell(&rules, &index, word.letters(), &mut told)?;
    let [one] = told.as_slice() else {
        return Ok(false);
    };
    Ok(one.rule == rule && one.place == place)
}

// The word that a text stands for, where it is reduced and over the generators; else no memory.
fn goal_of(alloc: Global, generators: u32, text: &[u8]) -> Result<Words, NoMemory>
    ensures members { IfOk result (λ words. AllByRecursion (IsReducedOver generators) words) }
    ensures count { IfOk result (λ words. length words ≤ 1) }
{
    let word = word_of(alloc, text)?;
    if !is_reduced(&word) || !is_over(generators, &word) {
        return Err(AllocError);
    }
    let mut words = Words::new(alloc);
    words.push(word)?;
    Ok(words)
}

// Whether the rules refute the word in the group.
fn refuted(
    alloc: Global,
    generators: u32,
    relators: &[u8],
    rules: &[u8],
    goal: &[u8],
) -> Result<bool, NoMemory> {
    let group = group_of(alloc, generators, relators)?;
    let goals = goal_of(alloc, generators, goal)?;
    let ask = Ask::new(group, Words::new(alloc), goals);
    refutes(alloc, &ask, 0, &rules_of(alloc, rules)?)
}

// Whether the rules are incomplete for the group without any one of them.
fn needs_each(
    alloc: Global,
    generators: u32,
    relators: &[u8],
    text: &[u8],
) -> Result<bool, NoMemory> {
    let group = group_of(alloc, generators, relators)?;
    let rules = rules_of(alloc, text)?;
    for skipped in 0..rules.pairs().len() {
        let mut others = Rules::from_pairs(List::new(alloc));
        for (place, pair) in rules.pairs().iter().enumerate() {
            if place != skipped {
                others.push(pair.copy(alloc)?)?;
            }
        }
        if is_complete_for(alloc, &group, &others)? {
            return Ok(false);
        }
    }
    Ok(true)
}

// The index of the rules, made by taking in one at a time.
fn added(alloc: Global, rules: &Rules) -> Result<RuleIndex, NoMemory>
    ensures { IfOk result (λ index. IsIndexOf rules.now index) }
{
    let mut known = Rules::from_pairs(List::new(alloc));
    let mut index = RuleIndex::make(alloc, &known)?;
    for pair in rules.pairs() {
        known.push(pair.copy(alloc)?)?;
        index.add(&known)?;
    }
    Ok(index)
}

// The word with a number, from 0, in letters of the first two generators and their inverses: the
// number in base 4 with digits from 1.
fn numbered(alloc: Global, number: u32) -> Result<Word, NoMemory> {
    let mut letters = Vec::new(alloc);
    let mut left = number;
    for _ in 0..16 {
        if left == 0 {
            break;
        }
        let digit = (left - 1) % 4;
        letters.push(Letter {
            generator: if digit < 2 { 1 } else { 2 },
            inverse: digit % 2 == 1,
        })?;
        left = (left - 1) / 4;
    }
    Word::from_letters(alloc, &letters)
}

// How many of the words with numbers below the count are normal, if all calls agree on each.
fn normal_words(alloc: Global, text: &[u8], count: u32) -> Result<Option<u32>, NoMemory> {
    let rules = rules_of(alloc, text)?;
    if !rules.all_decrease() {
        return Ok(None);
    }
    let made = RuleIndex::make(alloc, &rules)?;
    let grown = added(alloc, &rules)?;
    let mut normal = 0u32;
    for number in 0..count {
        let word = numbered(alloc, number)?;
        let plain = normal_form(alloc, &rules, &word)?;
        if normal_form_with(alloc, &rules, &made, &word)? != plain {
            return Ok(None);
        }
        if normal_form_with(alloc, &rules, &grown, &word)? != plain {
            return Ok(None);
        }
        if plain == word {
            normal = normal.saturating_add(1);
        }
    }
    Ok(Some(normal))
}

const CYCLE: &[u8] = b"aA>,Aa>,aa>A,AA>a,";

const FREE: &[u8] = b"aA>,Aa>,bB>,Bb>,";

const SIX: &[u8] = b"A>a,aa>,ba>aB,bb>B,bB>,Ba>ab,Bb>,BB>b,";

const SEVEN: &[u8] = b"aA>,Aa>,bB>,Bb>,aa>,bbb>,abab>,";

#[test]
fn overlaps_are_listed_in_order(rt: HostRuntime) -> Result<(), Fail> {
    let alloc = rt.alloc();
    assert!(rt; lists(alloc, b"A>a,aa>,", b"221")?);
    assert!(rt; lists(alloc, CYCLE, b"121211311231331141421441")?);
    assert!(rt; lists(alloc, b"aba>b,", b"112")?);
    Ok(())
}

#[test]
fn inclusions_are_listed(rt: HostRuntime) -> Result<(), Fail> {
    let alloc = rt.alloc();
    assert!(rt; lists(alloc, b">,aa>,", b"210211212221")?);
    assert!(rt; lists(alloc, b"ab>a,ab>b,", b"120210")?);
    assert!(rt; lists(alloc, b"", b"")?);
    Ok(())
}

#[test]
fn overlaps_come_one_by_one(rt: HostRuntime) -> Result<(), Fail> {
    let alloc = rt.alloc();
    assert!(rt; walks(alloc, b"aA>,Aa>,aa>A,AA>a,aaa>a,", 16)?);
    assert!(rt; walks(alloc, FREE, 4)?);
    assert!(rt; walks(alloc, SIX, 15)?);
    Ok(())
}

#[test]
fn systems_are_complete(rt: HostRuntime) -> Result<(), Fail> {
    let alloc = rt.alloc();
    assert!(rt; complete(alloc, 1, b"aa,", b"A>a,aa>,")?);
    assert!(rt; complete(alloc, 1, b"aaa,", CYCLE)?);
    assert!(rt; complete(alloc, 0, b"", b"")?);
    Ok(())
}

#[test]
fn each_rule_is_needed(rt: HostRuntime) -> Result<(), Fail> {
    let alloc = rt.alloc();
    assert!(rt; complete(alloc, 2, b"aa,bbb,abab,", SIX)?);
    assert!(rt; needs_each(alloc, 2, b"aa,bbb,abab,", SIX)?);
    Ok(())
}

#[test]
fn letters_order_and_inverses_count(rt: HostRuntime) -> Result<(), Fail> {
    let alloc = rt.alloc();
    assert!(rt; !complete(alloc, 1, b"aa,", b"A>a,aa>,bB>,")?);
    assert!(rt; !complete(alloc, 1, b"aa,", b"a>A,AA>,aa>,")?);
    assert!(rt; !complete(alloc, 1, b"", b"aA>,")?);
    Ok(())
}

#[test]
fn relators_overlaps_and_inclusions_count(rt: HostRuntime) -> Result<(), Fail> {
    let alloc = rt.alloc();
    assert!(rt; !complete(alloc, 1, b"aaa,", b"aA>,Aa>,")?);
    assert!(rt; !complete(alloc, 1, b"aaa,", b"aA>,Aa>,aa>A,")?);
    assert!(rt; !complete(alloc, 1, b"aa,", b"A>a,aa>,AAA>,")?);
    assert!(rt; !complete(alloc, 1, b"aaa,", b"aA>,Aa>,aa>A,AA>a,aaa>a,")?);
    Ok(())
}

#[test]
fn goals_are_refuted(rt: HostRuntime) -> Result<(), Fail> {
    let alloc = rt.alloc();
    assert!(rt; refuted(alloc, 1, b"aa,", b"A>a,aa>,", b"a")?);
    assert!(rt; !refuted(alloc, 1, b"aa,", b"A>a,aa>,", b"aa")?);
    assert!(rt; refuted(alloc, 2, b"", FREE, b"ABab")?);
    Ok(())
}

#[test]
fn goals_of_the_six_elements(rt: HostRuntime) -> Result<(), Fail> {
    let alloc = rt.alloc();
    assert!(rt; refuted(alloc, 2, b"aa,bbb,abab,", SIX, b"b")?);
    assert!(rt; !refuted(alloc, 2, b"aa,bbb,abab,", SIX, b"abab")?);
    assert!(rt; sends(alloc, SIX, b"aba", b"B")?);
    Ok(())
}

#[test]
fn the_rule_that_ends_first_is_used(rt: HostRuntime) -> Result<(), Fail> {
    let alloc = rt.alloc();
    assert!(rt; sends(alloc, b"ab>b,b>,", b"ab", b"")?);
    assert!(rt; sends(alloc, b"b>,ab>b,", b"ab", b"a")?);
    assert!(rt; sends(alloc, b"abc>,b>a,", b"abc", b"aac")?);
    assert!(rt; tells(alloc, b"abc>,b>a,", b"abc", 2, 1)?);
    Ok(())
}

#[test]
fn all_calls_agree(rt: HostRuntime) -> Result<(), Fail> {
    let alloc = rt.alloc();
    assert!(rt; normal_words(alloc, SIX, 5_461)? == Some(6));
    assert!(rt; normal_words(alloc, SEVEN, 5_461)?.is_some());
    Ok(())
}
