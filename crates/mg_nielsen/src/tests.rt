//! Searches over small free groups. Signs are written as letters: `a` is the first subgroup word, `B` the inverse of
//! the second.
ghost use Rattle.std.specs.Prelude.{◌≡◌, ◌≢◌, ◌+◌, ◌^◌, ◌≤◌, ◌<◌, None, true, IfOk, IfSome, IsTrue, [], length};
ghost use Rattle.mg_turn.specs.declared.outcome.TurnEnd.TheVariants.{More};

use super::*;
use mg_certs::{Claim, ClaimView, Verdict, Yes, claim_yes};
use mg_core::{Facts, Records};
use mg_derive::{Derivation, Symbol};
use mg_fixtures::{ask as asked_so, ask_in, power, words};
use mg_present::{Ask, Presentation, applies};
use mg_turn::{Limit, MOST_LETTERS, Outcome, Searcher, Stop, TurnEnd};
use mg_words::{Procedure, Word, Words};
use std::alloc::{AllocError, Global};
use std::test::Fail;

// Knows no record.
#[derive(Drop)]
struct Ignorant;

impl Stop<Claim> for Ignorant {
    ghost known = { λ _. None };

    fn look(&mut self) -> Option<&Claim> {
        None
    }
}

fn no_models(alloc: Global) -> Facts<Claim>
    ensures { result.records ≡ [] }
{
    Facts {
        from: 0,
        upto: 0,
        records: Records::new(alloc),
    }
}

// A search for what is asked.
fn started(alloc: Global, ask: &Ask) -> Result<Nielsen, NoMemory>
    ensures goes_on { IfOk result (λ search. search.is_open ≡ true) }
    ensures spent { IfOk result (λ search. search.spent ≡ 0) }
{
    if !applies(Procedure::Nielsen, ask) {
        return Err(AllocError);
    }
    Nielsen::start(alloc, ask)
}

// One turn of 100 units.
fn turned(alloc: Global, ask: &Ask) -> Result<Outcome<Claim>, NoMemory> {
    let mut search = started(alloc, ask)?;
    search.turn(alloc, 100, no_models(alloc), &mut Ignorant)
}

// What is asked, as the fixtures write it.
fn asked(alloc: Global, text: &str) -> Result<Ask, NoMemory> {
    match asked_so(alloc, text) {
        Some(ask) => Ok(ask),
        None => Err(AllocError),
    }
}

// Whether the symbols are these lists of signs, each with a cut behind it.
fn are_signs(alloc: Global, symbols: &[Symbol], signs: &str) -> Result<bool, NoMemory> {
    let mut text = Vec::new(alloc);
    for list in words(alloc, signs).as_slice() {
        for sign in list.letters() {
            text.push(Symbol::Member {
                place: u32::from(sign.generator),
                inverse: sign.inverse,
            })?;
        }
        text.push(Symbol::Cut)?;
    }
    Ok(symbols == text.as_slice())
}

// Whether the records are the Ask settled by these signs, which the checker accepts when they are made anew.
fn are_the_claim(alloc: Global, records: &[Claim], signs: &str) -> Result<bool, NoMemory> {
    let [claim] = records else {
        return Ok(false);
    };
    let ClaimView::Settled(ask, Verdict::Yes(Yes::Derivation(text))) = claim.view() else {
        return Ok(false);
    };
    let anew = Derivation::from_symbols(alloc, text.symbols())?;
    let accepted = match claim_yes(alloc, ask.copy(alloc)?, Yes::Derivation(anew)) {
        Ok(_) => true,
        Err(_) => false,
    };
    Ok(accepted && are_signs(alloc, text.symbols(), signs)?)
}

// Whether a turn finds these signs and spends these units.
fn finds(alloc: Global, text: &str, units: u64, signs: &str) -> Result<bool, NoMemory> {
    let Outcome { spent, end } = turned(alloc, &asked(alloc, text)?)?;
    match end {
        TurnEnd::Found(records) => {
            Ok(spent == units && are_the_claim(alloc, records.as_slice(), signs)?)
        }
        _ => Ok(false),
    }
}

// Whether a turn is closed without a record and spends these units.
fn closes(alloc: Global, text: &str, units: u64) -> Result<bool, NoMemory> {
    let Outcome { spent, end } = turned(alloc, &asked(alloc, text)?)?;
    match end {
        TurnEnd::Closed(records) => Ok(spent == units && records.as_slice().is_empty()),
        _ => Ok(false),
    }
}

#[test]
fn a_goal_is_peeled_by_two_factors(rt: HostRuntime) -> Result<(), Fail> {
    let alloc = rt.alloc();
    assert!(rt; finds(alloc, "2 | aa ab | Ba", 1, "Ba")?);
    assert!(rt; closes(alloc, "2 | aa ab | a", 0)?);
    Ok(())
}

#[test]
fn powers_are_reached_by_peelings(rt: HostRuntime) -> Result<(), Fail> {
    let alloc = rt.alloc();
    assert!(rt; finds(alloc, "1 | aaaaaa aaaa | aa", 1, "aB")?);
    assert!(rt; closes(alloc, "1 | aaaaaa aaaa | a", 3)?);
    assert!(rt; finds(alloc, "1 | aaa aaaaa | a", 2, "aaB")?);
    Ok(())
}

#[test]
fn three_powers_generate_their_common_divisor(rt: HostRuntime) -> Result<(), Fail> {
    let alloc = rt.alloc();
    let text = "1 | aaaaaa aaaaaaaaaa aaaaaaaaaaaaaaa | a";
    assert!(rt; finds(alloc, text, 2, "abC")?);
    Ok(())
}

#[test]
fn a_word_may_stand_twice(rt: HostRuntime) -> Result<(), Fail> {
    let alloc = rt.alloc();
    assert!(rt; finds(alloc, "2 | ab ab | abab", 1, "aa")?);
    Ok(())
}

// How many parts the derivation has that is found, if one is.
fn parts_found(alloc: Global, text: &str) -> Result<usize, NoMemory> {
    match turned(alloc, &asked(alloc, text)?)?.end {
        TurnEnd::Found(records) => Ok(parts_of(records.as_slice())),
        _ => Ok(0),
    }
}

// How many parts the derivation of the record has.
fn parts_of(records: &[Claim]) -> usize {
    let [claim] = records else {
        return 0;
    };
    let ClaimView::Settled(_, Verdict::Yes(Yes::Derivation(text))) = claim.view() else {
        return 0;
    };
    text.symbols()
        .iter()
        .filter(|symbol| **symbol == Symbol::Cut)
        .count()
}

#[test]
fn a_normal_subgroup_has_a_part_for_each_conjugate(rt: HostRuntime) -> Result<(), Fail> {
    let alloc = rt.alloc();
    let text = "2 | aa b abA | aa aa baaB Baab abA Aba b b aabAA b babAB BabAb";
    assert!(rt; parts_found(alloc, text)? == 12);
    Ok(())
}

#[test]
fn goals_may_be_none_or_empty(rt: HostRuntime) -> Result<(), Fail> {
    let alloc = rt.alloc();
    assert!(rt; finds(alloc, "1 | a |", 0, "")?);
    assert!(rt; finds(alloc, "0 | |", 0, "")?);
    assert!(rt; finds(alloc, "1 | | 1", 0, "1")?);
    assert!(rt; closes(alloc, "1 | | a", 0)?);
    Ok(())
}

#[test]
fn a_true_question_may_be_closed(rt: HostRuntime) -> Result<(), Fail> {
    let alloc = rt.alloc();
    assert!(rt; closes(alloc, "2 | bab Ab bb | b", 0)?);
    Ok(())
}

// Whether a search with turns of one unit goes on after the first and finds with the second.
fn finds_by_two_turns(alloc: Global, text: &str, signs: &str) -> Result<bool, NoMemory> {
    let mut search = started(alloc, &asked(alloc, text)?)?;
    if !goes_on(alloc, &mut search)? {
        return Ok(false);
    }
    let Outcome { spent, end } = search.turn(alloc, 1, no_models(alloc), &mut Ignorant)?;
    match end {
        TurnEnd::Found(records) => {
            Ok(spent == 1 && are_the_claim(alloc, records.as_slice(), signs)?)
        }
        _ => Ok(false),
    }
}

// Whether the search goes on after its first turn, which has one unit.
fn goes_on(alloc: Global, search: &mut Nielsen) -> Result<bool, NoMemory>
    requires is_open { search.old.is_open ≡ true }
    requires first { search.old.spent ≡ 0 }
    ensures open { IfOk result (λ more. IsTrue more → search.new.is_open ≡ true) }
    ensures spent { IfOk result (λ more. IsTrue more → search.new.spent ≡ 1) }
{
    let Outcome { spent, end } = search.turn(alloc, 1, no_models(alloc), &mut Ignorant)?;
    match end {
        TurnEnd::More => Ok(spent == 1 && search.spent() == 1),
        _ => Ok(false),
    }
}

#[test]
fn one_unit_at_a_time_finds_the_same(rt: HostRuntime) -> Result<(), Fail> {
    let alloc = rt.alloc();
    assert!(rt; finds_by_two_turns(alloc, "1 | aaa aaaaa | a", "aaB")?);
    Ok(())
}

// Whether `a` lies in the subgroup of its powers with these exponents.
fn asked_of_powers(alloc: Global, first: u32, second: u32) -> Result<Ask, NoMemory> {
    let mut subgroup = Words::new(alloc);
    subgroup.push(power(alloc, "a", first))?;
    subgroup.push(power(alloc, "a", second))?;
    match ask_in(Presentation::free(alloc, 1), subgroup, words(alloc, "a")) {
        Some(ask) => Ok(ask),
        None => Err(AllocError),
    }
}

// Whether the search ends after 17 units since the derivation, written out, is too long.
fn is_too_long(alloc: Global) -> Result<bool, NoMemory> {
    let Outcome { spent, end } = turned(alloc, &asked_of_powers(alloc, 6765, 4181)?)?;
    match end {
        TurnEnd::Full {
            what: Limit::Letters,
            count,
        } => Ok(spent == 17 && count == MOST_LETTERS),
        _ => Ok(false),
    }
}

#[test]
fn a_derivation_may_be_too_long(rt: HostRuntime) -> Result<(), Fail> {
    assert!(rt; is_too_long(rt.alloc())?);
    Ok(())
}

#[test]
fn searches_are_of_their_ask(rt: HostRuntime) -> Result<(), Fail> {
    let alloc = rt.alloc();
    let ask = asked(alloc, "2 | aa ab | Ba")?;
    let search = started(alloc, &ask)?;
    assert!(rt; search.key() == &ask && search.group() == ask.group());
    assert_eq!(rt; search.wants(20), 0);
    Ok(())
}
