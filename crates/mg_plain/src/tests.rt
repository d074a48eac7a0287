//! The search for a derivation that a^2 is one where a^2 is a relator: `r1 ;` has the number 21.
ghost use Rattle.std.specs.Prelude.{◌≡◌, ◌+◌, ◌^◌, ◌≤◌, None, true, IfOk, IsTrue, [], length};
ghost use Rattle.std.specs.List.{AllByRecursion};
ghost use Rattle.mg_present.specs.Ask.{IsReducedOver};
ghost use Rattle.mg_present.specs.Presentation.{IsRelator};
ghost use Rattle.mg_plain.specs.Plain.{Plain as PlainOf, IsPlain};

use super::*;
use mg_certs::{Claim, ClaimView, Verdict, Yes};
use mg_core::{Facts, Records};
use mg_derive::Symbol;
use mg_present::{Ask, MOST_RELATOR_LETTERS, Presentation};
use mg_turn::{Outcome, Searcher, Stop, TurnEnd};
use mg_words::{Letter, Procedure, Word, Words, is_over, is_reduced};
use std::alloc::{AllocError, Global};
use std::test::Fail;

const A: Letter = Letter {
    generator: 1,
    inverse: false,
};

const RELATOR: Symbol = Symbol::Relator {
    place: 1,
    inverse: false,
};

// Knows no record.
#[derive(Drop)]
struct Ignorant;

impl Stop<Claim> for Ignorant {
    ghost known = { λ _. None };

    fn look(&mut self) -> Option<&Claim> {
        None
    }
}

// The word a^2 alone.
fn square(alloc: Global) -> Result<Words, NoMemory>
    ensures relators { IfOk result (λ words. AllByRecursion (IsRelator 1) words) }
    ensures goals { IfOk result (λ words. AllByRecursion (IsReducedOver 1) words) }
    ensures count { IfOk result (λ words. length words ≤ 1) }
{
    let word = Word::from_letters(alloc, &[A, A])?;
    if !is_reduced(&word) || !is_over(1, &word) || word.letters().len() > MOST_RELATOR_LETTERS {
        return Err(AllocError);
    }
    let mut words = Words::new(alloc);
    words.push(word)?;
    Ok(words)
}

fn ask(alloc: Global) -> Result<Ask, NoMemory> {
    let group = Presentation::new(1, square(alloc)?);
    Ok(Ask::new(group, Words::new(alloc), square(alloc)?))
}

fn no_models(alloc: Global) -> Facts<Claim>
    ensures { result.records ≡ [] }
{
    Facts {
        from: 0,
        upto: 0,
        records: Records::new(alloc),
    }
}

// Whether the search goes on after a turn that spends these units.
fn goes_on(alloc: Global, search: &mut Plain, units: u64) -> Result<bool, NoMemory>
    requires is_open { search.old.is_open ≡ true }
    requires some { 1 ≤ units }
    requires most { search.old.cursor + units ≤ 2 ^ 62 }
    ensures { IfOk result (λ more. IsTrue more → search.new.is_open ≡ true) }
{
    let Outcome { spent, end } = search.turn(alloc, units, no_models(alloc), &mut Ignorant)?;
    match end {
        TurnEnd::More => Ok(spent == units),
        _ => Ok(false),
    }
}

// Whether the search finds `r1 ;` by a turn of one unit.
fn finds_by_one(alloc: Global, search: &mut Plain) -> Result<bool, NoMemory>
    requires is_open { search.old.is_open ≡ true }
    requires most { search.old.cursor + 1 ≤ 2 ^ 62 }
{
    let Outcome { spent, end } = search.turn(alloc, 1, no_models(alloc), &mut Ignorant)?;
    match end {
        TurnEnd::Found(records) => Ok(spent == 1 && are_the_claim(alloc, records.as_slice())?),
        _ => Ok(false),
    }
}

// Whether these records are the Ask settled by `r1 ;`.
fn are_the_claim(alloc: Global, records: &[Claim]) -> Result<bool, NoMemory> {
    let [claim] = records else {
        return Ok(false);
    };
    let ClaimView::Settled(settled, Verdict::Yes(Yes::Derivation(text))) = claim.view() else {
        return Ok(false);
    };
    Ok(*settled == ask(alloc)? && text.symbols() == [RELATOR, Symbol::Cut].as_slice())
}

// A search for a derivation that has tested nothing.
fn started(alloc: Global) -> Result<Plain, NoMemory>
    ensures goes_on { IfOk result (λ search. search.is_open ≡ true) }
    ensures cursor { IfOk result (λ search. search.cursor ≡ 0) }
{
    match Plain::start(alloc, Procedure::Derive, &ask(alloc)?) {
        Ok(search) => Ok(search),
        Err(_) => Err(AllocError),
    }
}

// Whether the search has tested 20 texts.
fn has_tested_twenty(search: &Plain) -> bool
    ensures { IsTrue result → search.now.cursor ≡ 20 }
{
    search.cursor() == 20
}

// Whether a search goes on with 20 units and finds `r1 ;` with the next one.
fn finds_at_its_number(alloc: Global) -> Result<bool, NoMemory> {
    let mut search = started(alloc)?;
    if !goes_on(alloc, &mut search, 20)? || !has_tested_twenty(&search) {
        return Ok(false);
    }
    finds_by_one(alloc, &mut search)
}

#[test]
fn finds_at_its_number_and_not_before(rt: HostRuntime) -> Result<(), Fail> {
    assert!(rt; finds_at_its_number(rt.alloc())?);
    Ok(())
}

#[test]
fn searches_are_of_their_ask(rt: HostRuntime) -> Result<(), Fail> {
    let alloc = rt.alloc();
    let ask = ask(alloc)?;
    let search = Plain::start(alloc, Procedure::Derive, &ask)?;
    assert!(rt; search.key() == &ask && search.group() == ask.group());
    assert_eq!(rt; search.wants(20), 0);
    Ok(())
}

// Whether the procedure doesn't apply to what is asked of the group without generators.
fn needs_a_generator(alloc: Global, procedure: Procedure) -> bool
    requires { IsPlain procedure }
{
    let group = Presentation::free(alloc, 0);
    let ask = Ask::new(group, Words::new(alloc), Words::new(alloc));
    match Plain::start(alloc, procedure, &ask) {
        Err(StartRefused::DoesNotApply) => true,
        _ => false,
    }
}

#[test]
fn act_and_residue_need_a_generator(rt: HostRuntime) -> Result<(), Fail> {
    let alloc = rt.alloc();
    assert!(rt; needs_a_generator(alloc, Procedure::Act));
    assert!(rt; needs_a_generator(alloc, Procedure::Residue));
    assert!(rt; !needs_a_generator(alloc, Procedure::Derive));
    Ok(())
}
