//! Completion of the group with two elements, < a | a^2 >: the pairs and the relator become rules, and the overlap of `a^-1 a`
//! with `a a^-1` is joined.
ghost use Rattle.std.specs.Prelude.{◌≡◌, ℕ, None, true, [], IfOk, IfSome};
ghost use Rattle.mg_complete.specs.Working.{Works};

use super::*;
use mg_certs::Claim;
use mg_core::{Facts, Records};
use mg_fixtures::ask;
use mg_rules::next_overlap;
use mg_turn::{Outcome, Searcher, Stop, TurnEnd};
use mg_words::Letter;
use std::alloc::{AllocError, Global};
use std::test::Fail;

const A: Letter = Letter {
    generator: 1,
    inverse: false,
};

// A completion that has no rule yet.
fn started(alloc: Global) -> Result<Work, NoMemory>
    ensures { IfOk result (λ work. Works work 0) }
{
    let Some(ask) = ask(alloc, "1 aa | | a") else {
        return Err(AllocError);
    };
    if ask.subgroup().len() > 0 {
        return Err(AllocError);
    }
    Work::new(alloc, &ask)
}

// How many rules there are, and whether some goal remains, after one pair.
fn after_a_pair(alloc: Global) -> Result<(usize, bool), NoMemory> {
    let mut work = started(alloc)?;
    if work.ask.group().generators() < 1 {
        return Err(AllocError);
    }
    if work.deal_pair(alloc, A)?.is_some() {
        return Err(AllocError);
    }
    let remains = work.remains()?;
    Ok((work.system.rules.pairs().len(), remains))
}

#[test]
fn a_pair_becomes_a_rule(rt: HostRuntime) -> Result<(), Fail> {
    assert!(rt; after_a_pair(rt.alloc())? == (1, true));
    Ok(())
}

// How many rules there are after the relator.
fn after_the_relator(alloc: Global) -> Result<usize, NoMemory> {
    let mut work = started(alloc)?;
    if work.ask.group().relators().len() < 1 {
        return Err(AllocError);
    }
    if work.deal_relator(alloc, 0)?.is_some() {
        return Err(AllocError);
    }
    Ok(work.system.rules.pairs().len())
}

#[test]
fn a_relator_becomes_a_rule(rt: HostRuntime) -> Result<(), Fail> {
    assert!(rt; after_the_relator(rt.alloc())? == 1);
    Ok(())
}

// Both pairs are dealt with.
fn with_both_pairs(alloc: Global) -> Result<Work, NoMemory>
    ensures { IfOk result (λ work. Works work 2) }
{
    let mut work = started(alloc)?;
    if work.ask.group().generators() < 1 {
        return Err(AllocError);
    }
    work.deal_pair(alloc, A)?;
    work.deal_pair(alloc, A.inverted())?;
    Ok(work)
}

// The units spent after the first overlap, and how many rules there are.
fn after_a_unit(alloc: Global) -> Result<(u64, usize), NoMemory> {
    let mut work = with_both_pairs(alloc)?;
    let Some(next) = next_overlap(&work.system.rules, &work.last) else {
        return Err(AllocError);
    };
    if work.spent > 0 || work.take(alloc, &next)? != Settled::Joined {
        return Err(AllocError);
    }
    Ok((work.spent, work.system.rules.pairs().len()))
}

#[test]
fn an_overlap_is_joined_by_a_unit(rt: HostRuntime) -> Result<(), Fail> {
    assert!(rt; after_a_unit(rt.alloc())? == (1, 2));
    Ok(())
}

// Knows no record.
#[derive(Drop)]
struct Ignorant;

impl Stop<Claim> for Ignorant {
    ghost known = { λ _. None };

    fn look(&mut self) -> Option<&Claim> {
        None
    }
}

fn no_models(alloc: Global) -> Facts<Claim>
    ensures { result.records ≡ [] }
{
    Facts {
        from: 0,
        upto: 0,
        records: Records::new(alloc),
    }
}

// A search that has spent nothing.
fn opened(alloc: Global, asked: &str) -> Result<Completion, NoMemory>
    ensures goes { IfOk result (λ search. search.is_open ≡ true) }
    ensures spent { IfOk result (λ search. search.spent ≡ 0) }
{
    let Some(ask) = ask(alloc, asked) else {
        return Err(AllocError);
    };
    if ask.subgroup().len() > 0 {
        return Err(AllocError);
    }
    Completion::start(alloc, &ask)
}

// The first turn of 100 units.
fn first_turn(alloc: Global, asked: &str) -> Result<Outcome<Claim>, NoMemory> {
    let mut search = opened(alloc, asked)?;
    search.turn(alloc, 100, no_models(alloc), &mut Ignorant)
}

// Whether a search finds with so many units, and publishes so many records.
fn finds(alloc: Global, asked: &str, units: u64, count: usize) -> Result<bool, NoMemory> {
    let Outcome { spent, end } = first_turn(alloc, asked)?;
    match end {
        TurnEnd::Found(records) => Ok(spent == units && records.as_slice().len() == count),
        _ => Ok(false),
    }
}

#[test]
fn goals_that_come_to_nothing_are_affirmed(rt: HostRuntime) -> Result<(), Fail> {
    assert!(rt; finds(rt.alloc(), "1 aa | | aaaa", 0, 1)?);
    assert!(rt; finds(rt.alloc(), "1 aa | | AA", 3, 1)?);
    Ok(())
}

#[test]
fn complete_systems_refute(rt: HostRuntime) -> Result<(), Fail> {
    assert!(rt; finds(rt.alloc(), "1 aa | | a", 7, 2)?);
    assert!(rt; finds(rt.alloc(), "2 | | a", 4, 2)?);
    Ok(())
}

// Whether a search is full before its first unit.
fn is_full(alloc: Global, asked: &str) -> Result<bool, NoMemory> {
    let Outcome { spent, end } = first_turn(alloc, asked)?;
    Ok(spent == 0 && matches!(end, TurnEnd::Full { .. }))
}

#[test]
fn a_new_search_has_spent_nothing(rt: HostRuntime) -> Result<(), Fail> {
    assert!(rt; opened(rt.alloc(), "1 aa | | a")?.spent() == 0);
    assert!(rt; !is_full(rt.alloc(), "1 aa | | a")?);
    Ok(())
}
