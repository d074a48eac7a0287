//! Cosets in the symmetric group of three letters, < a, b | a^2, b^3, (a b)^2 >, and in the infinite cyclic group.
ghost use Rattle.std.specs.Prelude.{◌≡◌, ◌+◌, ◌^◌, ◌≤◌, None, true, [], IfOk};

use super::*;
use mg_certs::{Claim, ClaimView, Verdict};
use mg_core::{Facts, Records};
use mg_fixtures::ask;
use mg_turn::{Outcome, Searcher, Stop, TurnEnd};
use std::alloc::{AllocError, Global};
use std::test::Fail;

// Knows no record.
#[derive(Drop)]
struct Ignorant;

impl Stop<Claim> for Ignorant {
    ghost known = { λ _. None };

    fn look(&mut self) -> Option<&Claim> {
        None
    }
}

fn no_models(alloc: Global) -> Facts<Claim>
    ensures { result.records ≡ [] }
{
    Facts {
        from: 0,
        upto: 0,
        records: Records::new(alloc),
    }
}

// A search that has made no row yet.
fn started(alloc: Global, asked: &str) -> Result<Cosets, NoMemory>
    ensures goes { IfOk result (λ search. search.is_open ≡ true) }
    ensures spent { IfOk result (λ search. search.spent ≡ 0) }
{
    let Some(ask) = ask(alloc, asked) else {
        return Err(AllocError);
    };
    if ask.group().generators() < 1 {
        return Err(AllocError);
    }
    Cosets::start(alloc, &ask)
}

// A turn of so many units.
fn turned(alloc: Global, search: &mut Cosets, units: u64) -> Result<Outcome<Claim>, NoMemory>
    requires is_open { search.old.is_open ≡ true }
    requires some { 1 ≤ units }
    requires most { search.old.spent + units ≤ 2 ^ 62 }
{
    search.turn(alloc, units, no_models(alloc), &mut Ignorant)
}

// The first turn of so many units, up to 100.
fn first_turn(alloc: Global, asked: &str, units: u64) -> Result<Outcome<Claim>, NoMemory> {
    if units < 1 || units > 100 {
        return Err(AllocError);
    }
    let mut search = started(alloc, asked)?;
    turned(alloc, &mut search, units)
}

// Whether the records are NO by the first goal, and a model.
fn are_no_and_model(records: &[Claim]) -> bool {
    let [no, model] = records else {
        return false;
    };
    let ClaimView::Settled(_, Verdict::No(no)) = no.view() else {
        return false;
    };
    no.goal == 0 && matches!(model.view(), ClaimView::ModelOf(..))
}

// Whether a search finds with so many units.
fn finds(alloc: Global, asked: &str, units: u64) -> Result<bool, NoMemory> {
    let Outcome { spent, end } = first_turn(alloc, asked, 10)?;
    match end {
        TurnEnd::Found(records) => Ok(spent == units && are_no_and_model(records.as_slice())),
        _ => Ok(false),
    }
}

#[test]
fn a_whole_table_refutes(rt: HostRuntime) -> Result<(), Fail> {
    assert!(rt; finds(rt.alloc(), "2 aa bbb abab | b | a", 1)?);
    assert!(rt; finds(rt.alloc(), "2 aa bbb abab | | a", 5)?);
    Ok(())
}

// Whether a search is closed with so many units, and publishes one model.
fn closes(alloc: Global, asked: &str, units: u64) -> Result<bool, NoMemory> {
    let Outcome { spent, end } = first_turn(alloc, asked, 10)?;
    let TurnEnd::Closed(records) = end else {
        return Ok(false);
    };
    let [model] = records.as_slice() else {
        return Ok(false);
    };
    Ok(spent == units && matches!(model.view(), ClaimView::ModelOf(..)))
}

#[test]
fn a_whole_table_that_refutes_nothing_is_a_model(rt: HostRuntime) -> Result<(), Fail> {
    assert!(rt; closes(rt.alloc(), "2 aa bbb abab | b | bb", 1)?);
    assert!(rt; closes(rt.alloc(), "1 aa | |", 1)?);
    Ok(())
}

// Whether a search goes on after so many units.
fn goes_on(alloc: Global, asked: &str, units: u64) -> Result<bool, NoMemory> {
    let Outcome { spent, end } = first_turn(alloc, asked, units)?;
    Ok(spent == units && matches!(end, TurnEnd::More))
}

#[test]
fn an_open_table_goes_on(rt: HostRuntime) -> Result<(), Fail> {
    assert!(rt; goes_on(rt.alloc(), "2 aa bbb abab | | a", 3)?);
    assert!(rt; goes_on(rt.alloc(), "1 | | a", 5)?);
    Ok(())
}
