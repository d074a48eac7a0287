//! Searches by each procedure. The derivation `r1 ;` shows that a^2 is one where a^2 is a relator, and has
//! the number 21. In the free group of a and b the word b^-1 a is the inverse of a b times a^2.
ghost use Rattle.std.specs.Prelude.{◌≡◌, ◌+◌, ◌^◌, ◌≤◌, None, true, [], IfSome};
ghost use Rattle.mg_search.specs.Search.{is_open, units_spent};

use super::*;
use mg_certs::Claim;
use mg_core::{Facts, Records};
use mg_fixtures::ask;
use mg_present::Ask;
use mg_turn::{Searcher, Stop, TurnEnd};
use mg_words::Procedure;
use std::alloc::Global;
use std::test::Fail;

// Knows no record.
#[derive(Drop)]
struct Ignorant;

impl Stop<Claim> for Ignorant {
    ghost known = { λ _. None };

    fn look(&mut self) -> Option<&Claim> {
        None
    }
}

fn no_models(alloc: Global) -> Facts<Claim>
    ensures { result.records ≡ [] }
{
    Facts {
        from: 0,
        upto: 0,
        records: Records::new(alloc),
    }
}

// The number of records that the search has found with these units, if it finds.
fn found(alloc: Global, search: &mut Search, units: u64) -> Option<usize>
    requires is_open { is_open search.old ≡ true }
    requires some { 1 ≤ units }
    requires most { units_spent search.old + units ≤ 2 ^ 62 }
{
    let outcome = search
        .turn(alloc, units, no_models(alloc), &mut Ignorant)
        .ok()?;
    match outcome.end {
        TurnEnd::Found(records) => Some(records.as_slice().len()),
        _ => None,
    }
}

// A new search by the procedure.
#[tactic(auto, using(crate::proofs::Starts::opens_open, crate::proofs::Starts::opens_unspent))]
fn opened(alloc: Global, procedure: Procedure, ask: &Ask) -> Option<Search>
    ensures goes { IfSome result (λ search. is_open search ≡ true) }
    ensures unspent { IfSome result (λ search. units_spent search ≡ 0) }
{
    Search::start(alloc, procedure, ask).ok()
}

// The number of records that a new search by the procedure has found with 21 units, if it finds.
fn found_by(alloc: Global, procedure: Procedure, ask: &Ask) -> Option<usize> {
    let mut search = opened(alloc, procedure, ask)?;
    found(alloc, &mut search, 21)
}

// Whether a search by the procedure finds so many records.
fn finds(alloc: Global, procedure: Procedure, asked: &str, records: usize) -> bool {
    let Some(ask) = ask(alloc, asked) else {
        return false;
    };
    match found_by(alloc, procedure, &ask) {
        Some(count) => count == records,
        None => false,
    }
}

// Whether the search is of the Ask, and by the procedure.
fn is_of(search: &Search, procedure: Procedure, ask: &Ask) -> bool {
    search.procedure() == procedure && search.key() == ask && search.group() == ask.group()
}

// Whether a search by the procedure is of its Ask and has spent nothing.
fn starts(alloc: Global, procedure: Procedure, asked: &str) -> bool {
    let Some(ask) = ask(alloc, asked) else {
        return false;
    };
    match opened(alloc, procedure, &ask) {
        Some(search) => is_of(&search, procedure, &ask) && search.spent() == 0,
        None => false,
    }
}

#[test]
fn searches_are_of_their_ask(rt: HostRuntime) -> Result<(), Fail> {
    let alloc = rt.alloc();
    assert!(rt; starts(alloc, Procedure::Derive, "1 aa | | aa"));
    assert!(rt; starts(alloc, Procedure::Cosets, "1 aa | | aa"));
    assert!(rt; starts(alloc, Procedure::Nielsen, "2 | aa ab | Ba"));
    assert!(rt; starts(alloc, Procedure::Recall, "0 | |"));
    Ok(())
}

#[test]
fn derive_finds_one_record(rt: HostRuntime) -> Result<(), Fail> {
    assert!(rt; finds(rt.alloc(), Procedure::Derive, "1 aa | | aa", 1));
    Ok(())
}

#[test]
fn act_and_residue_find_a_model_too(rt: HostRuntime) -> Result<(), Fail> {
    let alloc = rt.alloc();
    assert!(rt; finds(alloc, Procedure::Act, "1 aa | | a", 2));
    assert!(rt; finds(alloc, Procedure::Residue, "1 aa | | a", 2));
    Ok(())
}

// Whether the procedure doesn't apply where there is no generator.
fn needs_a_generator(alloc: Global, procedure: Procedure) -> bool {
    let Some(ask) = ask(alloc, "0 | |") else {
        return false;
    };
    matches!(
        Search::start(alloc, procedure, &ask),
        Err(StartRefused::DoesNotApply)
    )
}

#[test]
fn act_needs_a_generator(rt: HostRuntime) -> Result<(), Fail> {
    let alloc = rt.alloc();
    assert!(rt; needs_a_generator(alloc, Procedure::Act));
    assert!(rt; !needs_a_generator(alloc, Procedure::Derive));
    Ok(())
}

#[test]
fn nielsen_finds_one_record(rt: HostRuntime) -> Result<(), Fail> {
    assert!(rt; finds(rt.alloc(), Procedure::Nielsen, "2 | aa ab | Ba", 1));
    Ok(())
}

// Whether the procedure doesn't apply where there is a relator.
fn needs_a_free_group(alloc: Global, procedure: Procedure) -> bool {
    let Some(ask) = ask(alloc, "1 aa | | a") else {
        return false;
    };
    matches!(
        Search::start(alloc, procedure, &ask),
        Err(StartRefused::DoesNotApply)
    )
}

#[test]
fn nielsen_needs_a_free_group(rt: HostRuntime) -> Result<(), Fail> {
    let alloc = rt.alloc();
    assert!(rt; needs_a_free_group(alloc, Procedure::Nielsen));
    assert!(rt; !needs_a_free_group(alloc, Procedure::Derive));
    Ok(())
}

#[test]
fn cosets_find_a_model_too(rt: HostRuntime) -> Result<(), Fail> {
    assert!(rt; finds(rt.alloc(), Procedure::Cosets, "2 aa bbb abab | b | a", 2));
    Ok(())
}

// Whether a search that is handed no model ends its turn idle.
fn is_idle(alloc: Global, search: &mut Search) -> bool
    requires is_open { is_open search.old ≡ true }
    requires most { units_spent search.old ≡ 0 }
{
    match search.turn(alloc, 21, no_models(alloc), &mut Ignorant) {
        Ok(outcome) => outcome.spent == 0 && matches!(outcome.end, TurnEnd::Idle),
        Err(_) => false,
    }
}

// Whether recall, with no model, wants this many for 100 units, and is idle.
fn recalls(alloc: Global, asked: &str, wanted: u32) -> bool {
    let Some(ask) = ask(alloc, asked) else {
        return false;
    };
    match opened(alloc, Procedure::Recall, &ask) {
        Some(mut search) => {
            search.reads() && search.wants(100) == wanted && is_idle(alloc, &mut search)
        }
        None => false,
    }
}

#[test]
fn recall_wants_models(rt: HostRuntime) -> Result<(), Fail> {
    assert!(rt; recalls(rt.alloc(), "1 aa | | a", 64));
    Ok(())
}
