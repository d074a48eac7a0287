//! Reading actions as models of the group with two elements, < a | a^2 >. The first two, by their numbers, move nothing, and the
//! third moves point 0 by a.
ghost use Rattle.std.specs.Prelude.{◌≡◌, ◌≤◌, None, Some, [], IfOk, length};
ghost use Rattle.std.specs.List.{AllByRecursion};
ghost use Rattle.mg_certs.specs.Validity.{group_of};

use super::*;
use mg_action::Action;
use mg_certs::{Claim, ClaimView, Model, Verdict, claim_model};
use mg_core::{Facts, Records};
use mg_fixtures::ask;
use mg_present::Ask;
use mg_turn::{Outcome, Searcher, Stop, TurnEnd};
use std::alloc::{AllocError, Global};
use std::test::Fail;

// Knows no record.
#[derive(Drop)]
struct Ignorant;

impl Stop<Claim> for Ignorant {
    ghost known = { λ _. None };

    fn look(&mut self) -> Option<&Claim> {
        None
    }
}

// The action of one generator with a number from 1 to 100.
fn action(alloc: Global, number: u64) -> Result<Model, NoMemory> {
    if number < 1 || number > 100 {
        return Err(AllocError);
    }
    let mut action = Action::of_one_point(alloc, 1)?;
    action.put_number(number);
    Ok(Model::Action(action))
}

// That action as a model of the group of the Ask.
fn model(alloc: Global, ask: &Ask, number: u64) -> Result<Claim, NoMemory>
    ensures { IfOk result (λ claim. group_of claim ≡ Some ask.now.group) }
{
    match claim_model(alloc, ask.group().copy(alloc)?, action(alloc, number)?) {
        Ok(claim) => Ok(claim),
        Err(_) => Err(AllocError),
    }
}

// The first turn of a search that is handed the models with these two numbers.
fn first_turn(alloc: Global, ask: &Ask, one: u64, other: u64) -> Result<Outcome<Claim>, NoMemory> {
    let mut records = Records::new(alloc);
    records.push(model(alloc, ask, one)?)?;
    records.push(model(alloc, ask, other)?)?;
    let facts = Facts {
        from: 0,
        upto: 2,
        records,
    };
    let mut search = Recall::start(alloc, ask)?;
    search.turn(alloc, 5, facts, &mut Ignorant)
}

// The first turn of a search that is handed no model.
fn empty_turn(alloc: Global, ask: &Ask) -> Result<Outcome<Claim>, NoMemory> {
    let facts = Facts {
        from: 0,
        upto: 2,
        records: Records::new(alloc),
    };
    let mut search = Recall::start(alloc, ask)?;
    search.turn(alloc, 5, facts, &mut Ignorant)
}

// Whether the records are NO by the first goal, and a model.
fn are_no_and_model(records: &[Claim]) -> bool {
    let [no, model] = records else {
        return false;
    };
    let ClaimView::Settled(_, Verdict::No(no)) = no.view() else {
        return false;
    };
    no.goal == 0 && matches!(model.view(), ClaimView::ModelOf(..))
}

// Whether the search of the first of these models that refutes a is found with so many units.
fn finds(alloc: Global, one: u64, other: u64, units: u64) -> Result<bool, NoMemory> {
    let Some(ask) = ask(alloc, "1 aa | | a") else {
        return Ok(false);
    };
    let Outcome { spent, end } = first_turn(alloc, &ask, one, other)?;
    match end {
        TurnEnd::Found(records) => Ok(spent == units && are_no_and_model(records.as_slice())),
        _ => Ok(false),
    }
}

#[test]
fn the_first_model_that_refutes_is_found(rt: HostRuntime) -> Result<(), Fail> {
    assert!(rt; finds(rt.alloc(), 2, 3, 2)?);
    assert!(rt; finds(rt.alloc(), 3, 1, 1)?);
    Ok(())
}

// Whether a search that is handed models which refute nothing goes on.
fn goes_on(alloc: Global) -> Result<bool, NoMemory> {
    let Some(ask) = ask(alloc, "1 aa | | a") else {
        return Ok(false);
    };
    let Outcome { spent, end } = first_turn(alloc, &ask, 2, 1)?;
    Ok(spent == 2 && matches!(end, TurnEnd::More))
}

#[test]
fn a_search_goes_on_where_none_refutes(rt: HostRuntime) -> Result<(), Fail> {
    assert!(rt; goes_on(rt.alloc())?);
    Ok(())
}

// Whether a search that is handed no model is idle.
fn is_idle(alloc: Global) -> Result<bool, NoMemory> {
    let Some(ask) = ask(alloc, "1 aa | | a") else {
        return Ok(false);
    };
    let Outcome { spent, end } = empty_turn(alloc, &ask)?;
    Ok(spent == 0 && matches!(end, TurnEnd::Idle))
}

#[test]
fn a_search_without_models_is_idle(rt: HostRuntime) -> Result<(), Fail> {
    assert!(rt; is_idle(rt.alloc())?);
    Ok(())
}

// How many models a search wants for so many units, and how many it has read at first.
fn wants(alloc: Global, units: u64) -> Result<(u32, u64), NoMemory> {
    let Some(ask) = ask(alloc, "1 aa | | a") else {
        return Err(AllocError);
    };
    let search = Recall::start(alloc, &ask)?;
    Ok((search.wants(units), search.models_read()))
}

#[test]
fn at_most_64_models_are_wanted(rt: HostRuntime) -> Result<(), Fail> {
    assert!(rt; wants(rt.alloc(), 63)? == (63, 0));
    assert!(rt; wants(rt.alloc(), 65)? == (64, 0));
    Ok(())
}
