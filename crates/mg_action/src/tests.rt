//! Worked values, and each public call once.
ghost use Rattle.std.specs.Prelude.{◌≤◌, IfOk, length};
ghost use Rattle.std.specs.List.{AllByRecursion};
ghost use Rattle.mg_present.specs.Ask.{IsReducedOver};
ghost use Rattle.mg_present.specs.Presentation.{IsRelator};

use super::*;
use mg_present::{Ask, Presentation};
use mg_words::{Letter, Word, Words, is_over, is_reduced};
use std::alloc::{AllocError, Global};
use std::test::Fail;

const A: Letter = Letter {
    generator: 1,
    inverse: false,
};

const B: Letter = Letter {
    generator: 2,
    inverse: false,
};

const B_BACK: Letter = Letter {
    generator: 2,
    inverse: true,
};

// These words, where each is reduced, over the generators and short; else no memory.
fn words(alloc: Global, generators: u32, lists: &[&[Letter]]) -> Result<Words, NoMemory>
    ensures relators { IfOk result (λ words. AllByRecursion (IsRelator generators) words) }
    ensures members { IfOk result (λ words. AllByRecursion (IsReducedOver generators) words) }
    ensures count { IfOk result (λ words. length words ≤ length lists.now) }
{
    let mut words = Words::new(alloc);
    for list in lists {
        let word = Word::from_letters(alloc, list)?;
        if !is_reduced(&word) || !is_over(generators, &word) || word.letters().len() > 10_000 {
            return Err(AllocError);
        }
        words.push(word)?;
    }
    Ok(words)
}

// Whether one goal lies in the subgroup of some words.
fn ask_of(
    alloc: Global,
    generators: u32,
    relators: &[&[Letter]],
    subgroup: &[&[Letter]],
    goal: &[Letter],
) -> Result<Ask, NoMemory> {
    if generators > 64 || relators.len() > 256 || subgroup.len() > 64 {
        return Err(AllocError);
    }
    let group = Presentation::new(generators, words(alloc, generators, relators)?);
    let members = words(alloc, generators, subgroup)?;
    let goals = words(alloc, generators, &[goal])?;
    Ok(Ask::new(group, members, goals))
}

// The symmetric group of three points.
fn symmetric(alloc: Global, subgroup: &[&[Letter]], goal: &[Letter]) -> Result<Ask, NoMemory> {
    ask_of(
        alloc,
        2,
        &[&[A, A], &[B, B, B], &[A, B, A, B]],
        subgroup,
        goal,
    )
}

// The action with these images, where they are whole permutations; else no memory.
fn made(alloc: Global, degree: u32, images: &[u32]) -> Result<Action, NoMemory> {
    if degree == 0 || !are_images(alloc, degree, images)? {
        return Err(AllocError);
    }
    Action::from_images(alloc, degree, images)
}

// The action of two generators with number 15.
fn fifteenth(alloc: Global) -> Result<Action, NoMemory> {
    let mut action = Action::of_one_point(alloc, 2)?;
    action.put_number(15);
    Ok(action)
}

#[test]
fn an_action_by_its_number(rt: HostRuntime) -> Result<(), Fail> {
    let action = fifteenth(rt.alloc())?;
    assert_eq!(rt; action.degree(), 3);
    assert_eq!(rt; action.generators(), 2);
    assert_eq!(rt; action.images(), [0, 2, 1, 1, 2, 0].as_slice());
    Ok(())
}

#[test]
fn an_action_of_the_symmetric_group(rt: HostRuntime) -> Result<(), Fail> {
    let alloc = rt.alloc();
    let action = made(alloc, 3, &[0, 2, 1, 1, 2, 0])?.copy(alloc)?;
    let ask = symmetric(alloc, &[], &[B])?;
    assert!(rt; is_action(ask.group(), &action));
    assert!(rt; refutes(&ask, 0, &action));
    assert!(rt; !refutes(&ask, 1, &action));
    Ok(())
}

#[test]
fn subgroup_words_fix_the_point_zero(rt: HostRuntime) -> Result<(), Fail> {
    let alloc = rt.alloc();
    let action = fifteenth(alloc)?;
    assert!(rt; refutes(&symmetric(alloc, &[&[A]], &[B_BACK])?, 0, &action));
    assert!(rt; !refutes(&symmetric(alloc, &[&[B]], &[A, B])?, 0, &action));
    assert!(rt; !refutes(&symmetric(alloc, &[], &[A])?, 0, &action));
    Ok(())
}

#[test]
fn relators_fix_every_point(rt: HostRuntime) -> Result<(), Fail> {
    let alloc = rt.alloc();
    let action = fifteenth(alloc)?;
    let ask = ask_of(alloc, 2, &[&[A]], &[], &[B])?;
    assert!(rt; !is_action(ask.group(), &action));
    assert!(rt; !refutes(&ask, 0, &action));
    assert!(rt; !is_action(&Presentation::free(alloc, 3), &action));
    Ok(())
}

#[test]
fn an_action_on_one_point_refutes_nothing(rt: HostRuntime) -> Result<(), Fail> {
    let alloc = rt.alloc();
    let action = Action::of_one_point(alloc, 2)?;
    let ask = symmetric(alloc, &[], &[B])?;
    assert!(rt; is_action(ask.group(), &action));
    assert!(rt; !refutes(&ask, 0, &action));
    Ok(())
}

#[test]
fn a_group_without_generators(rt: HostRuntime) -> Result<(), Fail> {
    let alloc = rt.alloc();
    let action = Action::of_one_point(alloc, 0)?;
    let ask = ask_of(alloc, 0, &[&[]], &[], &[])?;
    assert!(rt; is_action(ask.group(), &action));
    assert!(rt; !refutes(&ask, 0, &action));
    Ok(())
}

#[test]
fn images_are_whole_permutations(rt: HostRuntime) -> Result<(), Fail> {
    let alloc = rt.alloc();
    assert!(rt; are_images(alloc, 3, &[2, 0, 1])?);
    assert!(rt; !are_images(alloc, 3, &[0, 0, 1])?);
    assert!(rt; !are_images(alloc, 3, &[0, 3, 1])?);
    assert!(rt; !are_images(alloc, 2, &[0, 1, 0])?);
    Ok(())
}

// A search in turns of so many units, once it has found an action with a number up to `most`; else no memory.
fn found(alloc: Global, ask: Ask, turn: u64, most: u64) -> Result<Enumeration, NoMemory> {
    if ask.group().generators() == 0 || turn == 0 || turn > 1_024 || most > 1_000_000 {
        return Err(AllocError);
    }
    let mut search = Enumeration::start(alloc, ask)?;
    while search.cursor() < most {
        if let Advance::Found { spent: _ } = search.advance(turn) {
            return Ok(search);
        }
    }
    Err(AllocError)
}

#[test]
fn turns_find_the_first_action(rt: HostRuntime) -> Result<(), Fail> {
    let alloc = rt.alloc();
    for turn in [1, 7, 1_024] {
        let search = found(alloc, symmetric(alloc, &[], &[B])?, turn, 2_000)?;
        assert_eq!(rt; search.cursor(), 15);
    }
    Ok(())
}

#[test]
fn a_search_lends_what_it_found(rt: HostRuntime) -> Result<(), Fail> {
    let alloc = rt.alloc();
    let search = found(alloc, symmetric(alloc, &[&[A]], &[A, B])?, 4, 2_000)?;
    assert_eq!(rt; search.goal(), 0);
    assert_eq!(rt; search.action().images(), [0, 2, 1, 1, 2, 0].as_slice());
    assert_eq!(rt; search.ask().goals().len(), 1);
    Ok(())
}
