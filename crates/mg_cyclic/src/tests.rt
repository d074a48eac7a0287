//! Worked values, and each public call once.
ghost use Rattle.std.specs.Prelude.{◌≤◌, IfOk, length};
ghost use Rattle.std.specs.List.{AllByRecursion};
ghost use Rattle.mg_present.specs.Ask.{IsReducedOver};
ghost use Rattle.mg_present.specs.Presentation.{IsRelator};

use super::*;
use mg_numbers::Advance;
use mg_present::{Ask, Presentation};
use mg_words::{Letter, Word, Words, is_over, is_reduced};
use std::alloc::{AllocError, Global};
use std::test::Fail;

const A: Letter = Letter {
    generator: 1,
    inverse: false,
};

const B: Letter = Letter {
    generator: 2,
    inverse: false,
};

const A_BACK: Letter = Letter {
    generator: 1,
    inverse: true,
};

const B_BACK: Letter = Letter {
    generator: 2,
    inverse: true,
};

// These words, where each is reduced, over the generators and short; else no memory.
fn words(alloc: Global, generators: u32, lists: &[&[Letter]]) -> Result<Words, NoMemory>
    ensures relators { IfOk result (λ words. AllByRecursion (IsRelator generators) words) }
    ensures members { IfOk result (λ words. AllByRecursion (IsReducedOver generators) words) }
    ensures count { IfOk result (λ words. length words ≤ length lists.now) }
{
    let mut words = Words::new(alloc);
    for list in lists {
        let word = Word::from_letters(alloc, list)?;
        if !is_reduced(&word) || !is_over(generators, &word) || word.letters().len() > 10_000 {
            return Err(AllocError);
        }
        words.push(word)?;
    }
    Ok(words)
}

// Whether one goal lies in the subgroup of some words.
fn ask_of(
    alloc: Global,
    generators: u32,
    relators: &[&[Letter]],
    subgroup: &[&[Letter]],
    goal: &[Letter],
) -> Result<Ask, NoMemory> {
    if generators > 64 || relators.len() > 256 || subgroup.len() > 64 {
        return Err(AllocError);
    }
    let group = Presentation::new(generators, words(alloc, generators, relators)?);
    let members = words(alloc, generators, subgroup)?;
    let goals = words(alloc, generators, &[goal])?;
    Ok(Ask::new(group, members, goals))
}

// The symmetric group of three points.
fn symmetric(alloc: Global, subgroup: &[&[Letter]], goal: &[Letter]) -> Result<Ask, NoMemory> {
    ask_of(
        alloc,
        2,
        &[&[A, A], &[B, B, B], &[A, B, A, B]],
        subgroup,
        goal,
    )
}

// The map of so many generators with a number from 1 to 100.
fn at(alloc: Global, generators: u32, number: u64) -> Result<Residues, NoMemory> {
    if generators < 1 || generators > 64 || number < 1 || number > 100 {
        return Err(AllocError);
    }
    let mut map = Residues::all_zero(alloc, generators)?;
    map.put_number(number);
    Ok(map)
}

#[test]
fn a_map_of_the_symmetric_group(rt: HostRuntime) -> Result<(), Fail> {
    let alloc = rt.alloc();
    let map = at(alloc, 2, 3)?;
    assert_eq!(rt; map.modulus(), 2);
    assert_eq!(rt; map.images(), [1, 0].as_slice());
    let ask = symmetric(alloc, &[], &[A])?;
    assert!(rt; is_map(ask.group(), &map));
    assert!(rt; refutes(&ask, 0, &map));
    assert!(rt; !refutes(&ask, 1, &map));
    Ok(())
}

#[test]
fn subgroup_words_sum_to_zero(rt: HostRuntime) -> Result<(), Fail> {
    let alloc = rt.alloc();
    let map = at(alloc, 2, 3)?;
    assert!(rt; refutes(&symmetric(alloc, &[&[B]], &[A, B])?, 0, &map));
    assert!(rt; !refutes(&symmetric(alloc, &[&[A]], &[A, B])?, 0, &map));
    assert!(rt; !refutes(&symmetric(alloc, &[], &[B])?, 0, &map));
    Ok(())
}

#[test]
fn a_map_of_a_cyclic_group(rt: HostRuntime) -> Result<(), Fail> {
    let alloc = rt.alloc();
    let map = Residues::from_images(alloc, 4, &[1])?.copy(alloc)?;
    assert_eq!(rt; map.images(), at(alloc, 1, 7)?.images());
    assert_eq!(rt; map.modulus(), at(alloc, 1, 7)?.modulus());
    let ask = ask_of(alloc, 1, &[&[A, A, A, A]], &[], &[A, A])?;
    assert!(rt; refutes(&ask, 0, &map));
    let ask = ask_of(alloc, 1, &[&[A, A, A]], &[], &[A_BACK])?;
    assert!(rt; !refutes(&ask, 0, &map));
    Ok(())
}

#[test]
fn an_inverse_letter_takes_away(rt: HostRuntime) -> Result<(), Fail> {
    let alloc = rt.alloc();
    let map = Residues::from_images(alloc, 3, &[1, 1])?;
    let ask = ask_of(alloc, 2, &[&[A, B_BACK]], &[], &[A])?;
    assert!(rt; is_map(ask.group(), &map));
    Ok(())
}

#[test]
fn a_group_without_generators(rt: HostRuntime) -> Result<(), Fail> {
    let alloc = rt.alloc();
    let map = Residues::all_zero(alloc, 0)?;
    let ask = ask_of(alloc, 0, &[&[]], &[], &[])?;
    assert!(rt; is_map(ask.group(), &map));
    assert!(rt; !refutes(&ask, 0, &map));
    Ok(())
}

// The number at which a search with turns of so many units finds a map, its modulus, its residues and its goal; or
// None where it finds none up to `most`.
fn finds(
    alloc: Global,
    ask: Ask,
    turn: u64,
    number: u64,
    modulus: u32,
    residues: &[u32],
) -> Result<bool, NoMemory> {
    if ask.group().generators() == 0 || turn == 0 || turn > 1_024 || number > 1_000 {
        return Err(AllocError);
    }
    let mut search = Enumeration::start(alloc, ask)?;
    for _turn in 0..1_000 {
        if search.cursor() > 1_000 {
            return Ok(false);
        }
        if let Advance::Found { .. } = search.advance(turn) {
            let found = search.residues();
            return Ok(
                search.cursor() == number
                    && search.goal() == 0
                    && found.modulus() == modulus
                    && found.images() == residues,
            );
        }
    }
    Ok(false)
}

#[test]
fn the_first_map_is_found(rt: HostRuntime) -> Result<(), Fail> {
    let alloc = rt.alloc();
    assert!(rt; finds(alloc, symmetric(alloc, &[], &[A])?, 1, 3, 2, &[1, 0])?);
    assert!(rt; finds(alloc, symmetric(alloc, &[], &[A])?, 7, 3, 2, &[1, 0])?);
    let free = ask_of(alloc, 2, &[], &[&[A, A], &[A, B]], &[A])?;
    assert!(rt; finds(alloc, free, 1_024, 4, 2, &[1, 1])?);
    let cyclic = ask_of(alloc, 1, &[&[A, A, A, A]], &[], &[A, A])?;
    assert!(rt; finds(alloc, cyclic, 1, 7, 4, &[1])?);
    Ok(())
}

#[test]
fn stretches_are_passed(rt: HostRuntime) -> Result<(), Fail> {
    let alloc = rt.alloc();
    for turn in [1, 7, 1_024] {
        let ask = ask_of(
            alloc,
            2,
            &[&[A, A, A, A, A, A], &[B, B, B, B, B, B, B, B, B]],
            &[&[A]],
            &[B, B, B],
        )?;
        assert!(rt; finds(alloc, ask, turn, 205, 9, &[0, 1])?);
    }
    Ok(())
}
