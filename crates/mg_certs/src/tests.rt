//! Claims that a^2 is one where a^2 is a relator, that a isn't, and of models of that group.
ghost use Rattle.std.specs.Prelude.{◌≡◌, ◌≤◌, IfOk, length};
ghost use Rattle.std.specs.List.{AllByRecursion};
ghost use Rattle.mg_present.specs.Ask.{IsReducedOver};
ghost use Rattle.mg_present.specs.Presentation.{IsRelator};

use super::*;
use mg_action::Action;
use mg_core::Record;
use mg_cyclic::Residues;
use mg_derive::{Derivation, Symbol};
use mg_fixtures::{ask as asked_so, word};
use mg_present::{Ask, MOST_RELATOR_LETTERS, Presentation};
use mg_rulelog::{GoalMoves, LoggedRule, LoggedRules, Move, Moves, RuleLog};
use mg_rules::{RulePair, RulePairs, Rules};
use mg_words::{Letter, Word, Words, is_over, is_reduced};
use std::alloc::{AllocError, Global};
use std::test::Fail;

const A: Letter = Letter {
    generator: 1,
    inverse: false,
};

const RELATOR: Symbol = Symbol::Relator {
    place: 1,
    inverse: false,
};

// The word of these letters alone.
fn one_word(alloc: Global, letters: &[Letter]) -> Result<Words, NoMemory>
    ensures relators { IfOk result (λ words. AllByRecursion (IsRelator 1) words) }
    ensures goals { IfOk result (λ words. AllByRecursion (IsReducedOver 1) words) }
    ensures count { IfOk result (λ words. length words ≤ 1) }
{
    let word = Word::from_letters(alloc, letters)?;
    if !is_reduced(&word) || !is_over(1, &word) || word.letters().len() > MOST_RELATOR_LETTERS {
        return Err(AllocError);
    }
    let mut words = Words::new(alloc);
    words.push(word)?;
    Ok(words)
}

fn group(alloc: Global) -> Result<Presentation, NoMemory>
    ensures { IfOk result (λ group. group.generators ≡ 1) }
{
    Ok(Presentation::new(1, one_word(alloc, &[A, A])?))
}

// Whether the word of these letters is one.
fn asked(alloc: Global, letters: &[Letter]) -> Result<Ask, NoMemory> {
    Ok(Ask::new(group(alloc)?, Words::new(alloc), one_word(alloc, letters)?))
}

fn ask(alloc: Global) -> Result<Ask, NoMemory> {
    asked(alloc, &[A, A])
}

// What claiming YES by these symbols gives.
fn claimed(alloc: Global, symbols: &[Symbol]) -> Result<Claim, YesRefused> {
    let text = Derivation::from_symbols(alloc, symbols)?;
    claim_yes(alloc, ask(alloc)?, Yes::Derivation(text))
}

// Whether the claim settles the Ask by these symbols.
fn settles_by(claim: &Claim, ask: &Ask, symbols: &[Symbol]) -> bool {
    let ClaimView::Settled(settled, Verdict::Yes(Yes::Derivation(text))) = claim.view() else {
        return false;
    };
    settled == ask && text.symbols() == symbols
}

#[test]
fn the_relator_shows_that_its_word_is_one(rt: HostRuntime) -> Result<(), Fail> {
    let alloc = rt.alloc();
    let ask = ask(alloc)?;
    let symbols = [RELATOR, Symbol::Cut];
    let claim = claimed(alloc, &symbols)?;
    assert!(rt; settles_by(&claim, &ask, &symbols));
    assert!(rt; settles_by(&claim.copy(alloc)?, &ask, &symbols));
    Ok(())
}

#[test]
fn claims_settle_their_ask(rt: HostRuntime) -> Result<(), Fail> {
    let alloc = rt.alloc();
    let claim = claimed(alloc, &[RELATOR, Symbol::Cut])?;
    assert!(rt; claim.settles() == Some(&ask(alloc)?));
    assert!(rt; claim.model_of().is_none());
    Ok(())
}

// Whether YES by these symbols is refused, and the Ask and the symbols come back.
fn comes_back(alloc: Global, symbols: &[Symbol]) -> Result<bool, NoMemory> {
    let Err(YesRefused::NotAccepted(asked, certificate)) = claimed(alloc, symbols) else {
        return Ok(false);
    };
    let Yes::Derivation(text) = &certificate else {
        return Ok(false);
    };
    Ok(asked == ask(alloc)? && text.symbols() == symbols)
}

#[test]
fn the_relator_twice_is_refused(rt: HostRuntime) -> Result<(), Fail> {
    assert!(rt; comes_back(rt.alloc(), &[RELATOR, RELATOR, Symbol::Cut])?);
    Ok(())
}

// The action of one generator with a number from 1 to 100.
fn action(alloc: Global, number: u64) -> Result<Model, NoMemory> {
    if number < 1 || number > 100 {
        return Err(AllocError);
    }
    let mut action = Action::of_one_point(alloc, 1)?;
    action.put_number(number);
    Ok(Model::Action(action))
}

// The map that takes the generator to a residue.
fn map(alloc: Global, modulus: u32, residue: u32) -> Result<Model, NoMemory> {
    if modulus < 2 || residue >= modulus {
        return Err(AllocError);
    }
    let map = Residues::from_images(alloc, modulus, &[residue])?;
    Ok(Model::Residues(map))
}

// Whether it is claimed that a isn't one, by this goal and model.
fn is_claimed(alloc: Global, goal: u32, model: Model) -> Result<bool, NoMemory> {
    let ask = asked(alloc, &[A])?;
    let Ok(claim) = claim_no(alloc, ask, No { goal, model }) else {
        return Ok(false);
    };
    let ClaimView::Settled(_, Verdict::No(no)) = claim.view() else {
        return Ok(false);
    };
    Ok(no.goal == goal && claim.copy(alloc)?.model_of().is_none())
}

// Whether the model is claimed as one of the group.
fn is_model(alloc: Global, model: Model) -> Result<bool, NoMemory> {
    match claim_model(alloc, group(alloc)?, model) {
        Ok(claim) => Ok(claim.copy(alloc)?.model_of() == Some(&group(alloc)?)),
        Err(_) => Ok(false),
    }
}

#[test]
fn a_goal_is_refuted(rt: HostRuntime) -> Result<(), Fail> {
    let alloc = rt.alloc();
    assert!(rt; is_claimed(alloc, 0, action(alloc, 3)?)?);
    assert!(rt; is_claimed(alloc, 0, map(alloc, 2, 1)?)?);
    assert!(rt; !is_claimed(alloc, 1, map(alloc, 2, 1)?)?);
    Ok(())
}

#[test]
fn models_are_of_the_group(rt: HostRuntime) -> Result<(), Fail> {
    let alloc = rt.alloc();
    assert!(rt; is_model(alloc, action(alloc, 3)?)?);
    assert!(rt; !is_model(alloc, action(alloc, 7)?)?);
    assert!(rt; !is_model(alloc, map(alloc, 3, 2)?)?);
    Ok(())
}

// The rule with these sides.
fn rule(alloc: Global, left: &str, right: &str) -> RulePair {
    RulePair {
        left: word(alloc, left),
        right: word(alloc, right),
    }
}

// The rules that take the inverse of a to a, and a^2 to the empty word.
fn system(alloc: Global) -> Result<Model, NoMemory> {
    let mut pairs = RulePairs::new(alloc);
    pairs.push(rule(alloc, "A", "a"))?;
    pairs.push(rule(alloc, "aa", "1"))?;
    Ok(Model::Complete(Rules::from_pairs(pairs)))
}

// Whether it is claimed by the system that this word isn't one.
fn is_refuted(alloc: Global, letters: &[Letter]) -> Result<bool, NoMemory> {
    let no = No {
        goal: 0,
        model: system(alloc)?,
    };
    Ok(claim_no(alloc, asked(alloc, letters)?, no).is_ok())
}

#[test]
fn a_complete_system_refutes_a_goal(rt: HostRuntime) -> Result<(), Fail> {
    let alloc = rt.alloc();
    assert!(rt; is_refuted(alloc, &[A])?);
    assert!(rt; !is_refuted(alloc, &[A, A])?);
    assert!(rt; is_model(alloc, system(alloc)?)?);
    Ok(())
}

const OUT_RELATOR: Move = Move::OutRelator {
    relator: 1,
    inverse: false,
    place: 0,
};

// The list of this move alone.
fn one_move(alloc: Global, step: Move) -> Result<Moves, NoMemory> {
    let mut moves = Moves::new(alloc);
    moves.push(step)?;
    Ok(moves)
}

// The log of the rule that takes a^2 to the empty word, with this move for the goal.
fn log(alloc: Global, step: Move) -> Result<Yes, NoMemory> {
    let mut rules = LoggedRules::new(alloc);
    rules.push(LoggedRule {
        left: word(alloc, "aa"),
        right: word(alloc, "1"),
        moves: one_move(alloc, OUT_RELATOR)?,
    })?;
    let mut goals = GoalMoves::new(alloc);
    goals.push(one_move(alloc, step)?)?;
    Ok(Yes::RuleLog(RuleLog { rules, goals }))
}

// Whether it is claimed by the log that a^2 is one.
fn is_logged(alloc: Global, step: Move) -> Result<bool, NoMemory> {
    let certificate = log(alloc, step)?;
    Ok(claim_yes(alloc, ask(alloc)?, certificate).is_ok())
}

#[test]
fn a_rule_shows_that_its_left_side_is_one(rt: HostRuntime) -> Result<(), Fail> {
    let alloc = rt.alloc();
    assert!(rt; is_logged(alloc, Move::By { rule: 1, place: 0 })?);
    assert!(rt; !is_logged(alloc, OUT_RELATOR)?);
    Ok(())
}

// The first goal that the model refutes where a^2, a and a^-1 are asked to be one.
fn first_of_three(alloc: Global, model: &Model) -> Result<Option<u32>, NoMemory> {
    let Some(ask) = asked_so(alloc, "1 aa | | aa a A") else {
        return Err(AllocError);
    };
    if !model.is_accepted(alloc, ask.group())? {
        return Err(AllocError);
    }
    model.first_refuted(alloc, &ask)
}

// Whether the second goal is the first that the model refutes.
fn names_the_second(alloc: Global, model: &Model) -> Result<bool, NoMemory> {
    match first_of_three(alloc, model)? {
        Some(goal) => Ok(goal == 1),
        None => Ok(false),
    }
}

#[test]
fn the_first_refuted_goal_is_named(rt: HostRuntime) -> Result<(), Fail> {
    let alloc = rt.alloc();
    let action = action(alloc, 3)?;
    assert!(rt; names_the_second(alloc, &action)?);
    let map = map(alloc, 2, 1)?;
    assert!(rt; names_the_second(alloc, &map)?);
    Ok(())
}

#[test]
fn a_system_names_the_first_goal(rt: HostRuntime) -> Result<(), Fail> {
    let alloc = rt.alloc();
    let system = system(alloc)?;
    assert!(rt; names_the_second(alloc, &system)?);
    Ok(())
}

// Whether the answer by the model is claimed without another test.
fn are_claimed(alloc: Global, model: Model) -> Result<bool, NoMemory> {
    let ask = asked(alloc, &[A])?;
    let no = No { goal: 0, model };
    if !no.is_accepted(alloc, &ask)? {
        return Ok(false);
    }
    let claim = Claim::of_verdict(ask, Verdict::No(no));
    Ok(claim.settles() == Some(&asked(alloc, &[A])?))
}

#[test]
fn what_is_accepted_is_claimed(rt: HostRuntime) -> Result<(), Fail> {
    let alloc = rt.alloc();
    assert!(rt; are_claimed(alloc, map(alloc, 2, 1)?)?);
    Ok(())
}
