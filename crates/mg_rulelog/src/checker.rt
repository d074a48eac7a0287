//! Whether a log is accepted.
ghost use Rattle.std.specs.Prelude.{◌≡◌, ◌↔◌, List, ℤ, IfOk, IfNone, IfSome, IsTrue, None, Some};
ghost use Rattle.std.specs.List.{AllByRecursion};
ghost use Rattle.mg_words.specs.Letter.{IsLetterOf};
ghost use Rattle.mg_present.specs.Same.{signed};
ghost use Rattle.mg_rulelog.specs.Rule.{all_sides, sides_of, sides_numbered, relator_numbered};
ghost use Rattle.mg_rulelog.specs.Moves.{Takes, Leads};
ghost use Rattle.mg_rulelog.specs.Acceptance.{Follows, AllFollow, IsBy, Erases, AllErase, IsAccepted};
ghost use Rattle.mg_rulelog.specs.Tape.{spelled, Tells};

use crate::log::{LoggedRule, RuleLog};
use crate::moves::{Move, Moves};
use crate::tape::Tape;
use mg_lists::NoMemory;
use mg_present::{Ask, Presentation};
use mg_words::{Letter, Word, Words, inverse, is_over};
use std::alloc::Global;

/// Whether the log is accepted for the Ask, whatever numbers, places and words stand in it.
pub fn accepts(alloc: Global, ask: &Ask, log: &RuleLog) -> Result<bool, NoMemory>
    ensures { IfOk result (λ accepted. IsTrue accepted ↔ IsAccepted ask.now log.now) }
{
    let mut tape = Tape::new(alloc);
    let rules = log.rules.as_slice();
    if !all_follow(alloc, ask.group(), rules, &mut tape)? {
        return Ok(false);
    }
    let ground = Ground {
        group: ask.group(),
        rules,
    };
    ground.all_erase(alloc, log.goals.as_slice(), ask.goals(), &mut tape)
}

// Whether each rule follows from the rules before it.
fn all_follow(
    alloc: Global,
    group: &Presentation,
    rules: &[LoggedRule],
    tape: &mut Tape,
) -> Result<bool, NoMemory>
    ensures { IfOk result (λ follow. IsTrue follow ↔ AllFollow group.now rules.now) }
{
    for place in 0..rules.len() {
        let ground = Ground {
            group,
            rules: &rules[..place],
        };
        if !ground.follows(alloc, &rules[place], tape)? {
            return Ok(false);
        }
    }
    Ok(true)
}

// What moves are made over.
#[derive(Clone, Copy)]
struct Ground<'a> {
    group: &'a Presentation,
    rules: &'a [LoggedRule],
}

impl Ground<'_> {
    // Whether the rule follows from the rules.
    fn follows(&self, alloc: Global, rule: &LoggedRule, tape: &mut Tape) -> Result<bool, NoMemory>
        ensures { IfOk result (λ follows. IsTrue follows ↔
            Follows self.now.group.now (all_sides self.now.rules.now) rule.now) }
    {
        let generators = self.group.generators();
        if !is_over(generators, &rule.left) || !is_over(generators, &rule.right) {
            return Ok(false);
        }
        self.lead(alloc, rule.moves.as_slice(), &rule.left, &rule.right, tape)
    }

    // Whether there are as many lists as goals, each of which rewrites its goal to the empty word.
    fn all_erase(
        &self,
        alloc: Global,
        lists: &[Moves],
        goals: &Words,
        tape: &mut Tape,
    ) -> Result<bool, NoMemory>
        ensures { IfOk result (λ erase. IsTrue erase ↔
            AllErase self.now.group.now (all_sides self.now.rules.now) lists.now goals.now) }
    {
        if lists.len() != goals.len() {
            return Ok(false);
        }
        for place in 0..lists.len() {
            if !self.erases(alloc, lists[place].as_slice(), goals.at(place), tape)? {
                return Ok(false);
            }
        }
        Ok(true)
    }

    // Whether the moves rewrite the goal to the empty word, by rules alone.
    fn erases(
        &self,
        alloc: Global,
        moves: &[Move],
        goal: &Word,
        tape: &mut Tape,
    ) -> Result<bool, NoMemory>
        ensures { IfOk result (λ erases. IsTrue erases ↔
            Erases self.now.group.now (all_sides self.now.rules.now) moves.now goal.now.letters) }
    {
        if !moves.iter().all(|step| is_by(*step)) {
            return Ok(false);
        }
        self.lead(alloc, moves, goal, &Word::new(alloc), tape)
    }

    // Whether the moves lead from a word to a word.
    fn lead(
        &self,
        alloc: Global,
        moves: &[Move],
        from: &Word,
        to: &Word,
        tape: &mut Tape,
    ) -> Result<bool, NoMemory>
        ensures { IfOk result (λ lead. IsTrue lead ↔ Leads self.now.group.now
            (all_sides self.now.rules.now) moves.now from.now.letters to.now.letters) }
    {
        tape.load(from.letters())?;
        for step in moves {
            if !self.make(alloc, *step, tape)? {
                return Ok(false);
            }
        }
        tape.spells(to.letters())
    }

    // Makes a move; whether it can be made.
    fn make(&self, alloc: Global, step: Move, tape: &mut Tape) -> Result<bool, NoMemory>
        ensures { IfOk result (λ made. Tells (Takes self.now.group.now
            (all_sides self.now.rules.now) step (spelled tape.old)) made (spelled tape.new)) }
    {
        match step {
            Move::InPair { letter, place } if self.has(letter) => {
                tape.replace(place, &[], &[letter, letter.inverted()])
            }
            Move::OutPair { letter, place } if self.has(letter) => {
                tape.replace(place, &[letter, letter.inverted()], &[])
            }
            Move::InPair { .. } | Move::OutPair { .. } => Ok(false),
            Move::InRelator {
                relator,
                inverse,
                place,
            } => {
                match self.relator(alloc, relator, inverse)? {
                    Some(word) => tape.replace(place, &[], word.letters()),
                    None => Ok(false),
                }
            }
            Move::OutRelator {
                relator,
                inverse,
                place,
            } => {
                match self.relator(alloc, relator, inverse)? {
                    Some(word) => tape.replace(place, word.letters(), &[]),
                    None => Ok(false),
                }
            }
            Move::By { rule, place } => match self.rule_at(rule) {
                Some(found) => tape.replace(place, found.left.letters(), found.right.letters()),
                None => Ok(false),
            },
            Move::Back { rule, place } => match self.rule_at(rule) {
                Some(found) => tape.replace(place, found.right.letters(), found.left.letters()),
                None => Ok(false),
            },
        }
    }

    // Whether it is a letter of the group.
    fn has(&self, letter: Letter) -> bool
        ensures { IsTrue result ↔ IsLetterOf self.now.group.now.generators letter }
    {
        u32::from(letter.generator) <= self.group.generators()
    }

    // The relator with the number, from 1, or its inverse.
    fn relator(&self, alloc: Global, number: u32, inverted: bool) -> Result<Option<Word>, NoMemory>
        ensures none { IfOk result (λ found. IfNone found
            (relator_numbered self.now.group.now.relators number ≡ None)) }
        ensures some { IfOk result (λ found. IfSome found (λ word. (relator : List ℤ) ×
            (relator_numbered self.now.group.now.relators number ≡ Some relator) ×
            (word.letters ≡ signed inverted relator))) }
    {
        match self.relator_at(number) {
            Some(relator) if inverted => Ok(Some(inverse(alloc, relator)?)),
            Some(relator) => Ok(Some(relator.copy(alloc)?)),
            None => Ok(None),
        }
    }

    // The relator with the number, from 1.
    fn relator_at(&self, number: u32) -> Option<&Word>
        ensures none { IfNone result
            (relator_numbered self.now.group.now.relators number ≡ None) }
        ensures some { IfSome result (λ relator.
            relator_numbered self.now.group.now.relators number ≡ Some relator.now.letters) }
    {
        let relators = self.group.relators();
        if number == 0 || relators.len() < number as usize {
            return None;
        }
        Some(relators.at(number as usize - 1))
    }

    // The rule with the number, from 1.
    fn rule_at(&self, number: u32) -> Option<&LoggedRule>
        ensures none { IfNone result
            (sides_numbered (all_sides self.now.rules.now) number ≡ None) }
        ensures some { IfSome result (λ rule.
            sides_numbered (all_sides self.now.rules.now) number ≡ Some (sides_of rule.now)) }
    {
        if number == 0 || self.rules.len() < number as usize {
            return None;
        }
        Some(&self.rules[number as usize - 1])
    }
}

// Whether the move replaces a left side by its right side.
fn is_by(step: Move) -> bool
    ensures { IsTrue result ↔ IsBy step }
{
    match step {
        Move::By { .. } => true,
        Move::InPair { .. }
        | Move::OutPair { .. }
        | Move::InRelator { .. }
        | Move::OutRelator { .. }
        | Move::Back { .. } => false,
    }
}
