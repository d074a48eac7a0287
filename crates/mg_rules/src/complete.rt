//! Whether a system is complete for a group, and what it refutes.
ghost use Rattle.std.specs.Prelude.{◌≡◌, ◌↔◌, ◌+◌, ◌-◌, ◌<◌, ◌≤◌, ℕ, ℤ, neg_ℤ, IsTrue, IfOk, OnOk, List as ListOf, [], ◌∷◌, ◌++◌, length, take, drop};
ghost use Rattle.std.specs.List.{AllByRecursion};
ghost use Rattle.mg_words.specs.Letter.{IsLetterOf};
ghost use Rattle.mg_words.specs.Word.{letters_of};
ghost use Rattle.mg_rules.specs.Rule.{Rule};
ghost use Rattle.mg_rules.specs.Shortlex.{AllDecrease};
ghost use Rattle.mg_rules.specs.First.{IsFirstDescendant};
ghost use Rattle.mg_rules.specs.Index.{IsIndexOf};
ghost use Rattle.mg_rules.specs.Meeting.{Meets, Results};
ghost use Rattle.mg_rules.specs.Complete.{IsRuleOver, IsComplete, Refutes};
ghost use Rattle.mg_rules.specs.Checking.{Vanishes, LettersVanish, FallTogether, ResultsFall, one_result, other_result};

use crate::index::RuleIndex;
use crate::listing::next_overlap;
use crate::meeting::Meeting;
use crate::rewriter::{Rewriter, normal_form_with};
use crate::rules::{RulePair, Rules};
use crate::words::are_same;
use mg_lists::NoMemory;
use mg_present::{Ask, Presentation};
use mg_words::{Letter, Word, is_over};
use std::alloc::Global;

// What words are rewritten with, the result in hand, and the first descendant of the one before it.
// They keep their room from one overlap to the next.
#[derive(Debug, Drop)]
struct Checker {
    rewriter: Rewriter,
    result: Vec<Letter>,
    end: Vec<Letter>,
}

// Whether the words of each rule are over the generators.
fn are_over(generators: u32, rules: &Rules) -> bool
    ensures { IsTrue result ↔ AllByRecursion (IsRuleOver generators) rules.now }
{
    rules.pairs().iter().all(|pair| is_over(generators, &pair.left)
        && is_over(generators, &pair.right))
}

// Puts the right side of the first rule, and what sticks out behind its left side.
fn put_one_result(
    word: &mut Vec<Letter>,
    first: &RulePair,
    second: &RulePair,
    place: usize,
) -> Result<(), NoMemory>
    requires { place ≤ length first.now.left }
    ensures { OnOk result (word.new.items ≡ one_result first.now second.now place) }
{
    word.clear();
    word.extend_from_slice(first.right.letters())?;
    let covered = first.left.letters().len() - place;
    let letters = second.left.letters();
    if covered < letters.len() {
        word.extend_from_slice(&letters[covered..])?;
    }
    Ok(())
}

// Puts what stands before the second rule's left side, its right side, and what stands behind.
fn put_other_result(
    word: &mut Vec<Letter>,
    first: &RulePair,
    second: &RulePair,
    place: usize,
) -> Result<(), NoMemory>
    requires { place ≤ length first.now.left }
    ensures { OnOk result (word.new.items ≡ other_result first.now second.now place) }
{
    let letters = first.left.letters();
    word.clear();
    word.extend_from_slice(&letters[..place])?;
    word.extend_from_slice(second.right.letters())?;
    let behind = letters.len() - place;
    let covered = second.left.letters().len();
    if covered < behind {
        word.extend_from_slice(&letters[place + covered..])?;
    }
    Ok(())
}

impl Checker {
    fn new(alloc: Global) -> Checker {
        Checker {
            rewriter: Rewriter::new(alloc),
            result: Vec::new(alloc),
            end: Vec::new(alloc),
        }
    }

    // Whether the first descendant of the word is empty.
    fn vanishes(&mut self, rules: &Rules, index: &RuleIndex, w: &[Letter]) -> Result<bool, NoMemory>
        requires decrease { AllDecrease rules.now }
        requires index { IsIndexOf rules.now index.now }
        ensures { IfOk result (λ answer. IsTrue answer ↔ Vanishes rules.now w.now) }
    {
        self.rewriter.descend(rules, index, w)?;
        Ok(self.rewriter.word().len() == 0)
    }

    // Whether each letter before its inverse vanishes.
    fn letters_vanish(
        &mut self,
        rules: &Rules,
        index: &RuleIndex,
        generators: u32,
    ) -> Result<bool, NoMemory>
        requires decrease { AllDecrease rules.now }
        requires index { IsIndexOf rules.now index.now }
        requires generators { generators ≤ 64 }
        ensures { IfOk result (λ answer. IsTrue answer ↔ LettersVanish rules.now generators) }
    {
        let mut generator = 0u8;
        while u32::from(generator) < generators {
            generator += 1;
            let x = Letter {
                generator,
                inverse: false,
            };
            if !self.vanishes(rules, index, &[x, x.inverted()])? {
                return Ok(false);
            }
            if !self.vanishes(rules, index, &[x.inverted(), x])? {
                return Ok(false);
            }
        }
        Ok(true)
    }

    // Whether each of these words vanishes.
    fn words_vanish(
        &mut self,
        rules: &Rules,
        index: &RuleIndex,
        words: &[Word],
    ) -> Result<bool, NoMemory>
        requires decrease { AllDecrease rules.now }
        requires index { IsIndexOf rules.now index.now }
        ensures { IfOk result (λ answer. IsTrue answer ↔
            AllByRecursion (Vanishes rules.now) (letters_of words.now)) }
    {
        for w in words {
            if !self.vanishes(rules, index, w.letters())? {
                return Ok(false);
            }
        }
        Ok(true)
    }

    // Whether the two results of the rules at the place have the same first descendant.
    fn fall_together(
        &mut self,
        rules: &Rules,
        index: &RuleIndex,
        first: &RulePair,
        second: &RulePair,
        place: usize,
    ) -> Result<bool, NoMemory>
        requires decrease { AllDecrease rules.now }
        requires index { IsIndexOf rules.now index.now }
        requires place { place ≤ length first.now.left }
        ensures { IfOk result (λ answer. IsTrue answer ↔ FallTogether rules.now
            (one_result first.now second.now place) (other_result first.now second.now place)) }
    {
        put_one_result(&mut self.result, first, second, place)?;
        self.rewriter.descend(rules, index, &self.result)?;
        self.end.clear();
        self.end.extend_from_slice(self.rewriter.word())?;
        put_other_result(&mut self.result, first, second, place)?;
        self.rewriter.descend(rules, index, &self.result)?;
        Ok(are_same(&self.end, self.rewriter.word()))
    }

    // Whether the two results of the overlap or inclusion have the same first descendant.
    fn joins(&mut self, rules: &Rules, index: &RuleIndex, met: &Meeting) -> Result<bool, NoMemory>
        requires decrease { AllDecrease rules.now }
        requires index { IsIndexOf rules.now index.now }
        requires meets { Meets rules.now met.now }
        ensures { IfOk result (λ answer. IsTrue answer ↔ ResultsFall rules.now met.now) }
    {
        let pairs = rules.pairs();
        let first = &pairs[met.first - 1];
        let second = &pairs[met.second - 1];
        self.fall_together(rules, index, first, second, met.place)
    }

    // Whether the two results of each overlap and inclusion have the same first descendant.
    fn all_join(&mut self, rules: &Rules, index: &RuleIndex) -> Result<bool, NoMemory>
        requires decrease { AllDecrease rules.now }
        requires index { IsIndexOf rules.now index.now }
        ensures { IfOk result (λ answer. IsTrue answer ↔
            ((m : Meeting) → ResultsFall rules.now m)) }
    {
        let mut at = Meeting::before_all();
        while let Some(next) = next_overlap(rules, &at) {
            if !self.joins(rules, index, &next)? {
                return Ok(false);
            }
            at = next;
        }
        Ok(true)
    }
}

/// Whether a system is complete for a group. It may be any list of pairs of words.
pub fn is_complete_for(alloc: Global, group: &Presentation, rules: &Rules) -> Result<bool, NoMemory>
    ensures { IfOk result (λ answer. IsTrue answer ↔ IsComplete group.now rules.now) }
{
    if !are_over(group.generators(), rules) {
        return Ok(false);
    }
    if !rules.all_decrease() {
        return Ok(false);
    }
    let index = RuleIndex::make(alloc, rules)?;
    let mut checker = Checker::new(alloc);
    if !checker.letters_vanish(rules, &index, group.generators())? {
        return Ok(false);
    }
    if !checker.words_vanish(rules, &index, group.relators().as_slice())? {
        return Ok(false);
    }
    checker.all_join(rules, &index)
}

/// Whether a system refutes the goal at a place, counted from 0: it is complete for the group,
/// there are no subgroup words, and a normal descendant of the goal isn't empty. False where there
/// is no such goal.
pub fn refutes(alloc: Global, ask: &Ask, goal: usize, rules: &Rules) -> Result<bool, NoMemory>
    ensures { IfOk result (λ answer. IsTrue answer ↔ Refutes ask.now goal rules.now) }
{
    if ask.subgroup().len() > 0 || goal >= ask.goals().len() {
        return Ok(false);
    }
    if !is_complete_for(alloc, ask.group(), rules)? {
        return Ok(false);
    }
    let index = RuleIndex::make(alloc, rules)?;
    let remains = normal_form_with(alloc, rules, &index, ask.goals().at(goal))?;
    Ok(remains.letters().len() > 0)
}
