//! First descendants: a word is read letter by letter, and a left side that ends what is read is
//! replaced at once.
ghost use Rattle.std.specs.Prelude.{◌≡◌, ◌+◌, ◌≤◌, ◌<◌, ℕ, ℤ, List as ListOf, [], ◌∷◌, ◌++◌, IfOk, OnOk, IsTrue, false, reverse, length, Some, slice_get};
ghost use Rattle.std.specs.Option.{ForSome};
ghost use Rattle.mg_rules.specs.Index.{IsIndexOf};
ghost use Rattle.mg_rules.specs.Rule.{IsNormal, rule_numbered};
ghost use Rattle.mg_rules.specs.Shortlex.{AllDecrease};
ghost use Rattle.mg_rules.specs.First.{IsFirstDescendant, IsLeastEnd};
ghost use Rattle.mg_rules.specs.Reading.{ReadsTo, EndsFirst, Replaced, Tells, whole};

use crate::index::RuleIndex;
use crate::rules::{RulePair, Rules};
use crate::words::ends_with;
use mg_lists::{List, NoMemory};
use mg_words::{Letter, Word};
use std::alloc::Global;
use std::marker::Model;

/// A rewriting: a rule is used at a place.
#[derive(Clone, Copy, Debug, PartialEq, Eq, PartialOrd, Ord)]
pub struct Rewriting {
    /// The number of the rule, counted from 1.
    pub rule: usize,
    /// How many letters stand before its left side.
    pub place: usize,
}

/// Rewritings, in order.
pub type Rewritings = List<Rewriting>;

// What is read, and the rest, of which the next letter stands last.
#[derive(Debug, Drop)]
struct Stacks {
    read: Vec<Letter>,
    rest: Vec<Letter>,
}

// The least number of a rule whose left side ends the word, and 0 where there is none: each rule is
// tried.
pub(crate) fn scan(rules: &Rules, word: &[Letter]) -> usize
    ensures { IsLeastEnd rules.now word.now result }
{
    for (place, pair) in rules.pairs().iter().enumerate() {
        if ends_with(word, pair.left.letters()) {
            return place + 1;
        }
    }
    0
}

// The same number, by the index where there is one.
fn least_end(rules: &Rules, index: Option<&RuleIndex>, word: &[Letter]) -> usize
    requires { ForSome index (λ i. IsIndexOf rules.now i.now) }
    ensures { IsLeastEnd rules.now word.now result }
{
    match index {
        Some(index) => index.least_end(rules, word),
        None => scan(rules, word),
    }
}

// Puts the letters on a stack, the last one first.
fn put_back(stack: &mut Vec<Letter>, letters: &[Letter]) -> Result<(), NoMemory>
    ensures { OnOk result (stack.new.items ≡ stack.old.items ++ reverse letters.now) }
{
    let mut left = letters.len();
    while left > 0 {
        left -= 1;
        stack.push(letters[left])?;
    }
    Ok(())
}

// Appends a rewriting if asked to.
fn tell(told: &mut Rewritings, tells: bool, rule: usize, place: usize) -> Result<(), NoMemory>
    ensures told { OnOk result (IsTrue tells →
        told.new ≡ told.old ++ record { rule = rule; place = place } ∷ []) }
    ensures silent { tells ≡ false → told.new ≡ told.old }
{
    if tells {
        told.push(Rewriting { rule, place })?;
    }
    Ok(())
}

impl Stacks {
    // Begins to read a word.
    fn begin(&mut self, word: &[Letter]) -> Result<(), NoMemory>
        ensures read { OnOk result (self.new.read.items ≡ []) }
        ensures rest { OnOk result (self.new.rest.items ≡ reverse word.now) }
    {
        self.read.clear();
        self.rest.clear();
        self.read.reserve(word.len())?;
        put_back(&mut self.rest, word)
    }

    // Reads on until a left side ends what is read; answers the rule's number, and 0 where all is
    // read.
    fn read_on(&mut self, rules: &Rules, index: Option<&RuleIndex>) -> Result<usize, NoMemory>
        requires normal { IsNormal rules.now self.old.read.items }
        requires index { ForSome index (λ i. IsIndexOf rules.now i.now) }
        ensures { IfOk result (λ number.
            ReadsTo rules.now self.old.read.items self.old.rest.items
            self.new.read.items self.new.rest.items number) }
    {
        while let Some(letter) = self.rest.pop() {
            self.read.push(letter)?;
            let number = least_end(rules, index, &self.read);
            if number > 0 {
                return Ok(number);
            }
        }
        Ok(0)
    }

    // Replaces the rule's left side, which ends what is read; the right side is read next.
    fn replace(&mut self, pair: &RulePair) -> Result<(), NoMemory>
        requires { (before : ListOf ℤ) × (self.old.read.items ≡ before ++ pair.now.left) }
        ensures read { OnOk result (self.old.read.items ≡ self.new.read.items ++ pair.now.left) }
        ensures rest { OnOk result
            (self.new.rest.items ≡ self.old.rest.items ++ reverse pair.now.right) }
    {
        let before = self.read.len() - pair.left.letters().len();
        self.read.truncate(before);
        put_back(&mut self.rest, pair.right.letters())
    }

    // Replaces the left side of the rule with this number, which is the first that occurs.
    fn use_rule(&mut self, rules: &Rules, number: usize) -> Result<(), NoMemory>
        requires decrease { AllDecrease rules.now }
        requires ends { EndsFirst rules.now self.old.read.items number }
        ensures { OnOk result (Replaced rules.now self.old.read.items self.old.rest.items
            self.new.read.items self.new.rest.items number) }
    {
        self.replace(&rules.pairs()[number - 1])
    }

    // Rewrites until all is read and no left side occurs, and tells each rewriting if asked to.
    fn descend(
        &mut self,
        rules: &Rules,
        index: Option<&RuleIndex>,
        told: &mut Rewritings,
        tells: bool,
    ) -> Result<(), NoMemory>
        requires decrease { AllDecrease rules.now }
        requires normal { IsNormal rules.now self.old.read.items }
        requires index { ForSome index (λ i. IsIndexOf rules.now i.now) }
        ensures first { OnOk result (IsFirstDescendant rules.now
            (whole self.old.read.items self.old.rest.items) self.new.read.items) }
        ensures told { OnOk result (IsTrue tells → Tells rules.now
            (whole self.old.read.items self.old.rest.items) self.new.read.items told.old told.new) }
        ensures silent { tells ≡ false → told.new ≡ told.old }
    {
        'rewriting: loop {
            let number = self.read_on(rules, index)?;
            if number == 0 {
                return Ok(());
            }
            self.use_rule(rules, number)?;
            tell(told, tells, number, self.read.len())?;
        }
    }
}

/// Rewrites words to their first descendants. It holds the last answer, and keeps its room between
/// calls; a rewriting makes a word no longer, so it takes no memory beside that for the word at the
/// beginning.
#[derive(Debug, Drop)]
pub struct Rewriter {
    stacks: Stacks,
    untold: Rewritings,
}

impl Model for Rewriter {
    ghost use Rattle.std.specs.Prelude.{ℤ, List as ListOf};

    ghost Value = { ListOf ℤ };

    ghost view = { λ rewriter. rewriter.stacks.read.items };
}

impl Rewriter {
    /// One that holds the empty word and no room.
    pub fn new(alloc: Global) -> Rewriter
        ensures { result ≡ [] }
    {
        Rewriter {
            stacks: Stacks {
                read: Vec::new(alloc),
                rest: Vec::new(alloc),
            },
            untold: List::new(alloc),
        }
    }

    /// Lends the last answer.
    pub fn word(&self) -> &[Letter]
        ensures { result.now ≡ self.now }
    {
        &self.stacks.read
    }

    /// Puts the first descendant of a word. After want of memory it holds some word.
    pub fn descend(
        &mut self,
        rules: &Rules,
        index: &RuleIndex,
        w: &[Letter],
    ) -> Result<(), NoMemory>
        requires decrease { AllDecrease rules.now }
        requires index { IsIndexOf rules.now index.now }
        ensures { OnOk result (IsFirstDescendant rules.now w.now self.new) }
    {
        self.rewrite(rules, Some(index), w)
    }

    /// Puts the first descendant of a word, and appends the rewritings that lead from the word to
    /// it. After want of memory it holds some word, and some of them are appended.
    pub fn descend_and_tell(
        &mut self,
        rules: &Rules,
        index: &RuleIndex,
        w: &[Letter],
        told: &mut Rewritings,
    ) -> Result<(), NoMemory>
        requires decrease { AllDecrease rules.now }
        requires index { IsIndexOf rules.now index.now }
        ensures first { OnOk result (IsFirstDescendant rules.now w.now self.new) }
        ensures told { OnOk result (Tells rules.now w.now self.new told.old told.new) }
    {
        self.stacks.begin(w)?;
        self.stacks.descend(rules, Some(index), told, true)
    }

    // Puts the first descendant of a word, by the index where there is one.
    fn rewrite(
        &mut self,
        rules: &Rules,
        index: Option<&RuleIndex>,
        w: &[Letter],
    ) -> Result<(), NoMemory>
        requires decrease { AllDecrease rules.now }
        requires index { ForSome index (λ i. IsIndexOf rules.now i.now) }
        ensures { OnOk result (IsFirstDescendant rules.now w.now self.new) }
    {
        self.stacks.begin(w)?;
        self.stacks.descend(rules, index, &mut self.untold, false)
    }
}

/// The first descendant of a word. For many words of one system use [`normal_form_with`].
pub fn normal_form(alloc: Global, rules: &Rules, w: &Word) -> Result<Word, NoMemory>
    requires { AllDecrease rules.now }
    ensures { IfOk result (λ v. IsFirstDescendant rules.now w.now.letters v.letters) }
{
    let mut rewriter = Rewriter::new(alloc);
    rewriter.rewrite(rules, None, w.letters())?;
    Word::from_letters(alloc, rewriter.word())
}

/// The first descendant of a word, found by an index of the system.
pub fn normal_form_with(
    alloc: Global,
    rules: &Rules,
    index: &RuleIndex,
    w: &Word,
) -> Result<Word, NoMemory>
    requires decrease { AllDecrease rules.now }
    requires index { IsIndexOf rules.now index.now }
    ensures { IfOk result (λ v. IsFirstDescendant rules.now w.now.letters v.letters) }
{
    let mut rewriter = Rewriter::new(alloc);
    rewriter.descend(rules, index, w.letters())?;
    Word::from_letters(alloc, rewriter.word())
}
