//! One equation: its words are rewritten, and it becomes a rule or is joined.
ghost use Rattle.std.specs.Prelude.{◌≡◌, ◌∷◌, ◌++◌, ◌≤◌, [], ℤ, List as ListOf, IfOk, OnOk, length};
ghost use Rattle.mg_rules.specs.Shortlex.{AllDecrease};
ghost use Rattle.mg_rules.specs.Index.{IsIndexOf};
ghost use Rattle.mg_rules.specs.Meeting.{Meets, Results};
ghost use Rattle.mg_rules.specs.Checking.{one_result, other_result};
ghost use Rattle.mg_rulelog.specs.declared.moves.Move.TheVariants.{By, Back};
ghost use Rattle.mg_rulelog.specs.Moves.{all_undone};
ghost use Rattle.mg_complete.specs.Equations.{IsEquation, IsGiven, pair_equation, relator_equation, meeting_equation, by_each};
ghost use Rattle.mg_complete.specs.Working.{IsSystem, IsRewritten, Settles, GivesPair, Adds, on_desk};

use crate::moves::{push_undone, reason};
use crate::system::{Passed, System};
use mg_core::NoMemory;
use mg_present::Presentation;
use mg_rulelog::{Move, Moves};
use mg_rules::{Meeting, Rewriter, Rewritings, RuleIndex, RulePair, Rules, is_smaller};
use mg_words::{Letter, Word};
use std::alloc::{AllocError, Global};

/// An equation with its moves, and what it is rewritten with. All keep their room from one equation
/// to the next.
#[derive(Debug, Drop)]
pub(crate) struct Desk {
    pub(crate) one: Word,
    pub(crate) other: Word,
    pub(crate) moves: Moves,
    pub(crate) one_end: Word,
    pub(crate) other_end: Word,
    pub(crate) one_told: Rewritings,
    pub(crate) other_told: Rewritings,
    pub(crate) rewriter: Rewriter,
}

/// What became of an equation.
#[derive(Clone, Copy, Debug, PartialEq, Eq)]
pub enum Settled {
    /// Its words have a common descendant.
    Joined,
    /// A rule was added.
    Added,
    /// Its rule would pass a limit.
    Full(Passed),
}

impl Desk {
    /// A desk with an equation of empty words.
    pub(crate) fn new(alloc: Global) -> Desk {
        Desk {
            one: Word::new(alloc),
            other: Word::new(alloc),
            moves: Moves::new(alloc),
            one_end: Word::new(alloc),
            other_end: Word::new(alloc),
            one_told: Rewritings::new(alloc),
            other_told: Rewritings::new(alloc),
            rewriter: Rewriter::new(alloc),
        }
    }

    /// Puts a letter before its inverse, and the empty word.
    pub(crate) fn put_pair(&mut self, letter: Letter) -> Result<(), NoMemory>
        ensures { OnOk result (on_desk self.new ≡ pair_equation letter) }
    {
        self.one.clear();
        self.one.push_all(&[letter, letter.inverted()])?;
        self.other.clear();
        clear_moves(&mut self.moves);
        self.moves.push(Move::OutPair { letter, place: 0 })
    }

    /// Puts a relator, which has this number from 1, and the empty word.
    pub(crate) fn put_relator(&mut self, number: u32, relator: &Word) -> Result<(), NoMemory>
        ensures { OnOk result (on_desk self.new ≡ relator_equation number relator.now.letters) }
    {
        self.one.clear();
        self.one.push_all(relator.letters())?;
        self.other.clear();
        clear_moves(&mut self.moves);
        self.moves.push(Move::OutRelator {
            relator: number,
            inverse: false,
            place: 0,
        })
    }

    /// Puts the two results of an overlap or inclusion.
    pub(crate) fn put_meeting(&mut self, rules: &Rules, met: &Meeting) -> Result<(), NoMemory>
        requires { Meets rules.now met.now }
        ensures { OnOk result ((u : ListOf ℤ) × (v : ListOf ℤ) × Results rules.now met.now u v ×
            (on_desk self.new ≡ meeting_equation met.now u v)) }
    {
        let pairs = rules.pairs();
        let first = &pairs[met.first - 1];
        let second = &pairs[met.second - 1];
        put_one_result(&mut self.one, first, second, met.place)?;
        put_other_result(&mut self.other, first, second, met.place)?;
        put_ways(&mut self.moves, met)
    }

    /// Makes a rule of the equation, where its words have different normal forms.
    pub(crate) fn settle(
        &mut self,
        alloc: Global,
        group: &Presentation,
        system: &mut System,
    ) -> Result<Settled, NoMemory>
        requires equation { IsEquation group.now system.old.rules (on_desk self.old) }
        requires system { IsSystem group.now system.old }
        ensures { IfOk result (λ settled.
            Settles group.now (on_desk self.old) system.old settled system.new) }
    {
        self.rewrite(&system.rules, &system.index)?;
        let Some(given) = self.rule(alloc, &system.rules)? else {
            return Ok(Settled::Joined);
        };
        add(group, system, given)
    }

    // Rewrites both words to their first descendants, and tells the rewritings.
    fn rewrite(&mut self, rules: &Rules, index: &RuleIndex) -> Result<(), NoMemory>
        requires decrease { AllDecrease rules.now }
        requires index { IsIndexOf rules.now index.now }
        ensures same { on_desk self.new ≡ on_desk self.old }
        ensures rewritten { OnOk result (IsRewritten rules.now self.new) }
    {
        clear_told(&mut self.one_told);
        self.rewriter
            .descend_and_tell(rules, index, self.one.letters(), &mut self.one_told)?;
        self.one_end.clear();
        self.one_end.push_all(self.rewriter.word())?;
        clear_told(&mut self.other_told);
        self.rewriter
            .descend_and_tell(rules, index, self.other.letters(), &mut self.other_told)?;
        self.other_end.clear();
        self.other_end.push_all(self.rewriter.word())
    }

    // The rule that the equation gives, with its reason; None where both words have the same end.
    fn rule(&self, alloc: Global, _rules: &Rules) -> Result<Option<Given>, NoMemory>
        requires { IsRewritten _rules.now self.now }
        ensures { IfOk result (λ given. GivesPair _rules.now (on_desk self.now) given) }
    {
        if is_smaller(&self.other_end, &self.one_end) {
            return Ok(Some(self.forward(alloc)?));
        }
        if is_smaller(&self.one_end, &self.other_end) {
            return Ok(Some(self.backward(alloc)?));
        }
        Ok(None)
    }

    // The rule from the end of the first word to that of the second one.
    fn forward(&self, alloc: Global) -> Result<Given, NoMemory>
        ensures left { IfOk result (λ given. given.pair.left ≡ self.now.one_end.letters) }
        ensures right { IfOk result (λ given.
            given.pair.right ≡ self.now.other_end.letters) }
        ensures moves { IfOk result (λ given. given.moves ≡
            all_undone (by_each self.now.one_told) ++
            (self.now.moves ++ by_each self.now.other_told)) }
    {
        let (back, on) = (self.one_told.as_slice(), self.other_told.as_slice());
        Ok(Given {
            pair: RulePair {
                left: self.one_end.copy(alloc)?,
                right: self.other_end.copy(alloc)?,
            },
            moves: reason(alloc, back, self.moves.as_slice(), on)?,
        })
    }

    // The rule from the end of the second word to that of the first one.
    fn backward(&self, alloc: Global) -> Result<Given, NoMemory>
        ensures left { IfOk result (λ given. given.pair.left ≡ self.now.other_end.letters) }
        ensures right { IfOk result (λ given. given.pair.right ≡ self.now.one_end.letters) }
        ensures moves { IfOk result (λ given. given.moves ≡
            all_undone (by_each self.now.other_told) ++
            (all_undone self.now.moves ++ by_each self.now.one_told)) }
    {
        let (back, on) = (self.other_told.as_slice(), self.one_told.as_slice());
        let mut own = Moves::new(alloc);
        push_undone(&mut own, self.moves.as_slice())?;
        Ok(Given {
            pair: RulePair {
                left: self.other_end.copy(alloc)?,
                right: self.one_end.copy(alloc)?,
            },
            moves: reason(alloc, back, own.as_slice(), on)?,
        })
    }
}

/// A rule with its reason.
#[derive(Debug, Drop)]
pub(crate) struct Given {
    pub(crate) pair: RulePair,
    pub(crate) moves: Moves,
}

// Adds the rule, where it passes no limit.
fn add(_group: &Presentation, system: &mut System, given: Given) -> Result<Settled, NoMemory>
    requires system { IsSystem _group.now system.old }
    requires given { IsGiven _group.now system.old.rules given.pair given.moves }
    ensures { IfOk result (λ settled.
        Adds _group.now system.old given.pair settled system.new) }
{
    if let Some(passed) = system.passes(&given.pair, &given.moves) {
        return Ok(Settled::Full(passed));
    }
    system.push(given.pair, given.moves)?;
    Ok(Settled::Added)
}

// Puts the right side of the first rule, and what sticks out behind its left side.
fn put_one_result(
    word: &mut Word,
    first: &RulePair,
    second: &RulePair,
    place: usize,
) -> Result<(), NoMemory>
    requires { place ≤ length first.now.left }
    ensures { OnOk result (word.new.letters ≡ one_result first.now second.now place) }
{
    word.clear();
    word.push_all(first.right.letters())?;
    let covered = first.left.letters().len() - place;
    let letters = second.left.letters();
    if covered < letters.len() {
        word.push_all(&letters[covered..])?;
    }
    Ok(())
}

// Puts what stands before the second rule's left side, its right side, and what stands behind.
fn put_other_result(
    word: &mut Word,
    first: &RulePair,
    second: &RulePair,
    place: usize,
) -> Result<(), NoMemory>
    requires { place ≤ length first.now.left }
    ensures { OnOk result (word.new.letters ≡ other_result first.now second.now place) }
{
    let letters = first.left.letters();
    word.clear();
    word.push_all(&letters[..place])?;
    word.push_all(second.right.letters())?;
    let behind = letters.len() - place;
    let covered = second.left.letters().len();
    if covered < behind {
        word.push_all(&letters[place + covered..])?;
    }
    Ok(())
}

// Puts the moves of an overlap or inclusion; no memory where a number doesn't fit 32 bits.
fn put_ways(moves: &mut Moves, met: &Meeting) -> Result<(), NoMemory>
    ensures { OnOk result (moves.new ≡ Back met.now.first 0 ∷ By met.now.second met.now.place ∷ []) }
{
    let numbers = (
        u32::try_from(met.first),
        u32::try_from(met.second),
        u32::try_from(met.place),
    );
    let (Ok(first), Ok(second), Ok(place)) = numbers else {
        return Err(AllocError);
    };
    clear_moves(moves);
    moves.push(Move::Back {
        rule: first,
        place: 0,
    })?;
    moves.push(Move::By {
        rule: second,
        place,
    })
}

// Takes all moves out; the room stays.
fn clear_moves(moves: &mut Moves)
    ensures { moves.new ≡ [] }
{
    while moves.pop().is_some() {}
}

// Takes all rewritings out; the room stays.
pub(crate) fn clear_told(told: &mut Rewritings)
    ensures { told.new ≡ [] }
{
    while told.pop().is_some() {}
}
