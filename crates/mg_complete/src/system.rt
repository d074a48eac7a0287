//! Rules with the moves that show them, within the limits.
ghost use Rattle.std.specs.Prelude.{◌≡◌, ◌∷◌, [], ◌++◌, IfOk, OnOk, IfNone, IfSome, Some};
ghost use Rattle.mg_complete.specs.Turn.{Passes};
ghost use Rattle.mg_complete.specs.Working.{HasRoom, IsCounted};

use mg_core::NoMemory;
use mg_rulelog::{GoalMoves, Moves};
use mg_rules::{RuleIndex, RulePair, RulePairs, Rules};
use mg_turn::{Limit, MOST_LETTERS, MOST_MOVES, MOST_RULES, MOST_SIDE_LETTERS};
use std::alloc::Global;

/// Rules, for each the moves that show it, their index, and how many letters and moves there are.
#[derive(Debug, Drop)]
pub(crate) struct System {
    pub(crate) rules: Rules,
    pub(crate) reasons: GoalMoves,
    pub(crate) index: RuleIndex,
    pub(crate) letters: u64,
    pub(crate) moves: u64,
}

/// A limit that would be passed.
#[derive(Clone, Copy, Debug, PartialEq, Eq)]
pub struct Passed {
    /// The quantity.
    pub what: Limit,
    /// Its limit.
    pub count: u64,
}

impl Passed {
    // The limit.
    fn of(what: Limit, count: u64) -> Option<Passed>
        ensures { result ≡ Some (record { what = what; count = count }) }
    {
        Some(Passed { what, count })
    }
}

impl System {
    /// A system without rules.
    pub(crate) fn new(alloc: Global) -> Result<System, NoMemory>
        ensures rules { IfOk result (λ system. system.rules ≡ []) }
        ensures reasons { IfOk result (λ system. system.reasons ≡ []) }
        ensures counted { IfOk result (λ system. IsCounted system) }
    {
        let rules = Rules::from_pairs(RulePairs::new(alloc));
        let index = RuleIndex::make(alloc, &rules)?;
        Ok(System {
            rules,
            reasons: GoalMoves::new(alloc),
            index,
            letters: 0,
            moves: 0,
        })
    }

    /// The limit that would be passed with one more rule, if any.
    pub(crate) fn passes(&self, pair: &RulePair, moves: &Moves) -> Option<Passed>
        requires { IsCounted self.now }
        ensures some { IfSome result (λ passed. Passes self.now.rules self.now.reasons
            pair.now moves.now passed.what passed.count) }
        ensures none { IfNone result (HasRoom self.now.rules self.now.reasons pair.now moves.now) }
    {
        let letters = (pair.left.letters().len() + pair.right.letters().len()) as u64;
        if self.rules.pairs().len() as u64 >= MOST_RULES {
            return Passed::of(Limit::Rules, MOST_RULES);
        }
        if pair.left.letters().len() as u64 > MOST_SIDE_LETTERS {
            return Passed::of(Limit::Letters, MOST_SIDE_LETTERS);
        }
        if letters > MOST_LETTERS - self.letters {
            return Passed::of(Limit::Letters, MOST_LETTERS);
        }
        if moves.as_slice().len() as u64 > MOST_MOVES - self.moves {
            return Passed::of(Limit::Moves, MOST_MOVES);
        }
        None
    }

    /// Appends a rule with its moves.
    pub(crate) fn push(&mut self, pair: RulePair, moves: Moves) -> Result<(), NoMemory>
        requires counted { IsCounted self.old }
        requires room { HasRoom self.old.rules self.old.reasons pair moves }
        ensures rules { OnOk result (self.new.rules ≡ self.old.rules ++ pair ∷ []) }
        ensures reasons { OnOk result (self.new.reasons ≡ self.old.reasons ++ moves ∷ []) }
        ensures counted { OnOk result (IsCounted self.new) }
    {
        self.letters += (pair.left.letters().len() + pair.right.letters().len()) as u64;
        self.moves += moves.as_slice().len() as u64;
        self.rules.push(pair)?;
        self.index.add(&self.rules)?;
        self.reasons.push(moves)
    }
}
