//! Logs of rules as values.
ghost use Rattle.std.specs.Prelude.{◌≡◌, IfOk};

use crate::moves::{Moves, copy_moves};
use mg_lists::{List, NoMemory};
use mg_words::Word;
use std::alloc::Global;
use std::marker::Model;

/// A rule with the moves that lead from its left side to its right side.
#[derive(Debug, Drop)]
pub struct LoggedRule {
    /// The word that `by` replaces.
    pub left: Word,
    /// The word that takes its place.
    pub right: Word,
    /// The moves that show that both are the same in the group.
    pub moves: Moves,
}

impl Model for LoggedRule {
    ghost use Rattle.mg_rulelog.specs.Rule.{Logged};

    ghost Value = { Logged };

    ghost view = { λ rule. record {
      left = rule.left.letters;
      right = rule.right.letters;
      moves = rule.moves;
    } };
}

impl LoggedRule {
    /// The same rule.
    pub fn copy(&self, alloc: Global) -> Result<LoggedRule, NoMemory>
        ensures { IfOk result (λ same. same ≡ self.now) }
    {
        Ok(LoggedRule {
            left: self.left.copy(alloc)?,
            right: self.right.copy(alloc)?,
            moves: copy_moves(alloc, self.moves.as_slice())?,
        })
    }
}

/// A list of rules with their moves.
pub type LoggedRules = List<LoggedRule>;

/// For each goal, a list of moves.
pub type GoalMoves = List<Moves>;

/// Rules, each with moves that use the rules before it, and for each goal the moves that rewrite it to the
/// empty word.
#[derive(Debug, Drop)]
pub struct RuleLog {
    /// The rules, which count from 1.
    pub rules: LoggedRules,
    /// The moves of the goals, in the order of the goals.
    pub goals: GoalMoves,
}

impl RuleLog {
    /// The same log.
    pub fn copy(&self, alloc: Global) -> Result<RuleLog, NoMemory>
        ensures { IfOk result (λ same. same ≡ self.now) }
    {
        let rules = copy_rules(alloc, self.rules.as_slice())?;
        let goals = copy_goals(alloc, self.goals.as_slice())?;
        Ok(RuleLog { rules, goals })
    }
}

// The same rules.
fn copy_rules(alloc: Global, rules: &[LoggedRule]) -> Result<LoggedRules, NoMemory>
    ensures { IfOk result (λ same. same ≡ rules.now) }
{
    let mut same = List::new(alloc);
    for rule in rules {
        same.push(rule.copy(alloc)?)?;
    }
    Ok(same)
}

// The same lists of moves.
fn copy_goals(alloc: Global, goals: &[Moves]) -> Result<GoalMoves, NoMemory>
    ensures { IfOk result (λ same. same ≡ goals.now) }
{
    let mut same = List::new(alloc);
    for moves in goals {
        same.push(copy_moves(alloc, moves.as_slice())?)?;
    }
    Ok(same)
}
