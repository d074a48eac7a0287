//! YES by the rules and their reasons, where each goal comes to nothing.
ghost use Rattle.std.specs.Prelude.{◌≡◌, ◌<◌, ℕ, ℤ, List, Some, IfOk, OnOk, length, slice_get};
ghost use Rattle.mg_rulelog.specs.Acceptance.{Erases};
ghost use Rattle.mg_complete.specs.Equations.{sides};
ghost use Rattle.mg_complete.specs.Publishing.{logged};
ghost use Rattle.mg_complete.specs.Working.{Works, IsSystem, AllVanish, SameWork};
ghost use Rattle.mg_complete.specs.Ending.{Affirms, ErasesAll};

use crate::desk::clear_told;
use crate::moves::push_by;
use crate::system::System;
use crate::work::Work;
use mg_certs::{Claim, Verdict, Yes};
use mg_core::{NoMemory, Records};
use mg_rulelog::{GoalMoves, LoggedRule, LoggedRules, Moves, RuleLog, copy_moves};
use mg_rules::each_word_has_one_first_descendant;
use mg_turn::MOST_MOVES;
use std::alloc::Global;

/// What comes of a log for an Ask.
#[derive(Debug, Drop)]
pub(crate) enum Affirmed {
    /// It is accepted: the record that is published.
    Log(Records<Claim>),
    /// It would have too many moves.
    Long,
}

impl Work {
    /// The Ask settled by YES with a log of all rules, where that isn't too long.
    pub(crate) fn affirm(&mut self, alloc: Global) -> Result<Affirmed, NoMemory>
        requires works { (dealt : ℕ) × Works self.old dealt }
        requires vanish { AllVanish self.old }
        ensures affirms { IfOk result (λ affirmed. Affirms self.old affirmed) }
        ensures same { OnOk result (SameWork self.old self.new) }
    {
        let Some(goals) = self.erasing(alloc)? else {
            return Ok(Affirmed::Long);
        };
        let _ = self.ask.group();
        let rules = self.system.logged(alloc)?;
        let yes = Verdict::Yes(Yes::RuleLog(RuleLog { rules, goals }));
        let claim = Claim::of_verdict(self.ask.copy(alloc)?, yes);
        let mut records = Records::new(alloc);
        records.push(claim)?;
        Ok(Affirmed::Log(records))
    }

    // The moves that rewrite each goal to the empty word, where a log with them isn't too long.
    fn erasing(&mut self, alloc: Global) -> Result<Option<GoalMoves>, NoMemory>
        requires system { IsSystem self.old.ask.group self.old.system }
        requires vanish { AllVanish self.old }
        ensures erases { IfOk result (λ lists. ErasesAll self.old lists) }
        ensures same { OnOk result (SameWork self.old self.new) }
    {
        let mut lists = GoalMoves::new(alloc);
        let mut moves = self.system.moves;
        let count = self.ask.goals().len();
        for place in 0..count {
            let list = self.erase(alloc, place)?;
            let more = list.as_slice().len() as u64;
            if more > MOST_MOVES - moves {
                return Ok(None);
            }
            moves += more;
            lists.push(list)?;
        }
        Ok(Some(lists))
    }

    // The moves that rewrite the goal at the place, from 0, to the empty word.
    fn erase(&mut self, alloc: Global, place: usize) -> Result<Moves, NoMemory>
        requires system { IsSystem self.old.ask.group self.old.system }
        requires vanish { AllVanish self.old }
        requires there { place < length self.old.ask.goals }
        ensures erases { IfOk result (λ moves. (goal : List ℤ) →
            slice_get self.old.ask.goals place ≡ Some goal →
            Erases self.old.ask.group (sides self.old.system.rules) moves goal) }
        ensures same { OnOk result (SameWork self.old self.new) }
    {
        each_word_has_one_first_descendant();
        let goal = self.ask.goals().at(place);
        clear_told(&mut self.desk.one_told);
        self.desk.rewriter.descend_and_tell(
            &self.system.rules,
            &self.system.index,
            goal.letters(),
            &mut self.desk.one_told,
        )?;
        let mut moves = Moves::new(alloc);
        push_by(&mut moves, self.desk.one_told.as_slice())?;
        Ok(moves)
    }
}

impl System {
    // The rules with their reasons.
    fn logged(&self, alloc: Global) -> Result<LoggedRules, NoMemory>
        requires { length self.now.reasons ≡ length self.now.rules }
        ensures { IfOk result (λ rules. rules ≡ logged self.now.rules self.now.reasons) }
    {
        let pairs = self.rules.pairs();
        let reasons = self.reasons.as_slice();
        let mut rules = LoggedRules::new(alloc);
        for place in 0..pairs.len() {
            let pair = &pairs[place];
            rules.push(LoggedRule {
                left: pair.left.copy(alloc)?,
                right: pair.right.copy(alloc)?,
                moves: copy_moves(alloc, reasons[place].as_slice())?,
            })?;
        }
        Ok(rules)
    }
}
