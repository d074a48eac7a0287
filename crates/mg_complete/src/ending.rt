//! How a turn ends.
ghost use Rattle.std.specs.Prelude.{◌≡◌, ℕ, IfOk, OnOk};
ghost use Rattle.mg_turn.specs.Turn.{goes_on as goes_on_at};
ghost use Rattle.mg_complete.specs.Completion.{Vanish};
ghost use Rattle.mg_complete.specs.Turn.{has_begun as has_begun_by};
ghost use Rattle.mg_complete.specs.Working.{Works, AllVanish, SameWork};
ghost use Rattle.mg_complete.specs.Going.{IsWhy, IsBegun};
ghost use Rattle.mg_complete.specs.Ending.{EndsSo};

use crate::affirm::Affirmed;
use crate::going::Pause;
use crate::work::Work;
use mg_certs::Claim;
use mg_core::NoMemory;
use mg_turn::{Limit, MOST_MOVES, TurnEnd};
use std::alloc::Global;

impl Work {
    /// How the turn ends that takes no unit more for this reason.
    pub(crate) fn end(&mut self, alloc: Global, pause: Pause) -> Result<TurnEnd<Claim>, NoMemory>
        requires works { (dealt : ℕ) × Works self.old dealt }
        requires begun { IsBegun self.old pause }
        requires why { (until : ℕ) × IsWhy self.old until pause }
        ensures end { IfOk result (λ end. (until : ℕ) → IsWhy self.old until pause →
            EndsSo self.new until end) }
        ensures same { OnOk result (SameWork self.old self.new) }
    {
        match pause {
            Pause::GoalsVanish => self.affirmed(alloc),
            Pause::NothingLeft => Ok(TurnEnd::Found(self.refute(alloc)?)),
            Pause::UnitsSpent => Ok(TurnEnd::More),
            Pause::WouldPass(passed) => Ok(TurnEnd::Full {
                what: passed.what,
                count: passed.count,
            }),
        }
    }

    // How a turn ends where each goal comes to nothing.
    fn affirmed(&mut self, alloc: Global) -> Result<TurnEnd<Claim>, NoMemory>
        requires works { (dealt : ℕ) × Works self.old dealt }
        requires vanish { AllVanish self.old }
        requires begun { Vanish self.old.ask.group self.old.system.rules }
        ensures end { IfOk result (λ end. (until : ℕ) → EndsSo self.new until end) }
        ensures same { OnOk result (SameWork self.old self.new) }
    {
        match self.affirm(alloc)? {
            Affirmed::Log(records) => Ok(TurnEnd::Found(records)),
            Affirmed::Long => Ok(TurnEnd::Full {
                what: Limit::Moves,
                count: MOST_MOVES,
            }),
        }
    }
}

// Whether a search goes on after a turn with this end.
pub(crate) fn goes_on(end: &TurnEnd<Claim>) -> bool
    ensures { result ≡ goes_on_at end.now }
{
    match end {
        TurnEnd::More | TurnEnd::Idle | TurnEnd::Stopped(_) => true,
        _ => false,
    }
}

// Whether a turn has ended More or Found, after one with this end.
pub(crate) fn has_begun(before: bool, end: &TurnEnd<Claim>) -> bool
    ensures { result ≡ has_begun_by before end.now }
{
    match end {
        TurnEnd::More | TurnEnd::Found(_) => true,
        _ => before,
    }
}
