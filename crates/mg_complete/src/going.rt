//! A turn goes on from unit to unit.
ghost use Rattle.std.specs.Prelude.{◌≡◌, ◌^◌, ◌≤◌, ℕ, true, false, [], IfOk};
ghost use Rattle.mg_complete.specs.Completion.{Vanish, first_equations};
ghost use Rattle.mg_complete.specs.Turn.{Remains};
ghost use Rattle.mg_complete.specs.Working.{Works};
ghost use Rattle.mg_complete.specs.Going.{Runs, Steps, Goes};

use crate::desk::Settled;
use crate::system::Passed;
use crate::work::Work;
use mg_core::NoMemory;
use mg_rules::next_overlap;
use std::alloc::Global;

/// Why a turn takes no unit more.
#[derive(Clone, Copy, Debug, PartialEq, Eq)]
pub(crate) enum Pause {
    /// Each goal comes to nothing.
    GoalsVanish,
    /// Each overlap and inclusion is done, and some goal remains.
    NothingLeft,
    /// All units are spent, and some goal remains.
    UnitsSpent,
    /// A rule would pass a limit.
    WouldPass(Passed),
}

impl Work {
    /// A turn up to its end: where no turn has ended More or Found it begins with the pairs and
    /// relators, and then it takes units until so many are spent.
    pub(crate) fn run(&mut self, alloc: Global, until: u64, begun: bool) -> Result<Pause, NoMemory>
        requires works { Works self.old (first_equations self.old.ask.group) }
        requires vanish { begun ≡ true → Vanish self.old.ask.group self.old.system.rules }
        requires fresh { begun ≡ false → self.old.system.rules ≡ [] }
        requires until { self.old.spent ≤ until }
        requires small { until ≤ 2 ^ 62 }
        ensures { IfOk result (λ pause. Runs self.old until pause self.new) }
    {
        if !begun {
            if let Some(passed) = self.begin(alloc)? {
                return Ok(Pause::WouldPass(passed));
            }
        }
        self.go(alloc, until)
    }

    /// Takes units until as many are spent as it is told, each goal comes to nothing, nothing is
    /// left, or a limit would be passed.
    pub(crate) fn go(&mut self, alloc: Global, until: u64) -> Result<Pause, NoMemory>
        requires works { (dealt : ℕ) × Works self.old dealt }
        requires until { self.old.spent ≤ until }
        requires small { until ≤ 2 ^ 62 }
        ensures { IfOk result (λ pause. Goes self.old until pause self.new) }
    {
        if !self.remains()? {
            return Ok(Pause::GoalsVanish);
        }
        loop {
            if let Some(pause) = self.step(alloc, until)? {
                return Ok(pause);
            }
        }
    }

    // Takes one unit and tests the goals, or tells why it takes none.
    fn step(&mut self, alloc: Global, until: u64) -> Result<Option<Pause>, NoMemory>
        requires works { (dealt : ℕ) × Works self.old dealt }
        requires remains { Remains self.old.ask self.old.system.rules }
        requires until { self.old.spent ≤ until }
        requires small { until ≤ 2 ^ 62 }
        ensures { IfOk result (λ pause. Steps self.old until pause self.new) }
    {
        let Some(next) = next_overlap(&self.system.rules, &self.last) else {
            return Ok(Some(Pause::NothingLeft));
        };
        if self.spent >= until {
            return Ok(Some(Pause::UnitsSpent));
        }
        match self.take(alloc, &next)? {
            Settled::Joined => Ok(None),
            Settled::Full(passed) => Ok(Some(Pause::WouldPass(passed))),
            Settled::Added => {
                if self.remains()? {
                    return Ok(None);
                }
                Ok(Some(Pause::GoalsVanish))
            }
        }
    }
}
