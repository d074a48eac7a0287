//! Which goals come to nothing.
ghost use Rattle.std.specs.Prelude.{◌≡◌, ◌<◌, IsTrue, ℤ, List, [], false, IfOk, OnOk, length, slice_index_or};
ghost use Rattle.mg_rules.specs.First.{IsFirstDescendant};
ghost use Rattle.mg_complete.specs.Turn.{Remains};
ghost use Rattle.mg_complete.specs.Working.{IsSystem, SameWork, AllVanish};

use crate::work::Work;
use mg_core::NoMemory;

impl Work {
    /// Whether some goal doesn't come to nothing; the one of last time is tested first.
    pub fn remains(&mut self) -> Result<bool, NoMemory>
        requires { IsSystem self.old.ask.group self.old.system }
        ensures remains { IfOk result (λ some. IsTrue some →
            Remains self.old.ask self.old.system.rules) }
        ensures vanish { IfOk result (λ some. some ≡ false → AllVanish self.old) }
        ensures same { OnOk result (SameWork self.old self.new) }
    {
        let count = self.ask.goals().len();
        if self.goal < count && !self.vanishes(self.goal)? {
            return Ok(true);
        }
        for place in 0..count {
            if !self.vanishes(place)? {
                self.goal = place;
                return Ok(true);
            }
        }
        Ok(false)
    }

    // Whether the goal at the place, from 0, comes to nothing.
    fn vanishes(&mut self, place: usize) -> Result<bool, NoMemory>
        requires system { IsSystem self.old.ask.group self.old.system }
        requires there { place < length self.old.ask.goals }
        ensures vanish { IfOk result (λ none. IsTrue none → (d : List ℤ) →
            IsFirstDescendant self.old.system.rules
            (slice_index_or self.old.ask.goals place d) []) }
        ensures remains { IfOk result (λ none. none ≡ false →
            Remains self.old.ask self.old.system.rules) }
        ensures same { OnOk result (SameWork self.old self.new) }
    {
        let goal = self.ask.goals().at(place);
        self.desk
            .rewriter
            .descend(&self.system.rules, &self.system.index, goal.letters())?;
        Ok(self.desk.rewriter.word().len() == 0)
    }
}
