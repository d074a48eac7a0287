//! Runs of a session.
ghost use Rattle.std.specs.Prelude.{◌≡◌, IfOk, map};
ghost use Rattle.std.specs.List.{AllByRecursion};
ghost use Rattle.mg_names.specs.Plan.{Plan, run};
ghost use Rattle.mg_session.specs.Run.{Settle, Further, allow as allowed};
ghost use Rattle.mg_session.specs.Session.{After};
ghost use Rattle.mg_session.specs.StateOk.{StateOk, EndsSo};
ghost use Rattle.mg_session.specs.Built.{one_worker};
ghost use Rattle.mg_session.specs.At.{AreTaking, Runs, once, again};

use crate::state::Session;
use mg_core::NoMemory;
use mg_policy::Sizes;
use std::alloc::Global;

/// Whether some search is to run.
fn some_runs(runs: &[bool]) -> bool
    ensures { Runs result runs.now }
{
    for takes in runs {
        if *takes {
            return true;
        }
    }
    false
}

impl Session {
    /// Allows each search what it holds, or the bound where that is less.
    fn allow(&mut self, bound: Option<u64>)
        ensures { self.new ≡
            record (self.old) { searches = map (allowed bound) self.old.searches } }
    {
        for place in 0..self.count() {
            self.allow_at(place, bound);
        }
    }

    /// Which searches take part in a run.
    fn those_that_run(&self, alloc: Global) -> Result<Vec<bool>, NoMemory>
        ensures { IfOk result (λ runs. AreTaking once self.now runs.items) }
    {
        let mut runs = Vec::new(alloc);
        for place in 0..self.count() {
            runs.push(self.takes_part(place))?;
        }
        Ok(runs)
    }

    /// Which searches idle beside a model that they haven't read.
    fn those_that_idle(&self, alloc: Global) -> Result<Vec<bool>, NoMemory>
        ensures { IfOk result (λ runs. AreTaking again self.now runs.items) }
    {
        let mut runs = Vec::new(alloc);
        for place in 0..self.count() {
            runs.push(self.idles(alloc, place)?)?;
        }
        Ok(runs)
    }

    /// While some search idles beside a model that it hasn't read, lets those that do run again, with what is left of
    /// their allowed units.
    fn read_on<P: Sizes>(self, alloc: Global, policy: &P) -> Result<Session, NoMemory>
        requires policy { P.fit policy.now }
        requires ok { (plan : Plan) × StateOk plan 1 self }
        ensures { IfOk result (λ after. (plan : Plan) →
            Further plan (one_worker (P.is_size policy.now)) self after) }
    {
        let mut session = self;
        let mut runs = session.those_that_idle(alloc)?;
        while some_runs(runs.as_slice()) {
            session = session.rounds(alloc, policy, runs.as_slice())?;
            runs = session.those_that_idle(alloc)?;
        }
        Ok(session)
    }

    /// Moves what settled searches hold back to the purse.
    fn settle(&mut self)
        requires { AllByRecursion (λ x.
            EndsSo self.old.log x.search x.number x.end) self.old.searches }
        ensures { Settle self.old self.new }
    {
        for place in 0..self.count() {
            self.settle_at(place);
        }
    }

    /// A whole run: each search may spend what it holds, or the bound where that is less.
    pub(crate) fn run<P: Sizes>(
        self,
        alloc: Global,
        policy: &P,
        bound: Option<u64>,
    ) -> Result<Session, NoMemory>
        requires policy { P.fit policy.now }
        requires ok { (plan : Plan) × StateOk plan 1 self }
        ensures { IfOk result (λ after. (plan : Plan) →
            After plan (one_worker (P.is_size policy.now)) (run bound) self after) }
    {
        let mut session = self;
        session.allow(bound);
        let runs = session.those_that_run(alloc)?;
        let rounds = session.rounds(alloc, policy, runs.as_slice())?;
        let mut ran = rounds.read_on(alloc, policy)?;
        ran.settle();
        Ok(ran)
    }
}
