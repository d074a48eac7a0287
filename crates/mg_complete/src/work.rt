//! What a search works with, and one unit.
ghost use Rattle.std.specs.Prelude.{◌≡◌, ◌<◌, ◌^◌, ℕ, true, false, [], IfOk};
ghost use Rattle.mg_rules.specs.Listing.{IsNext};
ghost use Rattle.mg_complete.specs.Equations.{IsEquation};
ghost use Rattle.mg_complete.specs.Completion.{first_search};
ghost use Rattle.mg_complete.specs.Working.{Works, Takes, Deals, on_desk, seen};

use crate::desk::{Desk, Settled};
use crate::system::System;
use mg_core::NoMemory;
use mg_present::Ask;
use mg_rules::Meeting;
use std::alloc::Global;

/// An Ask, the rules, the last overlap done, the units spent, and the goal that is tested first.
#[derive(Debug, Drop)]
pub struct Work {
    pub(crate) ask: Ask,
    pub(crate) system: System,
    pub(crate) desk: Desk,
    pub(crate) last: Meeting,
    pub(crate) spent: u64,
    pub(crate) goal: usize,
}

impl Work {
    /// The work of a search that has no rule yet.
    pub fn new(alloc: Global, ask: &Ask) -> Result<Work, NoMemory>
        requires { ask.now.subgroup ≡ [] }
        ensures first { IfOk result (λ work. seen work true false ≡ first_search ask.now) }
        ensures works { IfOk result (λ work. Works work 0) }
    {
        Ok(Work {
            ask: ask.copy(alloc)?,
            system: System::new(alloc)?,
            desk: Desk::new(alloc),
            last: Meeting::before_all(),
            spent: 0,
            goal: 0,
        })
    }

    /// Settles the equation on the desk, which is a pair or a relator.
    pub(crate) fn settle(&mut self, alloc: Global) -> Result<Settled, NoMemory>
        requires works { (dealt : ℕ) × Works self.old dealt }
        requires equation { IsEquation self.old.ask.group self.old.system.rules
            (on_desk self.old.desk) }
        ensures { IfOk result (λ settled. Deals (on_desk self.old.desk) self.old settled self.new) }
    {
        self.desk.settle(alloc, self.ask.group(), &mut self.system)
    }

    /// One unit: takes the next overlap or inclusion.
    pub fn take(&mut self, alloc: Global, next: &Meeting) -> Result<Settled, NoMemory>
        requires works { (dealt : ℕ) × Works self.old dealt }
        requires next { IsNext self.old.system.rules self.old.last next.now }
        requires small { self.old.spent < 2 ^ 62 }
        ensures { IfOk result (λ settled. Takes self.old settled self.new) }
    {
        self.desk.put_meeting(&self.system.rules, next)?;
        let settled = self.desk.settle(alloc, self.ask.group(), &mut self.system)?;
        if let Settled::Full(_) = settled {
            return Ok(settled);
        }
        self.last = *next;
        self.spent += 1;
        Ok(settled)
    }
}
