//! Searches while a worker goes round them.
ghost use Rattle.std.specs.Prelude.{◌≡◌, ℕ, ◌+◌, ◌-◌, ◌^◌, ◌≤◌, ◌<◌, ◌↔◌, ◌||◌, ◌&&◌, if◌then◌else◌, min, not, false, map, IfOk, IsTrue};
ghost use Rattle.mg_workers.specs.Run.{leaves_at};
ghost use Rattle.mg_workers.specs.Seats.{seat_of, after_whole};
ghost use Rattle.mg_workers.specs.declared.held.End.TheVariants.{Stopped};

use crate::held::{End, Held, HeldList};
use mg_lists::NoMemory;
use std::alloc::Global;

/// A search in a run.
#[derive(Drop)]
pub(crate) struct Seat<S> {
    /// The search with its units.
    pub(crate) held: Held<S>,
    /// Whether it has left the run.
    pub(crate) left: bool,
    /// Whether it was stopped in the run and not dropped.
    pub(crate) looked: bool,
}

/// What a turn tells of its search, besides its records.
#[derive(Clone, Copy)]
pub(crate) struct Turned {
    /// The units spent.
    pub(crate) spent: u64,
    /// Up to which fact it was handed the models.
    pub(crate) upto: u64,
    /// Whether it was stopped.
    pub(crate) stopped: bool,
    /// How the search stands where the entry is kept.
    pub(crate) kept: End,
}

impl<S> Seat<S> {
    /// Whether the search takes another turn.
    pub(crate) fn goes_on(&self) -> bool
        ensures { IsTrue result ↔ ((self.now.left ≡ false) × (1 ≤ self.now.held.allowed)) }
    {
        !self.left && self.held.allowed >= 1
    }

    /// Counts a turn whose entry was dropped or kept.
    pub(crate) fn count_turn(&mut self, turned: Turned, dropped: bool)
        requires allowed { turned.spent ≤ self.old.held.allowed }
        requires within { self.old.held.allowed ≤ self.old.held.held }
        requires in_all { self.old.held.spent + self.old.held.held ≤ 2 ^ 62 }
        ensures held { self.new.held ≡ record (self.old.held) {
          held = self.old.held.held - turned.spent;
          spent = self.old.held.spent + turned.spent;
          allowed = self.old.held.allowed - turned.spent;
          turns = min (self.old.held.turns + 1) (2 ^ 64 - 1);
          read = (if turned.stopped then self.old.held.read else turned.upto);
          end = (if dropped then Stopped else turned.kept);
        } }
        ensures left { self.new.left ≡ leaves_at (if dropped then Stopped else turned.kept) }
        ensures looked { self.new.looked ≡ (self.old.looked || (turned.stopped && not dropped)) }
    {
        let end = if dropped { End::Stopped } else { turned.kept };
        self.left = leaves(end);
        self.looked = self.looked || (turned.stopped && !dropped);
        let held = &mut self.held;
        held.held -= turned.spent;
        held.spent += turned.spent;
        held.allowed -= turned.spent;
        held.turns = held.turns.saturating_add(1);
        if !turned.stopped {
            held.read = turned.upto;
        }
        held.end = end;
    }

    /// Counts so many units that were spent in whole turns, by which the search has made so many in all and has read up to
    /// this fact.
    pub(crate) fn count_whole(&mut self, used: u64, turns: u64, read: u64)
        requires allowed { used ≤ self.old.held.allowed }
        requires within { self.old.held.allowed ≤ self.old.held.held }
        requires in_all { self.old.held.spent + self.old.held.held ≤ 2 ^ 62 }
        ensures { self.new ≡ after_whole self.old used turns self.old.held.search read }
    {
        let held = &mut self.held;
        held.held -= used;
        held.spent += used;
        held.allowed -= used;
        held.turns = turns;
        held.read = read;
    }
}

/// Whether a search leaves a run at this end.
fn leaves(end: End) -> bool
    ensures { result ≡ leaves_at end }
{
    match end {
        End::More => false,
        _ => true,
    }
}

/// The seats of searches that come into a run, in their order.
pub(crate) fn seats_of<S: Drop>(
    alloc: Global,
    mut searches: HeldList<S>,
) -> Result<Vec<Seat<S>>, NoMemory>
    ensures { IfOk result (λ seats. seats.items ≡ map seat_of searches) }
{
    let mut seats = Vec::new(alloc);
    while let Some(held) = searches.pop() {
        seats.push(Seat {
            held,
            left: false,
            looked: false,
        })?;
    }
    seats.reverse();
    Ok(seats)
}

/// The searches of these seats, in their order.
pub(crate) fn searches_of<S: Drop>(
    alloc: Global,
    seats: Vec<Seat<S>>,
) -> Result<HeldList<S>, NoMemory>
    ensures { IfOk result (λ searches. searches ≡ map (λ seat. seat.held) seats.items) }
{
    let mut searches = HeldList::new(alloc);
    for seat in seats {
        searches.push(seat.held)?;
    }
    Ok(searches)
}
