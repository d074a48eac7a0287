//! A run of the searches that take part, while the others rest.
ghost use Rattle.std.specs.Prelude.{◌≡◌, ◌+◌, ◌-◌, ◌<◌, ◌≤◌, ◌^◌, IfOk, OnOk, List, ◌∷◌, drop, length, reverse, slice_set, true};
ghost use Rattle.std.specs.List.{AllByRecursion};
ghost use Rattle.mg_ledger.specs.Ledgers.{IsLedger, account_at};
ghost use Rattle.mg_session.specs.State.{row_taken, ledger_of};
ghost use Rattle.mg_session.specs.Run.{Rounds};
ghost use Rattle.mg_session.specs.StateOk.{StandsBeside};
ghost use Rattle.mg_session.specs.Kept.{HaveCells};
ghost use Rattle.mg_session.specs.Built.{one_worker};
ghost use Rattle.mg_session.specs.At.{AreTaking, Round, TakesIn};
ghost use Rattle.mg_session.specs.Parting.{held_of, running, places_of, kept_of, joined, cells_after, HaveSpent, IsPutBack};
ghost use Rattle.mg_session.specs.declared.parts.Place.{Place as PlaceOf};

use crate::state::{Kept, Session};
use mg_core::NoMemory;
use mg_ledger::{Account, Ledger};
use mg_policy::Sizes;
use mg_search::Search;
use mg_workers::{Held, HeldList, go_round};
use std::alloc::Global;

/// The place of a search while some run.
#[derive(Drop)]
enum Place {
    /// A search of this question runs.
    Runs {
        /// The place of the question.
        question: u32,
    },
    /// This search doesn't.
    Rests(Kept),
}

/// Searches parted for a run.
#[derive(Drop)]
struct Parted {
    /// The places of all.
    places: Vec<Place>,
    /// Those that run.
    running: HeldList<Search>,
}

/// A search as a run holds it.
fn hold(kept: Kept, cell: u32, account: Account) -> Held<Search>
    requires { cell < u32.MAX }
    ensures { result ≡ held_of cell kept account }
{
    Held {
        search: kept.search,
        number: cell + 1,
        cell,
        held: account.held,
        spent: account.spent,
        allowed: kept.allowed,
        turns: kept.turns,
        read: kept.read,
        end: kept.end,
    }
}

/// Parts those searches that run from the others.
fn part(
    alloc: Global,
    ledger: &Ledger,
    mut searches: Vec<Kept>,
    runs: &[bool],
) -> Result<Parted, NoMemory>
    requires cells { HaveCells searches.items ledger.now.cells }
    requires each { length runs.now ≡ length searches.items }
    ensures places { IfOk result (λ parted. parted.places.items ≡
        places_of runs.now searches.items) }
    ensures running { IfOk result (λ parted. parted.running ≡
        running 0 runs.now searches.items ledger.now.cells) }
{
    let mut places = Vec::new(alloc);
    let mut running = HeldList::new(alloc);
    searches.reverse();
    while let Some(kept) = searches.pop() {
        let cell = places.len();
        if runs[cell] {
            places.push(Place::Runs {
                question: kept.question,
            })?;
            let account = ledger.account(cell as u32);
            running.push(hold(kept, cell as u32, account))?;
        } else {
            places.push(Place::Rests(kept))?;
        }
    }
    Ok(Parted { places, running })
}

/// A search of a question as a run leaves it.
fn keep(question: u32, held: Held<Search>) -> Kept
    ensures { result ≡ kept_of question held }
{
    Kept {
        question,
        search: held.search,
        allowed: held.allowed,
        turns: held.turns,
        read: held.read,
        end: held.end,
    }
}

/// Takes from a cell what its search spent in a run.
fn take_spent(ledger: &mut Ledger, cell: u32, spent: u64)
    requires there { cell < length ledger.old.cells }
    requires rises { (account_at ledger.old cell).spent ≤ spent }
    requires within { spent ≤
        (account_at ledger.old cell).spent + (account_at ledger.old cell).held }
    ensures { ledger.new ≡ record (ledger.old) {
      cells =
          slice_set ledger.old.cells cell (record (account_at ledger.old cell) {
            spent = spent;
            held =
                (account_at ledger.old cell).held + (account_at ledger.old cell).spent - spent;
          });
    } }
{
    let before = ledger.account(cell).spent;
    ledger.spend(cell, spent - before);
}

/// The same searches, the last one first.
fn turned_round(
    alloc: Global,
    mut searches: HeldList<Search>,
) -> Result<Vec<Held<Search>>, NoMemory>
    ensures { IfOk result (λ turned. turned.items ≡ reverse searches) }
{
    let mut turned = Vec::new(alloc);
    while let Some(held) = searches.pop() {
        turned.push(held)?;
    }
    Ok(turned)
}

/// The search at a place: the next of those that ran, whose cell gives what it spent, or the one that rests.
fn put_back(ledger: &mut Ledger, cell: u32, place: Place, ran: &mut Vec<Held<Search>>) -> Kept
    requires { (places : List PlaceOf) ×
        HaveSpent (place ∷ places) (reverse ran.old.items) (drop cell ledger.old.cells) }
    ensures { (places : List PlaceOf) →
        HaveSpent (place ∷ places) (reverse ran.old.items) (drop cell ledger.old.cells) →
        IsPutBack cell place places ran.old.items ledger.old result ran.new.items ledger.new }
{
    match place {
        Place::Rests(kept) => kept,
        Place::Runs { question } => match ran.pop() {
            Some(held) => {
                take_spent(ledger, cell, held.spent);
                keep(question, held)
            }
            None => unreachable!(),
        },
    }
}

/// Puts those that ran back to their places, and takes what they spent from their cells.
fn join(
    alloc: Global,
    ledger: &mut Ledger,
    mut places: Vec<Place>,
    ran: HeldList<Search>,
) -> Result<Vec<Kept>, NoMemory>
    requires few { length places.items < 2 ^ 32 }
    requires spent { HaveSpent places.items ran ledger.old.cells }
    ensures searches { IfOk result (λ searches. searches.items ≡ joined places.items ran) }
    ensures cells { OnOk result (ledger.new ≡
        record (ledger.old) { cells = cells_after places.items ran ledger.old.cells }) }
{
    let mut ran = turned_round(alloc, ran)?;
    let mut searches = Vec::new(alloc);
    places.reverse();
    while let Some(place) = places.pop() {
        let cell = searches.len() as u32;
        searches.push(put_back(ledger, cell, place, &mut ran))?;
    }
    Ok(searches)
}

impl Session {
    /// Lets these searches run, as one worker, until each has left or has no allowed units.
    pub(crate) fn rounds<P: Sizes>(
        self,
        alloc: Global,
        policy: &P,
        runs: &[bool],
    ) -> Result<Session, NoMemory>
        requires policy { P.fit policy.now }
        requires ledger { IsLedger (ledger_of self) }
        requires stand { AllByRecursion (λ search.
            StandsBeside self.log (row_taken true search)) self.searches }
        requires taking { (round : Round) × AreTaking round self runs.now }
        ensures { IfOk result (λ after. (round : Round) → AreTaking round self runs.now →
            Rounds (one_worker (P.is_size policy.now)) (TakesIn round) self after) }
    {
        let Session {
            mut ledger,
            mut book,
            searches,
        } = self;
        let parted = part(alloc, &ledger, searches, runs)?;
        let ran = go_round(alloc, &mut book, policy, parted.running)?;
        let searches = join(alloc, &mut ledger, parted.places, ran)?;
        Ok(Session {
            ledger,
            book,
            searches,
        })
    }
}
