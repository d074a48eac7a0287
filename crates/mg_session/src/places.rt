//! The searches of a session by their places.
ghost use Rattle.std.specs.Prelude.{◌≡◌, ◌+◌, ◌-◌, ◌<◌, ◌≤◌, ◌^◌, ◌↔◌, false, Some, IsTrue, IfSome, IfNone, OnOk, IfOk, length, slice_get};
ghost use Rattle.std.specs.List.{AllByRecursion};
ghost use Rattle.mg_core.specs.Log.{Settled};
ghost use Rattle.mg_ledger.specs.declared.ledger.TheConstants.{MOST_GRANTED};
ghost use Rattle.mg_workers.specs.declared.held.End.TheVariants.{Found, Idle, Stopped};
ghost use Rattle.mg_certs.specs.Validity.{key_of};
ghost use Rattle.mg_session.specs.State.{SearchState};
ghost use Rattle.mg_session.specs.Run.{CanGoOn, Idles, TakesPart, IsSettled, IsSettledTo, within_bound, allow as allowed};
ghost use Rattle.mg_session.specs.Session.{IsAbsent, end_granted, end_cancelled, granted, cancelled};
ghost use Rattle.mg_session.specs.StateOk.{EndsSo};
ghost use Rattle.mg_session.specs.At.{HasUnread, IsKeptFor, IsSearchAt, MayIdle, MayRun, Replaces, with_new};

use crate::state::{Kept, Session};
use mg_certs::Claim;
use mg_core::{Book, NoMemory};
use mg_present::{Ask, Presentation};
use mg_search::Search;
use mg_turn::Searcher;
use mg_words::Procedure;
use mg_workers::End;
use std::alloc::Global;

/// How a search stands that is granted units.
fn end_if_granted(end: End) -> End
    ensures { result ≡ end_granted end }
{
    match end {
        End::Cancelled => End::More,
        _ => end,
    }
}

/// How a search stands whose units are taken back.
fn end_if_cancelled(end: End) -> End
    ensures { result ≡ end_cancelled end }
{
    match end {
        End::Found | End::Closed | End::Stopped | End::Full { .. } => end,
        _ => End::Cancelled,
    }
}

/// Whether a search that stands so is neither closed nor full.
fn can_go_on(end: End) -> bool
    ensures { IsTrue result ↔ CanGoOn end }
{
    match end {
        End::Closed | End::Full { .. } => false,
        _ => true,
    }
}

/// How a search stands whose Ask is settled.
fn end_if_settled(end: End) -> End
    ensures found { end ≡ Found → result ≡ Found }
    ensures stopped { (end ≡ Found → ⊥) → result ≡ Stopped }
{
    match end {
        End::Found => End::Found,
        _ => End::Stopped,
    }
}

/// Whether a search may run that holds so many units and stands so, with its Ask settled or not.
fn may_run(held: u64, settled: bool, end: End) -> bool
    ensures { IsTrue result ↔ MayRun held settled end }
{
    held >= 1 && !settled && can_go_on(end)
}

/// Whether a search that stands so waits for a model.
fn is_idle(end: End) -> bool
    ensures { IsTrue result ↔ (end ≡ Idle) }
{
    matches!(end, End::Idle)
}

/// Whether a search reads models, waits for one and may spend a unit on it.
fn may_idle(kept: &Kept) -> bool
    ensures { IsTrue result ↔ MayIdle kept.now }
{
    kept.search.reads() && is_idle(kept.end) && kept.allowed >= 1
}

/// Whether the book has a model of the group above a number.
fn has_unread(
    alloc: Global,
    book: &Book<Claim>,
    group: &Presentation,
    read: u64,
) -> Result<bool, NoMemory>
    ensures { IfOk result (λ some. HasUnread some book.now group.now read) }
{
    let facts = book.models(alloc, group, read, 1)?;
    Ok(!facts.records.as_slice().is_empty())
}

/// Whether the book has a verdict for the Ask.
fn has_verdict(book: &Book<Claim>, ask: &Ask) -> bool
    ensures settled { IsTrue result → Settled key_of book.now ask.now }
    ensures unsettled { result ≡ false → Settled key_of book.now ask.now → ⊥ }
{
    match book.verdict(ask) {
        Some(_) => true,
        None => false,
    }
}

/// Of the units that a search holds, those within the bound.
fn within(bound: Option<u64>, held: u64) -> u64
    ensures { result ≡ within_bound bound held }
{
    match bound {
        None => held,
        Some(most) => held.min(most),
    }
}

/// Whether the search is the one of a question and a procedure.
fn is_for(kept: &Kept, question: u32, procedure: Procedure) -> bool
    ensures { IsTrue result ↔ IsKeptFor question procedure kept.now }
{
    kept.question == question && kept.search.procedure() == procedure
}

/// The place of the search of a question and a procedure.
fn place_among(searches: &[Kept], question: u32, procedure: Procedure) -> Option<u32>
    requires { length searches.now < 2 ^ 32 }
    ensures none { IfNone result (AllByRecursion (λ kept. IsKeptFor question procedure kept →
        ⊥) searches.now) }
    ensures some { IfSome result (λ place. (kept : Kept) ×
        (slice_get searches.now place ≡ Some kept) × IsKeptFor question procedure kept) }
{
    for (place, kept) in searches.iter().enumerate() {
        if is_for(kept, question, procedure) {
            return Some(place as u32);
        }
    }
    None
}

impl Session {
    /// How many searches there are.
    pub(crate) fn count(&self) -> u32
        ensures { result ≡ length self.now.searches }
    {
        self.searches.len() as u32
    }

    /// The place of the search of a question and a procedure; None exactly where there is none.
    pub(crate) fn place_of(&self, question: u32, procedure: Procedure) -> Option<u32>
        ensures none { IfNone result (IsAbsent self.now question procedure) }
        ensures some { IfSome result (λ place. IsSearchAt self.now question procedure place) }
    {
        place_among(self.searches.as_slice(), question, procedure)
    }

    /// Adds a search that holds nothing, and answers its place.
    pub(crate) fn add(&mut self, question: u32, search: Search) -> Result<u32, NoMemory>
        requires { length self.old.searches < u32.MAX }
        ensures added { OnOk result (self.new ≡ with_new question search self.old) }
        ensures place { IfOk result (λ place. place ≡ length self.old.searches) }
    {
        self.searches.reserve(1)?;
        let place = self.ledger.add_cell()?;
        let kept = Kept {
            question,
            search,
            allowed: 0,
            turns: 0,
            read: 0,
            end: End::Fresh,
        };
        match self.searches.push(kept) {
            Ok(()) => Ok(place),
            Err(_) => unreachable!(),
        }
    }

    /// Moves units from the purse to a search.
    pub(crate) fn grant_at(&mut self, place: u32, units: u64)
        requires there { place < length self.old.searches }
        requires few { units ≤ self.old.purse }
        requires counted { (x : SearchState) → slice_get self.old.searches place ≡ Some x →
            x.account.granted ≤ MOST_GRANTED }
        ensures { (x : SearchState) → slice_get self.old.searches place ≡ Some x →
            Replaces self.old place (self.old.purse - units) (granted units x) self.new }
    {
        match self.ledger.grant(place, units) {
            Ok(()) => {}
            Err(_) => unreachable!(),
        }
        let kept = &mut self.searches[place as usize];
        kept.end = end_if_granted(kept.end);
    }

    /// Moves what a search holds back to the purse.
    pub(crate) fn cancel_at(&mut self, place: u32)
        requires there { place < length self.old.searches }
        ensures { (x : SearchState) → slice_get self.old.searches place ≡ Some x →
            Replaces self.old place (self.old.purse + x.account.held) (cancelled x) self.new }
    {
        self.ledger.give_back(place);
        let kept = &mut self.searches[place as usize];
        kept.allowed = 0;
        kept.end = end_if_cancelled(kept.end);
    }

    /// Allows a search what it holds, or the bound where that is less.
    pub(crate) fn allow_at(&mut self, place: u32, bound: Option<u64>)
        requires there { place < length self.old.searches }
        ensures { (x : SearchState) → slice_get self.old.searches place ≡ Some x →
            Replaces self.old place self.old.purse (allowed bound x) self.new }
    {
        let held = self.ledger.account(place).held;
        let kept = &mut self.searches[place as usize];
        kept.allowed = within(bound, held);
    }

    /// Whether the Ask of a search is settled.
    fn is_settled(&self, place: u32) -> bool
        requires there { place < length self.now.searches }
        ensures settled { IsTrue result → (x : SearchState) →
            slice_get self.now.searches place ≡ Some x → IsSettled self.now x }
        ensures unsettled { result ≡ false → (x : SearchState) →
            slice_get self.now.searches place ≡ Some x → IsSettled self.now x → ⊥ }
    {
        has_verdict(&self.book, self.searches[place as usize].search.key())
    }

    /// Whether a search takes part in a run: it holds units, its Ask isn't settled, and it is neither closed nor full.
    pub(crate) fn takes_part(&self, place: u32) -> bool
        requires there { place < length self.now.searches }
        ensures { (x : SearchState) → slice_get self.now.searches place ≡ Some x →
            IsTrue result ↔ TakesPart self.now x }
    {
        let settled = self.is_settled(place);
        let held = self.ledger.account(place).held;
        may_run(held, settled, self.searches[place as usize].end)
    }

    /// Whether a search idles beside a model: it may spend a unit, its Ask isn't settled, and the book has a model of its
    /// group that it hasn't read.
    pub(crate) fn idles(&self, alloc: Global, place: u32) -> Result<bool, NoMemory>
        requires there { place < length self.now.searches }
        ensures { IfOk result (λ idles. (x : SearchState) →
            slice_get self.now.searches place ≡ Some x → IsTrue idles ↔ Idles self.now x) }
    {
        let kept = &self.searches[place as usize];
        if !may_idle(kept) {
            return Ok(false);
        }
        let settled = self.is_settled(place);
        if settled {
            return Ok(false);
        }
        has_unread(alloc, &self.book, kept.search.group(), kept.read)
    }

    /// Where the Ask of a search is settled, moves what it holds back to the purse. It stands found where it found, and
    /// stopped where another did.
    pub(crate) fn settle_at(&mut self, place: u32)
        requires there { place < length self.old.searches }
        ensures { (x : SearchState) → slice_get self.old.searches place ≡ Some x →
            EndsSo self.old.log x.search x.number x.end →
            (y : SearchState) × IsSettledTo self.old x y ×
            Replaces self.old place (self.old.purse + (x.account.held - y.account.held)) y self.new }
    {
        if self.is_settled(place) {
            self.ledger.give_back(place);
            let kept = &mut self.searches[place as usize];
            kept.allowed = 0;
            kept.end = end_if_settled(kept.end);
        }
    }
}
