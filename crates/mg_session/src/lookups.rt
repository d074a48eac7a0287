//! What is looked up in a session for what it prints.
ghost use Rattle.std.specs.Prelude.{◌≡◌, ℕ, ◌<◌, length};
ghost use Rattle.mg_core.specs.Log.{facts_of};
ghost use Rattle.mg_search.specs.Search.{ask_of};
ghost use Rattle.mg_report.specs.Values.{search_of, found_of};
ghost use Rattle.mg_session.specs.Output.{line_of, IsVerdict};
ghost use Rattle.mg_session.specs.Lookups.{ReadsAt};

use crate::state::Session;
use mg_certs::{Claim, ClaimView, Verdict};
use mg_core::Entries;
use mg_present::Ask;
use mg_report::SearchLine;
use mg_turn::Searcher;

impl Session {
    /// The units that were funded.
    pub(crate) fn funded(&self) -> u64
        ensures { result ≡ self.now.funded }
    {
        self.ledger.funded()
    }

    /// The units in the purse.
    pub(crate) fn purse(&self) -> u64
        ensures { result ≡ self.now.purse }
    {
        self.ledger.purse()
    }

    /// The entries of the log.
    pub(crate) fn entries(&self) -> Entries<'_, Claim>
        ensures { result ≡ self.now.log }
    {
        self.book.entries()
    }

    /// The facts of the log.
    pub(crate) fn facts(&self) -> &[Claim]
        ensures { result.now ≡ facts_of self.now.log }
    {
        self.book.records()
    }

    /// The place of the question of the search at a place.
    pub(crate) fn question(&self, place: u32) -> u32
        requires { place < length self.now.searches }
        ensures { ReadsAt (λ search. search.question) self.now place result }
    {
        self.searches[place as usize].question
    }

    /// The number of the search at a place.
    pub(crate) fn number(&self, place: u32) -> u32
        requires { place < length self.now.searches }
        ensures { ReadsAt (λ search. search.number) self.now place result }
    {
        let _searches = &self.searches;
        place + 1
    }

    /// What the search at a place asks.
    pub(crate) fn ask(&self, place: u32) -> &Ask
        requires { place < length self.now.searches }
        ensures { ReadsAt (λ search. ask_of search.search) self.now place result.now }
    {
        self.searches[place as usize].search.key()
    }

    /// What a report says of the search at a place.
    pub(crate) fn line(&self, place: u32) -> SearchLine
        requires { place < length self.now.searches }
        ensures { ReadsAt line_of self.now place (search_of result) }
    {
        let kept = &self.searches[place as usize];
        SearchLine {
            procedure: kept.search.procedure(),
            account: self.ledger.account(place),
            end: kept.end,
        }
    }

    /// The verdict for an Ask, with the number of its fact.
    pub(crate) fn verdict(&self, ask: &Ask) -> Option<(u64, &Verdict)>
        ensures { IsVerdict self.now ask.now (found_of result) }
    {
        match self.book.verdict(ask) {
            None => None,
            Some((number, claim)) => match claim.view() {
                ClaimView::Settled(_, verdict) => Some((number, verdict)),
                ClaimView::ModelOf(..) => unreachable!(),
            },
        }
    }
}
