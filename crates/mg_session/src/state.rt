//! A session as it stands between its steps.
ghost use Rattle.std.specs.Prelude.{◌≡◌};
ghost use Rattle.mg_session.specs.State.{empty};

use mg_certs::Claim;
use mg_core::Book;
use mg_ledger::Ledger;
use mg_search::Search;
use mg_workers::End;
use std::alloc::Global;
use std::marker::Model;

/// A search of a question, between runs. Its units are in the session's ledger.
#[derive(Drop)]
pub(crate) struct Kept {
    /// The place of the question, from 0.
    pub(crate) question: u32,
    /// The search.
    pub(crate) search: Search,
    /// How many units it might spend in the last run and didn't.
    pub(crate) allowed: u64,
    /// How many turns it has made.
    pub(crate) turns: u64,
    /// Up to which fact it has read the models of its group.
    pub(crate) read: u64,
    /// How it stands.
    pub(crate) end: End,
}

/// A session between two steps: its units, its log and its searches. The search at a place from 0 has the number
/// above that place, and the cell of that place in the ledger.
#[derive(Drop)]
pub(crate) struct Session {
    /// The units.
    pub(crate) ledger: Ledger,
    /// The log.
    pub(crate) book: Book<Claim>,
    /// The searches, in the order of their numbers.
    pub(crate) searches: Vec<Kept>,
}

impl Model for Session {
    ghost use Rattle.mg_session.specs.State.{State};
    ghost use Rattle.mg_session.specs.Kept.{state_of, HaveCells};

    ghost Value = { State };

    ghost view = { λ s. state_of s.ledger s.searches.items s.book };

    ghost invariant = { λ s. HaveCells s.searches.items s.ledger.cells };
}

impl Session {
    /// A session in which nothing is funded, which takes no memory.
    pub(crate) fn new(alloc: Global) -> Session
        ensures { result ≡ empty }
    {
        Session {
            ledger: Ledger::new(alloc),
            book: Book::new(alloc),
            searches: Vec::new(alloc),
        }
    }
}
