//! Searches as a run holds them.
use mg_core::Committed;
use mg_lists::List;
use mg_turn::Limit;

/// How a search stands.
#[derive(Clone, Copy, Debug, PartialEq, Eq, PartialOrd, Ord)]
pub enum End {
    /// It has made no turn.
    Fresh,
    /// It goes on.
    More,
    /// It settled its key.
    Found,
    /// It is over without a verdict.
    Closed,
    /// It waits for a model.
    Idle,
    /// Its key was settled by another search.
    Stopped,
    /// A quantity would pass its limit.
    Full {
        /// The quantity.
        what: Limit,
        /// Its limit.
        count: u64,
    },
    /// Its units were taken back.
    Cancelled,
}

/// A search with the units that it may spend.
#[derive(Drop)]
pub struct Held<S> {
    /// The search.
    pub search: S,
    /// Its number, from 1.
    pub number: u32,
    /// The place of its cancel cell, from 0. Searches for one key share a cell.
    pub cell: u32,
    /// The units that it holds.
    pub held: u64,
    /// The units that it has spent.
    pub spent: u64,
    /// How many of the units that it holds it may spend in this run.
    pub allowed: u64,
    /// How many turns it has made.
    pub turns: u64,
    /// Up to which fact it has read the models of its group.
    pub read: u64,
    /// How it stands.
    pub end: End,
}

/// A list of searches with their units.
pub type HeldList<S> = List<Held<S>>;

/// What a worker tells of one turn.
#[derive(Clone, Copy, Debug, PartialEq, Eq)]
pub struct Note {
    /// The number of the search.
    pub search: u32,
    /// The number of the turn among those of its search, from 0.
    pub turn: u64,
    /// The units spent.
    pub units: u64,
    /// What became of its entry.
    pub committed: Committed,
}

/// The notes of one worker, in the order of its turns.
pub type WorkerNotes = List<Note>;

/// The notes of each worker.
pub type Receipts = List<WorkerNotes>;
