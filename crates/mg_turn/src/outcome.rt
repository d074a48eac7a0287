//! How turns end.
use mg_core::Records;

/// A quantity that a search keeps within a limit.
#[derive(Clone, Copy, Debug, PartialEq, Eq, PartialOrd, Ord)]
pub enum Limit {
    /// Rules of a rewriting system.
    Rules,
    /// Letters, of rules or of a derivation written out.
    Letters,
    /// Entries of a coset table.
    Entries,
    /// Moves of a log of rules.
    Moves,
    /// Symbols of derivations.
    Symbols,
}

/// How a turn ended.
#[derive(Drop)]
pub enum TurnEnd<R> {
    /// The units are spent, and the search goes on.
    More,
    /// The key is settled by the first record; for a refutation the model follows as a second one.
    Found(Records<R>),
    /// The search is over without a verdict; what it publishes is a model.
    Closed(Records<R>),
    /// The search was handed no model, and waits for one.
    Idle,
    /// The search saw this record, which settles its key.
    Stopped(Box<R>),
    /// A quantity would pass its limit.
    Full {
        /// The quantity.
        what: Limit,
        /// Its limit, one of those that this crate names.
        count: u64,
    },
}

/// What a turn spent, and how it ended.
#[derive(Drop)]
pub struct Outcome<R> {
    /// The units spent.
    pub spent: u64,
    /// The end.
    pub end: TurnEnd<R>,
}
