//! The entries of a log.
use mg_lists::List;

/// A list of records.
pub type Records<R> = List<R>;

/// What one turn of one search put into the log.
#[derive(Drop)]
pub struct Entry<R> {
    /// The number of the pass under which it was committed.
    pub pass: u32,
    /// The number of the search.
    pub search: u32,
    /// The number of the turn among those of its search, from 0.
    pub turn: u64,
    /// The units that the turn spent.
    pub units: u64,
    /// Whether the key of the search was settled before.
    pub dropped: bool,
    /// What the turn found; nothing where it was dropped.
    pub records: Records<R>,
}

/// An entry as a log lends it.
#[derive(Clone, Copy)]
pub struct EntryView<'a, R> {
    /// The number of the pass under which it was committed.
    pub pass: u32,
    /// The number of the search.
    pub search: u32,
    /// The number of the turn among those of its search, from 0.
    pub turn: u64,
    /// The units that the turn spent.
    pub units: u64,
    /// Whether the key of the search was settled before.
    pub dropped: bool,
    /// What the turn found; nothing where it was dropped.
    pub records: &'a [R],
}

/// What became of an entry.
#[derive(Clone, Copy, Debug, PartialEq, Eq)]
pub enum Committed {
    /// It was appended with its records.
    Kept {
        /// Its place in the log, from 1.
        place: u64,
    },
    /// Its key was settled before: it was appended without records.
    Dropped {
        /// Its place in the log, from 1.
        place: u64,
        /// The number of the fact that is the verdict.
        by: u64,
    },
}

/// Models of a group from a log.
#[derive(Drop)]
pub struct Facts<R> {
    /// They stand above this fact number.
    pub from: u64,
    /// There are no others up to this one.
    pub upto: u64,
    /// The models, in the order of the log.
    pub records: Records<R>,
}
