//! A log of turns over any kind of record, and the book that keeps it. A record settles a key or is a
//! model of a group; what the log knows are the records of the turns that were kept.
#![tactic(auto)]

mod book;
mod entries;
mod index;
mod laws;
mod record;
mod scan;
mod streaks;

pub use book::Book;
pub use entries::{Committed, Entry, EntryView, Facts, Records};
pub use laws::{commits_keep_a_log_legal, facts_of_appended, legal_appended};
pub use mg_lists::NoMemory;
pub use record::{Record, settles_key};
pub use streaks::Entries;

#[cfg(test)]
mod tests;
