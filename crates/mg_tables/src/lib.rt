//! Coset tables: what a group's relators and the words of a subgroup force in them, the joining of rows, and the
//! tables that are reached from the table of one row.
#![tactic(auto)]

mod deduce;
mod enumerate;
mod images;
mod join;
mod laws;
mod look;
mod scan;
mod spot;
mod table;

pub use enumerate::{CosetEnumeration, MOST_ENTRIES};
pub use laws::{complete_tables_act, joining_has_one_result};
pub use mg_words::NoMemory;
pub use scan::Forced;
pub use table::{CosetTable, MOST_PLACES};

#[cfg(test)]
mod tests;
