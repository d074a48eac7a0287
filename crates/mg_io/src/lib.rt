//! Sources of bytes and sinks for bytes, each with a count of its faults, and reading and writing
//! whole: all that a source has, and all of a text. An answer that tells of a fault comes only
//! where the count of the object that was handed in rose in the call.
#![tactic(auto)]

mod adapters;
mod copying;
mod firm;
mod limits;
mod memory;
mod outside;
mod steps;
mod whole;

pub use adapters::{InputSource, OutputSink};
pub use firm::{FirmSink, FirmSource};
pub use limits::the_limits;
pub use memory::{MemorySink, MemorySource};
pub use outside::{Failed, Sink, Source};
pub use steps::Steps;
pub use whole::{MOST_READ, ReadRefused, WriteRefused, read_all, read_counted, write_all};

#[cfg(test)]
mod tests;
