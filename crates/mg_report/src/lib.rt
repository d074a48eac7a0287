//! The texts that a session prints: reports, the facts of a log, the log, and refused steps.
#![tactic(auto)]

mod asks;
mod blocks;
mod facts;
mod log;
mod refusals;

pub use blocks::{QuestionBlock, SearchLine, SearchLines, report};
pub use facts::{FactBlock, report_facts};
pub use log::{EntryLine, Fate, SumLine, report_log};
pub use mg_lists::NoMemory;
pub use refusals::{cancel_refusal, fund_refusal, grant_refusal};

#[cfg(test)]
mod tests;
