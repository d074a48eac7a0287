//! The units of a session: how many were funded, which of them lie in the purse, and an account
//! for each cell that they are granted to. Each call moves units from one place to another, and
//! at all times the units that were funded are those in the purse, those held and those spent.
#![tactic(auto)]

mod ledger;
mod limits;

pub use ledger::{
    Account, FundRefused, GrantRefused, Ledger, MOST_FUNDED, MOST_GRANTED, NoMemory,
    every_run_balances,
};
pub use limits::the_limits;
