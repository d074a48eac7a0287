//! Runs of several searches by workers over one log: what a run holds, what it tells, and the laws of runs.
#![tactic(auto)]

mod held;
mod laws;
mod round;
mod seat;
mod turns;

pub use held::{End, Held, HeldList, Note, Receipts, WorkerNotes};
pub use laws::{
    balances_stay, entries_are_few, entries_sum_to_spent, event_joins, five_units_find,
    left_rows_take_no_part, log_grows, log_stays_legal, runs_join, sizes_may_be_more,
    two_units_do_not_find, workers_may_be_more,
};
pub use round::go_round;

#[cfg(test)]
mod tests;
