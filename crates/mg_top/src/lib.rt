//! The Magnus workbench: reads a session script on standard input, searches for answers to its
//! questions about finitely presented groups, and prints reports whose answers can be checked again.
//! This is all that the program does, but for its `main`.
#![tactic(auto)]

mod bounds;
mod completeness;
mod gate;
mod laws;
mod messages;
mod process;
mod status;
mod top;

pub use bounds::the_limits;
pub use completeness::true_questions_are_settled;
pub use gate::{Gate, NoGate};
pub use laws::{
    answers_are_true, no_two_verdicts_contradict, nothing_unread_is_left,
    open_questions_show_their_units, printed_facts_are_those_kept, printed_verdicts_agree,
    printed_verdicts_hold, reports_carry_certificates, runs_without_a_bound_spend_all,
    states_are_in_order, the_first_number_settles, units_balance_where_printed,
};
pub use messages::message;
pub use process::start;
pub use status::{MOST_SCRIPT_BYTES, Status, code};
pub use top::magnus;

#[cfg(test)]
mod tests;
