//! Sessions: what the steps of a plan do to units, searches and the log, and what is printed of them; and the
//! session of a script.
#![tactic(auto)]

mod blocks;
mod entries;
mod facts;
mod laws;
mod lookups;
mod moves;
mod parts;
mod phases;
mod places;
mod printing;
mod script;
mod session;
mod state;

pub use laws::{
    a_meaning_or_a_refusal, answers_are_true, facts_are_those_kept, keepers_have_the_least_number,
    keepers_publish_as_their_kind_does, nothing_unread_is_left, open_searches_spend_their_reach,
    printed_verdicts_agree, printed_verdicts_hold, questions_show_their_searches,
    refused_steps_change_nothing, runs_are_in_order, searches_are_over_with_a_verdict,
    sessions_have_a_state_more, states_are_in_order, steps_lead_from_state_to_state,
    the_first_number_settles, units_balance_where_printed, verdicts_carry_certificates,
};
pub use mg_core::NoMemory;
pub use script::{SessionRefused, run_script};
pub use session::run_plan;
