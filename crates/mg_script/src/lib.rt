//! Statements of the session language.
#![tactic(auto)]

mod counted;
mod fault;
mod form;
mod forms;
mod groups;
mod laws;
mod line;
mod lines;
mod lists;
mod parsing;
mod read;
mod reader;
mod script;
mod sign;

pub use counted::{
    Counted, Counts, LETTER_LIMIT, MOST_GROUPS, MOST_MAPS, MOST_QUESTIONS, MOST_REPORTS,
    MOST_SUBGROUPS, MOST_WORDS,
};
pub use fault::StatementFault;
pub use form::{Printed, Property, procedure_of, property_of};
pub use laws::{a_script_or_a_refusal, one_cut, one_place, one_statement, the_limits};
pub use lines::Lines;
pub use parsing::{ParseRefused, parse};
pub use read::read_statement;
pub use script::{Script, ScriptLine};

#[cfg(test)]
mod tests;
