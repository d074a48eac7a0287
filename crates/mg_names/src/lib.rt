//! Plans: what a script asks for, once its names are resolved.
#![tactic(auto)]

mod asking;
mod checks;
mod cursor;
mod declaring;
mod granting;
mod grouping;
mod home;
mod known;
mod laws;
mod least;
mod limits;
mod mapping;
mod plan;
mod questions;
mod resolver;
mod resolving;
mod scope;
mod searches;
mod sizing;
mod skipping;
mod statements;
mod texts;
mod words;

pub use laws::{
    a_plan_asks_its_questions, a_question_asks_once, every_script_has_a_plan_or_a_cause,
    plans_are_within_bounds, the_limits,
};
pub use limits::{ASK_LETTER_LIMIT, COSET_LIMIT, REWRITE_LIMIT};
pub use plan::{
    Asked, MOST_SEARCHES, MOST_STEPS, Plan, PlanGroup, PlanGroups, PlanQuestion, PlanQuestions,
    PlanStep, PlanSteps,
};
pub use resolving::{ResolveRefused, resolve};

#[cfg(test)]
mod script_tests;
#[cfg(test)]
mod tests;
