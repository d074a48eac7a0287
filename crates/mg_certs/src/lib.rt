//! Verdicts with the certificates that show them, and claims: the records of a log, which no code can make
//! without an accepted certificate. YES is shown by a derivation, NO by a finite action, a map to
//! residues or a complete rewriting system.
#![tactic(auto)]

mod acting;
mod claim;
mod descending;
mod laws;
mod refuting;
mod summing;
mod verdict;

pub use claim::{
    Claim, ClaimView, ModelRefused, NoRefused, YesRefused, claim_model, claim_no, claim_yes,
};
pub use laws::{accepted_verdicts_are_true, models_of_a_no_are_models, no_two_verdicts_contradict};
pub use mg_core::NoMemory;
pub use verdict::{Model, No, Verdict, Yes};

#[cfg(test)]
mod tests;
