//! Rewriting systems: rules that replace a word by a smaller one, first descendants, and what
//! systems that are complete for a group say of it.
#![tactic(auto)]

mod complete;
mod index;
mod laws;
mod listing;
mod meeting;
mod rewriter;
mod rules;
#[cfg(test)]
mod tests;
mod words;

pub use complete::{is_complete_for, refutes};
pub use index::RuleIndex;
pub use laws::{
    added_rules_keep_descendants, complete_systems_decide, each_word_has_one_first_descendant,
    normal_descendants_are_equal, refuted_goals_do_not_lie,
};
pub use listing::{next_overlap, overlaps};
pub use meeting::{Meeting, Overlap, Overlaps};
pub use mg_words::NoMemory;
pub use rewriter::{Rewriter, Rewriting, Rewritings, normal_form, normal_form_with};
pub use rules::{RulePair, RulePairs, Rules, is_smaller};
