//! Policies: how many units a search's next turn gets, by the number of the turn, the units that the search has
//! spent and those that it may still spend.
#![tactic(auto)]

mod policy;
mod sizes;

pub use policy::Policy;
pub use sizes::{MOST_DOUBLINGS, MOST_EVEN, Sizes, doubling, even};

#[cfg(test)]
mod tests;
