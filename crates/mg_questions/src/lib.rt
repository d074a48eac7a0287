//! Questions about presented groups, what they mean, and the Asks that ask the same.
#![tactic(auto)]

mod asking;
mod goals;
mod laws;
mod limits;
mod lists;
mod question;

pub use asking::ask_of;
pub use laws::{asks_keep_the_meaning, equal_questions_are_one, the_limits};
pub use limits::AskFault;
pub use mg_words::NoMemory;
pub use question::{MOST_GOAL_LETTERS, MOST_WORD_LETTERS, Question, is_fit};

#[cfg(test)]
mod tests;
