//! Words and verdicts as text. A text is pieces, joined by single spaces. Each call that pushes
//! appends its text to the bytes handed in; where memory is wanting, these stay as they were.
#![tactic(auto)]

mod logs;
mod models;
mod pieces;
mod signs;
mod verdicts;
mod words;

pub use mg_lists::NoMemory;
pub use models::push_model;
pub use pieces::{push_bytes, push_count, push_number, push_piece};
pub use verdicts::print;
pub use words::{push_names, push_words};

#[cfg(test)]
mod tests;
