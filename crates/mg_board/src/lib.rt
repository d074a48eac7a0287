//! A book at a board, to which many threads commit. All that they did is one history.
#![tactic(auto)]

mod board;
mod pass;
mod plays;
mod table;
mod view;

pub use board::{Board, Receipt};
pub use mg_lists::NoMemory;
pub use pass::{Pass, Passes};
pub use table::OneHistory;
pub use view::View;

#[cfg(test)]
mod tests;
