//! What a call that tests the next numbers answers.

/// How a call ended that tests the next numbers in order, one for each unit, up to the first that is accepted.
#[derive(Clone, Copy, Debug, PartialEq, Eq)]
pub enum Advance {
    /// All units are spent, and no number that was tested is accepted.
    More,
    /// The number that was tested last is accepted, the first one.
    Found {
        /// How many numbers this call tested.
        spent: u64,
    },
}
