//! The symbols that derivations are written in.
use mg_words::Letter;

/// A symbol of a derivation. Places count from 1.
#[derive(Clone, Copy, Debug, PartialEq, Eq, PartialOrd, Ord)]
pub enum Symbol {
    /// A letter of the group.
    Letter(Letter),
    /// A relator of the group, or its inverse.
    Relator {
        /// The place of the relator, from 1.
        place: u32,
        /// Whether it is the inverse.
        inverse: bool,
    },
    /// A word that generates the subgroup, or its inverse.
    Member {
        /// The place of the word, from 1.
        place: u32,
        /// Whether it is the inverse.
        inverse: bool,
    },
    /// The end of a part.
    Cut,
}
