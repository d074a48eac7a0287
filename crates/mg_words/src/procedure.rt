//! The names of the searches that a question can be given units for.

/// A procedure that searches for a certificate. The order is that in which reports list them.
#[derive(Clone, Copy, Debug, PartialEq, Eq, PartialOrd, Ord)]
pub enum Procedure {
    /// Derivations in the order of their numbers.
    Derive,
    /// Finite actions in the order of their numbers.
    Act,
    /// Maps to cyclic groups in the order of their numbers.
    Residue,
    /// Completion of a rewriting system.
    Rewrite,
    /// Coset enumeration.
    Cosets,
    /// Nielsen reduction in a free group.
    Nielsen,
    /// Models that other searches published.
    Recall,
}

/// The procedures, in the order in which reports list them.
pub const PROCEDURES: [Procedure; 7] = [
    Procedure::Derive,
    Procedure::Act,
    Procedure::Residue,
    Procedure::Rewrite,
    Procedure::Cosets,
    Procedure::Nielsen,
    Procedure::Recall,
];
