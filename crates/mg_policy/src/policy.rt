//! A policy that is stored as a function.
ghost use Rattle.std.specs.Prelude.{◌≡◌, ◌≤◌};
ghost use Rattle.mg_policy.specs.Sizes.{AnswersWithin, Gives};

use crate::sizes::Sizes;

/// A function of the number of a turn and the units held, which answers the units that the turn gets.
#[derive(Drop)]
pub struct Policy<F> {
    size: F,
}

impl<F: Fn(u64, u64) -> u64> Policy<F> {
    /// Stores a function that answers from 1 to the units held.
    pub fn new(size: F) -> Policy<F>
        requires { AnswersWithin F.pre F.post size }
        ensures { result.size ≡ size }
    {
        Policy { size }
    }

    /// What the function answers.
    pub fn size(&self, turn: u64, held: u64) -> u64
        requires within { AnswersWithin F.pre F.post self.now.size }
        requires some { 1 ≤ held }
        ensures answer { F.post self.now.size turn held result }
        ensures least { 1 ≤ result }
        ensures most { result ≤ held }
    {
        (self.size)(turn, held)
    }
}

impl<F: Fn(u64, u64) -> u64> Sizes for Policy<F> {
    ghost is_size = { λ policy turn spent held units.
        Gives F.post policy.size turn held units };

    ghost fit = { λ policy. AnswersWithin F.pre F.post policy.size };

    fn size(&self, turn: u64, _spent: u64, held: u64) -> u64 {
        Policy::size(self, turn, held)
    }
}
