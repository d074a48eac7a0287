//! Moves: how a word is changed at one place.
ghost use Rattle.std.specs.Prelude.{◌≡◌, IfOk};

use mg_lists::{List, NoMemory};
use mg_words::Letter;
use std::alloc::Global;

/// A change of a word at a place, which counts the letters before it from 0. Relators and rules count from 1.
#[derive(Clone, Copy, Debug, PartialEq, Eq)]
pub enum Move {
    /// A letter and its inverse are put in.
    InPair {
        /// The letter that comes first.
        letter: Letter,
        /// How many letters stand before the pair.
        place: u32,
    },
    /// A letter and its inverse, which stand there, are taken out.
    OutPair {
        /// The letter that comes first.
        letter: Letter,
        /// How many letters stand before the pair.
        place: u32,
    },
    /// A relator or its inverse is put in.
    InRelator {
        /// The place of the relator, from 1.
        relator: u32,
        /// Whether it is the inverse.
        inverse: bool,
        /// How many letters stand before it.
        place: u32,
    },
    /// A relator or its inverse, which stands there, is taken out.
    OutRelator {
        /// The place of the relator, from 1.
        relator: u32,
        /// Whether it is the inverse.
        inverse: bool,
        /// How many letters stand before it.
        place: u32,
    },
    /// The left side of a rule, which stands there, is replaced by the right side.
    By {
        /// The number of the rule, from 1.
        rule: u32,
        /// How many letters stand before it.
        place: u32,
    },
    /// The right side of a rule, which stands there, is replaced by the left side.
    Back {
        /// The number of the rule, from 1.
        rule: u32,
        /// How many letters stand before it.
        place: u32,
    },
}

/// A list of moves, made one after another.
pub type Moves = List<Move>;

/// The same moves.
pub fn copy_moves(alloc: Global, moves: &[Move]) -> Result<Moves, NoMemory>
    ensures { IfOk result (λ same. same ≡ moves.now) }
{
    let mut same = List::new(alloc);
    same.extend_from_slice(moves)?;
    Ok(same)
}
