//! The words around the innermost one.

ghost use Rattle.std.specs.Prelude.{◌≡◌, [], ◌∷◌, ◌++◌, ◌<◌, length, IfSome, IfNone};

use crate::limits::DEPTH_LIMIT;
use std::marker::Model;

/// What a word stands behind.
#[derive(Clone, Copy)]
pub(crate) enum Bracket {
    /// It is the outermost word.
    Outermost,
    /// `(`
    Round,
    /// `[`
    Left,
    /// `[`, a word with so many letters, and the comma.
    Right(u32),
}

/// A word that has begun.
#[derive(Clone, Copy)]
pub(crate) struct Begun {
    pub(crate) bracket: Bracket,
    /// How many letters its whole factors have.
    pub(crate) letters: u32,
}

/// The outermost word, which has no letters yet.
pub(crate) const OUTERMOST: Begun = Begun {
    bracket: Bracket::Outermost,
    letters: 0,
};

/// The words around the innermost one, the outermost first: one for each open bracket.
#[derive(Drop)]
pub(crate) struct Around {
    words: [Begun; DEPTH_LIMIT],
    depth: usize,
}

impl Model for Around {
    ghost use Rattle.std.specs.Prelude.{◌≡◌, ◌≤◌, List, length, take};
    ghost use Rattle.mg_terms.specs.declared.around.Begun.{Begun};
    ghost use Rattle.mg_terms.specs.declared.limits.TheConstants.{DEPTH_LIMIT};

    ghost Value = { List Begun };

    ghost view = { λ a. take a.depth a.words };

    ghost invariant = { λ a. (a.depth ≤ DEPTH_LIMIT) × (length a.words ≡ DEPTH_LIMIT) };
}

impl Around {
    pub(crate) fn new() -> Around
        ensures { result ≡ [] }
    {
        Around {
            words: [OUTERMOST; DEPTH_LIMIT],
            depth: 0,
        }
    }

    /// How many brackets are open.
    pub(crate) fn depth(&self) -> usize
        ensures { result ≡ length self.now }
    {
        self.depth
    }

    pub(crate) fn push(&mut self, word: Begun)
        requires { length self.old < DEPTH_LIMIT }
        ensures { self.new ≡ self.old ++ word ∷ [] }
    {
        self.words[self.depth] = word;
        self.depth += 1;
    }

    /// Takes the last word out; None exactly where there is none.
    pub(crate) fn pop(&mut self) -> Option<Begun>
        ensures none { IfNone result ((self.old ≡ []) × (self.new ≡ [])) }
        ensures some { IfSome result (λ last. self.old ≡ self.new ++ last ∷ []) }
    {
        if self.depth == 0 {
            return None;
        }
        self.depth -= 1;
        Some(self.words[self.depth])
    }
}
