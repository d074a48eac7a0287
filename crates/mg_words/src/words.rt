//! Lists of words.
ghost use Rattle.std.specs.Prelude.{◌≡◌, ◌↔◌, ℤ, List as ListOf, ◌<◌, [], ◌∷◌, ◌++◌, IfOk, OnOk, OnErr, IfSome, IfNone, length, slice_index_or, slice_get, Some};
ghost use Rattle.std.proofs.Common.{rules};
ghost use Rattle.std.specs.Ordering.{as_partial_cmp, eq_by_cmp};
ghost use Rattle.std.specs.declared.cmp.Ordering.TheVariants.{Equal};
ghost use Rattle.std.specs.Cmp.{partial_order_from_own_ties};
ghost use Rattle.std.specs.Cmp.Rules.{comparing};
ghost use Rattle.mg_words.specs.Orders.{words_cmp, words_total};
ghost use Rattle.mg_words.specs.Word.{letters_of};

use crate::word::Word;
use mg_lists::{List, NoMemory};
use std::alloc::Global;
use std::cmp::Ordering;
use std::marker::Model;

/// A list of words, seen as the list of their letters: the room of its members doesn't count.
#[derive(Debug, Drop)]
pub struct Words {
    members: List<Word>,
}

impl Model for Words {
    ghost use Rattle.std.specs.Prelude.{ℤ, List as ListOf};
    ghost use Rattle.mg_words.specs.Word.{letters_of};

    ghost Value = { ListOf (ListOf ℤ) };

    ghost view = { λ w. letters_of w.members };
}

impl Words {
    /// The empty list, which takes no memory.
    pub fn new(alloc: Global) -> Words
        ensures { result ≡ [] }
    {
        Words {
            members: List::new(alloc),
        }
    }

    /// Appends a word.
    pub fn push(&mut self, member: Word) -> Result<(), NoMemory>
        ensures ok { OnOk result (self.new ≡ self.old ++ member.letters ∷ []) }
        ensures err { OnErr result (self.new ≡ self.old) }
    {
        self.members.push(member)?;
        Ok(())
    }

    /// Takes the last word out; None exactly where there is none.
    pub fn pop(&mut self) -> Option<Word>
        ensures none { IfNone result ((self.old ≡ []) × (self.new ≡ [])) }
        ensures some { IfSome result (λ last. self.old ≡ self.new ++ last.letters ∷ []) }
    {
        self.members.pop()
    }

    /// Lends the words in order.
    pub fn as_slice(&self) -> &[Word]
        ensures { letters_of result.now ≡ self.now }
    {
        self.members.as_slice()
    }

    /// How many words there are.
    pub fn len(&self) -> usize
        ensures { result ≡ length self.now }
    {
        self.members.as_slice().len()
    }

    /// The word at a place, from 0.
    pub fn at(&self, place: usize) -> &Word
        requires { place < length self.now }
        ensures { slice_get self.now place ≡ Some result.now.letters }
    {
        let members = self.members.as_slice();
        &members[place]
    }

    /// A list of the same words.
    pub fn copy(&self, alloc: Global) -> Result<Words, NoMemory>
        ensures { IfOk result (λ words. words ≡ self.now) }
    {
        let mut words = Words::new(alloc);
        for member in self.members.as_slice() {
            words.push(member.copy(alloc)?)?;
        }
        Ok(words)
    }
}

impl PartialEq for Words {
    ghost eq = { eq_by_cmp words_cmp };

    ghost laws = { Prim.search (words_total, comparing, rules) };

    fn eq(&self, other: &Words) -> bool {
        self.cmp(other).is_eq()
    }
}

impl Eq for Words {
    ghost laws = { Prim.search (words_total, comparing, rules) };
}

impl PartialOrd for Words {
    ghost partial_cmp = { as_partial_cmp words_cmp };

    ghost laws = { partial_order_from_own_ties (Prim.search (words_total, comparing, rules))
        (Prim.search (comparing, rules)) };

    fn partial_cmp(&self, other: &Words) -> Option<Ordering> {
        Some(self.cmp(other))
    }
}

impl Ord for Words {
    ghost cmp = { words_cmp };

    ghost total = { words_total };

    ghost matches_partial_cmp = { Prim.search (comparing, rules) };

    ghost matches_eq = { Prim.search (comparing, rules) };

    fn cmp(&self, other: &Words) -> Ordering {
        self.members.cmp(&other.members)
    }
}

/// Two lists of words compare equal exactly where they are the same value.
pub fn equal_lists_are_one()
    ensures { (a b : ListOf (ListOf ℤ)) → (words_cmp a b ≡ Equal) ↔ (a ≡ b) }
{}
