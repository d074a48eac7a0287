//! Systems of rules, and the shortlex order in which they decrease.
ghost use Rattle.std.specs.Prelude.{◌≡◌, ◌∷◌, [], ◌++◌, ◌↔◌, IsTrue, IfOk, OnOk, OnErr};
ghost use Rattle.mg_rules.specs.Shortlex.{IsSmaller, Decreases, AllDecrease};

use mg_lists::{List, NoMemory};
use mg_words::Word;
use std::alloc::Global;
use std::marker::Model;

/// Whether a word is smaller than another in shortlex: shorter, or as long and smaller letter by
/// letter. It takes no memory.
pub fn is_smaller(u: &Word, v: &Word) -> bool
    ensures { IsTrue result ↔ IsSmaller u.now.letters v.now.letters }
{
    let lesser = u.letters().len();
    let greater = v.letters().len();
    if lesser == greater {
        u.cmp(v).is_lt()
    } else {
        lesser < greater
    }
}

/// A rule: where the left side occurs it may be replaced by the right side.
#[derive(Debug, Drop)]
pub struct RulePair {
    /// The word that is replaced.
    pub left: Word,
    /// The word that takes its place.
    pub right: Word,
}

impl Model for RulePair {
    ghost use Rattle.mg_rules.specs.Rule.{Rule};

    ghost Value = { Rule };

    ghost view = { λ pair. record { left = pair.left.letters; right = pair.right.letters } };
}

impl RulePair {
    /// The same rule.
    pub fn copy(&self, alloc: Global) -> Result<RulePair, NoMemory>
        ensures { IfOk result (λ pair. pair ≡ self.now) }
    {
        Ok(RulePair {
            left: self.left.copy(alloc)?,
            right: self.right.copy(alloc)?,
        })
    }

    /// Whether the right side is smaller than the left side in shortlex. It takes no memory.
    pub fn decreases(&self) -> bool
        ensures { IsTrue result ↔ Decreases self.now }
    {
        is_smaller(&self.right, &self.left)
    }
}

/// A list of rules.
pub type RulePairs = List<RulePair>;

/// A system of rules, in order. They may be any pairs of words.
#[derive(Debug, Drop)]
pub struct Rules {
    pairs: RulePairs,
}

impl Model for Rules {
    ghost use Rattle.std.specs.Prelude.{List as ListOf};
    ghost use Rattle.mg_rules.specs.Rule.{Rule};

    ghost Value = { ListOf Rule };

    ghost view = { λ rules. rules.pairs };
}

impl Rules {
    /// The system of these rules.
    pub fn from_pairs(pairs: RulePairs) -> Rules
        ensures { result ≡ pairs }
    {
        Rules { pairs }
    }

    /// Lends the rules in order.
    pub fn pairs(&self) -> &[RulePair]
        ensures { result.now ≡ self.now }
    {
        self.pairs.as_slice()
    }

    /// The same system.
    pub fn copy(&self, alloc: Global) -> Result<Rules, NoMemory>
        ensures { IfOk result (λ rules. rules ≡ self.now) }
    {
        let mut pairs = List::new(alloc);
        for pair in self.pairs() {
            pairs.push(pair.copy(alloc)?)?;
        }
        Ok(Rules { pairs })
    }

    /// Appends a rule, which gets the next number.
    pub fn push(&mut self, pair: RulePair) -> Result<(), NoMemory>
        ensures ok { OnOk result (self.new ≡ self.old ++ pair ∷ []) }
        ensures err { OnErr result (self.new ≡ self.old) }
    {
        self.pairs.push(pair)
    }

    /// Whether each rule decreases in shortlex. It takes no memory.
    pub fn all_decrease(&self) -> bool
        ensures { IsTrue result ↔ AllDecrease self.now }
    {
        self.pairs().iter().all(|pair| pair.decreases())
    }
}
