//! Which procedures have been granted units for which questions.

ghost use Rattle.std.specs.Prelude.{◌≡◌, ◌∷◌, ◌++◌, [], ◌<◌, ◌≤◌, ◌+◌, ℕ, Bool, false, List as ListOf, OnOk, length};
ghost use Rattle.mg_words.specs.declared.procedure.Procedure.{Procedure as ProcedureOf};
ghost use Rattle.mg_names.specs.Meaning.{is_named};
ghost use Rattle.mg_names.specs.Cause.{one_more_is_too_many};
ghost use Rattle.mg_names.specs.Searches.{Holds, place, one_of};

use crate::limits::{COSET_LIMIT, REWRITE_LIMIT};
use crate::plan::MOST_SEARCHES;
use mg_lists::NoMemory;
use mg_words::Procedure;
use std::alloc::Global;

/// How many procedures there are.
const PROCEDURES: usize = 7;

/// The pairs of a question and a procedure that grants have named.
#[derive(Drop)]
pub(crate) struct Searches {
    /// Whether each pair is named: the procedures of the first question in order, then those of the next.
    pub(crate) named: Vec<bool>,
    /// How many pairs are named.
    pub(crate) count: usize,
    /// How many of them are of `rewrite`, and how many of `cosets`.
    pub(crate) rewrites: usize,
    pub(crate) cosets: usize,
}

/// Where a pair is kept.
fn place_of(question: u32, procedure: Procedure) -> usize
    ensures { result ≡ place question procedure }
{
    question as usize * PROCEDURES + procedure as usize
}

/// One where the procedure is this one.
fn one_if(procedure: Procedure, this: Procedure) -> usize
    ensures one { result ≡ one_of this procedure }
    ensures most { result ≤ 1 }
{
    if procedure == this { 1 } else { 0 }
}

impl Searches {
    pub(crate) fn new(alloc: Global) -> Searches
        ensures { Holds [] 0 result }
    {
        Searches {
            named: Vec::new(alloc),
            count: 0,
            rewrites: 0,
            cosets: 0,
        }
    }

    /// Makes room for one more question.
    pub(crate) fn add_question(&mut self) -> Result<(), NoMemory>
        ensures { (ss : ListOf (ℕ × ProcedureOf)) (n : ℕ) → Holds ss n self.old →
            OnOk result (Holds ss (n + 1) self.new) }
    {
        self.named.extend_from_slice(&[false; PROCEDURES])?;
        Ok(())
    }

    /// Whether the pair is named.
    pub(crate) fn has(&self, question: u32, procedure: Procedure) -> bool
        requires { (ss : ListOf (ℕ × ProcedureOf)) × (n : ℕ) × Holds ss n self.now ×
            (question < n) }
        ensures { (ss : ListOf (ℕ × ProcedureOf)) (n : ℕ) → Holds ss n self.now → question < n →
            result ≡ is_named ss question procedure }
    {
        self.named[place_of(question, procedure)]
    }

    /// Whether no more pair of the procedure may be named.
    pub(crate) fn is_full(&self, procedure: Procedure) -> bool
        ensures { (ss : ListOf (ℕ × ProcedureOf)) (n : ℕ) → Holds ss n self.now →
            result ≡ one_more_is_too_many ss procedure }
    {
        let full = self.count >= MOST_SEARCHES;
        match procedure {
            Procedure::Rewrite => full || self.rewrites >= REWRITE_LIMIT,
            Procedure::Cosets => full || self.cosets >= COSET_LIMIT,
            Procedure::Derive | Procedure::Act | Procedure::Residue => full,
            Procedure::Nielsen | Procedure::Recall => full,
        }
    }

    /// Names a pair that isn't named.
    #[tactic(auto, using(crate::proofs::Pairs::few_of))]
    pub(crate) fn add(&mut self, question: u32, procedure: Procedure)
        requires { (ss : ListOf (ℕ × ProcedureOf)) × (n : ℕ) × Holds ss n self.old ×
            (question < n) × (length ss < MOST_SEARCHES) }
        ensures { (ss : ListOf (ℕ × ProcedureOf)) (n : ℕ) → Holds ss n self.old → question < n →
            Holds (ss ++ (question, procedure) ∷ []) n self.new }
    {
        self.named[place_of(question, procedure)] = true;
        self.count += 1;
        self.rewrites += one_if(procedure, Procedure::Rewrite);
        self.cosets += one_if(procedure, Procedure::Cosets);
    }
}
