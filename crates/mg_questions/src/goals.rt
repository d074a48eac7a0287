//! The table of questions: the group, the subgroup words and the goals of each.
ghost use Rattle.std.specs.Prelude.{◌≡◌, IfOk};
ghost use Rattle.std.specs.List.{AllZip};
ghost use Rattle.mg_words.specs.Reduction.{IsFormOf};
ghost use Rattle.mg_questions.specs.Goals.{goals_of, group_of, subgroup_of};
ghost use Rattle.mg_questions.specs.Asking.{IsFit};

use crate::lists::{
    commutators, commutators_with, conjugates, generators, images, quotient, reduced,
};
use crate::question::Question;
use mg_present::Presentation;
use mg_words::{NoMemory, Words};
use std::alloc::Global;
use std::slice;

// The group that a question asks about.
pub(crate) fn asked_group(question: &Question) -> &Presentation
    ensures { result.now ≡ group_of question.now }
{
    match question {
        Question::WordIsOne { group, .. } => group,
        Question::WordsEqual { group, .. } => group,
        Question::InSubgroup { group, .. } => group,
        Question::Trivial { group } => group,
        Question::Abelian { group } => group,
        Question::Central { group, .. } => group,
        Question::Normal { group, .. } => group,
        Question::Extends { target, .. } => target,
        Question::Onto { target, .. } => target,
        Question::InKernel { target, .. } => target,
    }
}

// The words of the subgroup in which the goals are to lie.
pub(crate) fn asked_subgroup(alloc: Global, question: &Question) -> Result<Words, NoMemory>
    ensures { IfOk result (λ words. words ≡ subgroup_of question.now) }
{
    match question {
        Question::InSubgroup { subgroup, .. } => subgroup.copy(alloc),
        Question::Normal { subgroup, .. } => subgroup.copy(alloc),
        Question::Onto { map, .. } => map.images().copy(alloc),
        _ => Ok(Words::new(alloc)),
    }
}

// The goals, freely reduced.
pub(crate) fn asked_goals(alloc: Global, question: &Question) -> Result<Words, NoMemory>
    requires { IsFit question.now }
    ensures { IfOk result (λ goals. AllZip IsFormOf (goals_of question.now) goals) }
{
    match question {
        Question::WordIsOne { word, .. } => reduced(alloc, slice::from_ref(word)),
        Question::WordsEqual { left, right, .. } => {
            let word = quotient(alloc, left, right)?;
            reduced(alloc, slice::from_ref(&word))
        }
        Question::InSubgroup { word, .. } => reduced(alloc, slice::from_ref(word)),
        Question::Trivial { group } => reduced(alloc, generators(alloc, group)?.as_slice()),
        Question::Abelian { group } => {
            let xs = generators(alloc, group)?;
            let words = commutators(alloc, xs.as_slice())?;
            reduced(alloc, words.as_slice())
        }
        Question::Central { group, word } => {
            let xs = generators(alloc, group)?;
            let words = commutators_with(alloc, word, xs.as_slice())?;
            reduced(alloc, words.as_slice())
        }
        Question::Normal { group, subgroup } => {
            let xs = generators(alloc, group)?;
            let words = conjugates(alloc, xs.as_slice(), subgroup.as_slice())?;
            reduced(alloc, words.as_slice())
        }
        Question::Extends { source, map, .. } => images(alloc, map, source.relators().as_slice()),
        Question::Onto { target, .. } => reduced(alloc, generators(alloc, target)?.as_slice()),
        Question::InKernel { map, word, .. } => images(alloc, map, slice::from_ref(word)),
    }
}
