//! The Asks of questions.
ghost use Rattle.std.specs.Prelude.{◌≡◌, ℕ, ◌↔◌, IfOk};
ghost use Rattle.mg_questions.specs.Goals.{goals_of};
ghost use Rattle.mg_questions.specs.Asking.{AreTooMany, IsAskOf, IsFirstTooLong, IsFit};

use crate::goals::{asked_goals, asked_group, asked_subgroup};
use crate::limits::{AskFault, refusal};
use crate::question::Question;
use mg_present::Ask;
use std::alloc::Global;

/// The Ask of a question: a group, subgroup words, and goals, each freely reduced.
///
/// | question | subgroup words | goals |
/// |---|---|---|
/// | the word is one | none | the word |
/// | two words are equal | none | `u v^-1` |
/// | the word lies in the subgroup | its words | the word |
/// | trivial | none | each generator |
/// | abelian | none | the commutator of each two generators, in order |
/// | central | none | the commutator of the word with each generator |
/// | normal | its words | `x h x^-1`, `x^-1 h x` for each generator x and each subgroup word h |
/// | the map extends | none | the image of each relator of the source, in the target |
/// | the map is onto | the images | each generator of the target |
/// | the image is one | none | the image of the word, in the target |
///
/// It is refused where there would be more than [`mg_present::MOST_GOALS`] goals, and else where a goal
/// is longer than [`crate::MOST_GOAL_LETTERS`] before it is reduced; the first such goal is named. The
/// one other fault is want of memory.
pub fn ask_of(alloc: Global, question: &Question) -> Result<Ask, AskFault>
    requires { IsFit question.now }
    ensures ask { IfOk result (λ ask. IsAskOf question.now ask) }
    ensures too_many { (count : ℕ) →
        (result ≡ Err (AskFault.TooManyGoals count)) ↔ AreTooMany (goals_of question.now) count }
    ensures too_long { (goal letters : ℕ) →
        (result ≡ Err (AskFault.GoalTooLong goal letters)) ↔
        IsFirstTooLong (goals_of question.now) goal letters }
{
    if let Some(fault) = refusal(question) {
        return Err(fault);
    }
    let group = asked_group(question).copy(alloc)?;
    let subgroup = asked_subgroup(alloc, question)?;
    let goals = asked_goals(alloc, question)?;
    Ok(Ask::new(group, subgroup, goals))
}
