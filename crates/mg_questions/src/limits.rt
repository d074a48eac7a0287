//! Which questions have no Ask, since they have too many goals or too long a goal.
ghost use Rattle.std.specs.Prelude.{◌≡◌, ◌≤◌, ◌<◌, ◌*◌, MatchOption, length, map as map_of};
ghost use Rattle.std.specs.List.{AllByRecursion};
ghost use Rattle.mg_words.specs.Word.{letters_of};
ghost use Rattle.mg_present.specs.Image.{image_of};
ghost use Rattle.mg_present.specs.declared.presentation.TheConstants.{MOST_GENERATORS};
ghost use Rattle.mg_present.specs.declared.ask.TheConstants.{MOST_SUBGROUP_WORDS};
ghost use Rattle.mg_questions.specs.Goals.{goals_of};
ghost use Rattle.mg_questions.specs.Asking.{AreAllowed, IsFit, IsGiven, IsRefused};
ghost use Rattle.mg_questions.specs.declared.question.TheConstants.{MOST_WORD_LETTERS};

use crate::goals::asked_group;
use crate::question::{MOST_GOAL_LETTERS, Question};
use mg_present::{GenMap, MOST_GOALS, image_length};
use mg_words::{NoMemory, Word};
use std::slice;
use thiserror::Error;

/// Why there is no Ask of a question.
#[derive(Clone, Copy, Debug, PartialEq, Eq, Error)]
pub enum AskFault {
    /// The Ask would have more goals than an Ask may have.
    #[error("an ask of {count} goals is too large")]
    TooManyGoals {
        /// How many goals it would have.
        count: u64,
    },
    /// A goal, written out, is too long.
    #[error("goal {goal} of {length} letters is too long")]
    GoalTooLong {
        /// The place of the first such goal, from 0.
        goal: u32,
        /// Its length before it is reduced.
        length: u64,
    },
    /// Want of memory.
    #[error("no memory")]
    NoMemory,
}

impl From<NoMemory> for AskFault {
    ghost use Rattle.mg_questions.specs.declared.limits.AskFault.TheVariants.{NoMemory};

    ghost from_gives = { λ _ fault. fault ≡ NoMemory };

    fn from(_: NoMemory) -> AskFault {
        AskFault::NoMemory
    }
}

// Why a question has no Ask, memory aside. It takes no memory.
pub(crate) fn refusal(question: &Question) -> Option<AskFault>
    requires { IsFit question.now }
    ensures { MatchOption result (AreAllowed (goals_of question.now))
        (λ fault. IsRefused (goals_of question.now) fault) }
{
    let generators = asked_group(question).generators();
    match question {
        Question::Normal { subgroup, .. } => too_many(generators, subgroup.len()),
        Question::Extends { source, map, .. } => too_long(map, source.relators().as_slice()),
        Question::InKernel { map, word, .. } => too_long(map, slice::from_ref(word)),
        _ => None,
    }
}

// Whether the conjugates of so many words by so many generators and by their inverses are too many.
fn too_many(generators: u32, words: usize) -> Option<AskFault>
    requires generators { generators ≤ MOST_GENERATORS }
    requires words { words ≤ MOST_SUBGROUP_WORDS }
    ensures { MatchOption result (2 * words * generators ≤ MOST_GOALS)
        (λ fault. (fault ≡ AskFault.TooManyGoals (2 * words * generators)) ×
        (MOST_GOALS < 2 * words * generators)) }
{
    let count = 2 * words as u64 * u64::from(generators);
    if count > MOST_GOALS as u64 {
        Some(AskFault::TooManyGoals { count })
    } else {
        None
    }
}

// The first of the words that has too long an image.
fn too_long(map: &GenMap, words: &[Word]) -> Option<AskFault>
    requires count { length words.now ≤ MOST_GOALS }
    requires images { AllByRecursion (λ image. length image ≤ MOST_WORD_LETTERS) map.now }
    requires words { AllByRecursion (IsGiven (length map.now)) (letters_of words.now) }
    ensures { MatchOption result (AreAllowed (map_of (image_of map.now) (letters_of words.now)))
        (λ fault. IsRefused (map_of (image_of map.now) (letters_of words.now)) fault) }
{
    for place in 0..words.len() {
        let length = image_length(map, &words[place]);
        if length > MOST_GOAL_LETTERS {
            let goal = place as u32;
            return Some(AskFault::GoalTooLong { goal, length });
        }
    }
    None
}
