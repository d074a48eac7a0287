//! What questions mean and what their Asks ask, and that equal questions are one. Each law stands on a
//! function without a body.
ghost use Rattle.std.specs.Prelude.{◌≡◌, ◌↔◌};
ghost use Rattle.std.specs.declared.cmp.Ordering.TheVariants.{Equal};
ghost use Rattle.mg_present.specs.Ask.{Inquiry};
ghost use Rattle.mg_present.specs.Same.{Holds};
ghost use Rattle.mg_questions.specs.declared.question.Question.{Question as QuestionOf};
ghost use Rattle.mg_questions.specs.Meaning.{Meaning};
ghost use Rattle.mg_questions.specs.Asking.{IsAskOf, IsFit};
ghost use Rattle.mg_questions.specs.Content.{content_of};

use crate::question::{MOST_GOAL_LETTERS, MOST_WORD_LETTERS, Question};

/// A question means exactly what its Ask asks: it holds, over all words, exactly where each goal of
/// the Ask lies in the subgroup.
pub fn asks_keep_the_meaning()
    ensures { (question : QuestionOf) (ask : Inquiry) → IsFit question → IsAskOf question ask →
        Meaning question ↔ Holds ask }
{}

/// Questions compare equal exactly where they have the same content: the same kind, groups, maps and
/// letters of words. The spare room of words doesn't count.
pub fn equal_questions_are_one()
    ensures { (a b : QuestionOf) →
        (⟦<Question as Ord>⟧.cmp a b ≡ Equal) ↔ (content_of a ≡ content_of b) }
{}

/// The limits of questions by their values.
pub fn the_limits()
    ensures word_letters { MOST_WORD_LETTERS ≡ 10000 }
    ensures goal_letters { MOST_GOAL_LETTERS ≡ 40000 }
{}
