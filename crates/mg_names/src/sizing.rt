//! The Asks of questions, which must not be too large.

ghost use Rattle.std.specs.Prelude.{◌≡◌, ◌+◌, ◌<◌, ◌≤◌, IfOk, MatchOption};
ghost use Rattle.mg_present.specs.Presentation.{IsPresented};
ghost use Rattle.mg_questions.specs.Asking.{IsFit};
ghost use Rattle.mg_questions.specs.Content.{content_of};
ghost use Rattle.mg_questions.specs.Goals.{group_of};
ghost use Rattle.mg_words.specs.Word.{letters_of};
ghost use Rattle.mg_names.specs.Meaning.{Asking, letters_in, ask_letters as letters_of_ask};
ghost use Rattle.mg_names.specs.Named.{Named};
ghost use Rattle.mg_names.specs.Scope.{Scope};
ghost use Rattle.mg_names.specs.Sized.{IsSizing};
ghost use Rattle.mg_names.specs.declared.limits.TheConstants.{ASK_LETTER_LIMIT};

use crate::limits::ASK_LETTER_LIMIT;
use mg_lex::Cause;
use mg_present::Ask;
use mg_questions::{AskFault, Question, ask_of};
use mg_words::{NoMemory, Word};
use std::alloc::{AllocError, Global};

/// An Ask, and how many letters it has.
#[derive(Drop)]
pub(crate) struct CountedAsk {
    pub(crate) ask: Ask,
    pub(crate) letters: u64,
}

/// The Ask of a question, or why it is too large.
#[derive(Drop)]
pub(crate) enum Sizing {
    Fits(CountedAsk),
    TooLarge(Cause),
}

/// How many letters there is still room for behind these words.
fn room_after(words: &[Word], room: u64) -> Option<u64>
    ensures { MatchOption result (room < letters_in (letters_of words.now))
        (λ left. left + letters_in (letters_of words.now) ≡ room) }
{
    let mut left = room;
    for word in words {
        let letters = word.letters().len() as u64;
        if letters > left {
            return None;
        }
        left -= letters;
    }
    Some(left)
}

/// How many letters there is still room for behind the Ask.
fn room_after_ask(ask: &Ask, room: u64) -> Option<u64>
    ensures { MatchOption result (room < letters_of_ask ask.now)
        (λ left. left + letters_of_ask ask.now ≡ room) }
{
    let room = room_after(ask.group().relators().as_slice(), room)?;
    let room = room_after(ask.subgroup().as_slice(), room)?;
    room_after(ask.goals().as_slice(), room)
}

/// The Ask of a question, where those of other questions have so many letters.
pub(crate) fn sized_ask(
    alloc: Global,
    question: &Question,
    letters: u64,
) -> Result<Sizing, NoMemory>
    requires fit { IsFit question.now }
    requires presented { IsPresented (group_of question.now) }
    requires letters { letters ≤ ASK_LETTER_LIMIT }
    ensures { (scope : Scope) (n : Named) (a : Asking) → scope.letters ≡ letters →
        content_of question.now ≡ content_of a.question →
        IfOk result (λ sizing. IsSizing scope n a sizing) }
{
    let ask = match ask_of(alloc, question) {
        Ok(ask) => ask,
        Err(AskFault::TooManyGoals { .. }) => return Ok(Sizing::TooLarge(Cause::TooMany)),
        Err(AskFault::GoalTooLong { .. }) => return Ok(Sizing::TooLarge(Cause::WordTooLong)),
        Err(AskFault::NoMemory) => return Err(AllocError),
    };
    let room = ASK_LETTER_LIMIT - letters;
    match room_after_ask(&ask, room) {
        Some(left) => Ok(Sizing::Fits(CountedAsk {
            ask,
            letters: room - left,
        })),
        None => Ok(Sizing::TooLarge(Cause::TooMany)),
    }
}
