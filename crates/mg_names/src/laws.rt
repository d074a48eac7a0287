//! What scripts mean, and what plans ask. Each law stands on a function without a body.
ghost use Rattle.std.specs.Prelude.{◌≡◌, ◌⊎◌, ◌↔◌, ◌<◌, ◌-◌, ◌^◌, ℕ, List, length, slice_get, Some};
ghost use Rattle.mg_lex.specs.declared.refusal.Refused.{Refused};
ghost use Rattle.mg_present.specs.Ask.{Inquiry};
ghost use Rattle.mg_present.specs.Same.{Holds};
ghost use Rattle.mg_questions.specs.declared.question.Question.{Question};
ghost use Rattle.mg_questions.specs.Asking.{IsAskOf, IsFit};
ghost use Rattle.mg_questions.specs.Meaning.{Meaning};
ghost use Rattle.mg_script.specs.declared.script.ScriptLine.{ScriptLine};
ghost use Rattle.mg_script.specs.Script.{IsScript};
ghost use Rattle.mg_names.specs.IsPlan.{IsPlan};
ghost use Rattle.mg_names.specs.Plan.{Plan, AskOf};
ghost use Rattle.mg_names.specs.Resolve.{IsPlanOf, IsRefused, Means};
ghost use Rattle.mg_names.specs.Scope.{Scope};

use crate::limits::{ASK_LETTER_LIMIT, COSET_LIMIT, REWRITE_LIMIT};
use crate::plan::{MOST_SEARCHES, MOST_STEPS};

/// A question of a plan asks one thing.
pub fn a_question_asks_once()
    ensures { (plan : Plan) (question : ℕ) (one other : Inquiry) → AskOf plan question one →
        AskOf plan question other → one ≡ other }
{}

/// A script has a plan or is refused, never both. It has one plan only, and is refused at one place for one
/// cause.
pub fn every_script_has_a_plan_or_a_cause()
    ensures some { (bytes : List ℕ) (script : List ScriptLine) → IsScript bytes script →
        ((plan : Plan) × IsPlanOf script plan) ⊎ ((r : Refused) × IsRefused script r) }
    ensures never_both { (script : List ScriptLine) (plan : Plan) (r : Refused) →
        IsPlanOf script plan → IsRefused script r → ⊥ }
    ensures one_plan { (script : List ScriptLine) (plan other : Plan) → IsPlanOf script plan →
        IsPlanOf script other → plan ≡ other }
    ensures one_cause { (script : List ScriptLine) (r other : Refused) → IsRefused script r →
        IsRefused script other → r ≡ other }
{}

/// Each question of a plan asks the Ask of the question that the script states there, and that question means
/// what its Ask asks.
pub fn a_plan_asks_its_questions()
    ensures asks { (bytes : List ℕ) (script : List ScriptLine) (scope : Scope) (place : ℕ)
        (question : Question) → IsScript bytes script → Means script scope →
        slice_get scope.questions place ≡ Some question →
        (ask : Inquiry) × AskOf scope.plan place ask × IsAskOf question ask × IsFit question }
    ensures means { (bytes : List ℕ) (script : List ScriptLine) (scope : Scope) (place : ℕ)
        (question : Question) (ask : Inquiry) → IsScript bytes script →
        Means script scope → slice_get scope.questions place ≡ Some question →
        AskOf scope.plan place ask → Meaning question ↔ Holds ask }
{}

/// The plan of a script is one that a session can count on.
pub fn plans_are_within_bounds()
    ensures { (bytes : List ℕ) (script : List ScriptLine) (plan : Plan) →
        length bytes < 2 ^ 32 - 1 → IsScript bytes script → IsPlanOf script plan → IsPlan plan }
{}

/// The limits of plans by their values.
pub fn the_limits()
    ensures ask_letters { ASK_LETTER_LIMIT ≡ 8000000 }
    ensures searches { MOST_SEARCHES ≡ 2048 }
    ensures by_rewriting { REWRITE_LIMIT ≡ 64 }
    ensures by_cosets { COSET_LIMIT ≡ 64 }
    ensures steps { MOST_STEPS ≡ 2 ^ 32 - 2 }
{}
