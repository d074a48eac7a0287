//! Laws of completion. Each stands on a function without a body.
ghost use Rattle.std.specs.Prelude.{◌≡◌, ◌≤◌, ℕ, [], true};
ghost use Rattle.mg_turn.specs.Turn.{Sound};
ghost use Rattle.mg_turn.specs.declared.outcome.Outcome.{Outcome as OutcomeOf};
ghost use Rattle.mg_present.specs.Ask.{Inquiry, IsAsked};
ghost use Rattle.mg_certs.specs.Claim.{Fact};
ghost use Rattle.mg_certs.specs.Validity.{recording};
ghost use Rattle.mg_complete.specs.Completion.{Completion as Search, AllDone, IsKept, first_search};
ghost use Rattle.mg_complete.specs.Turn.{CompletionTurn, Ends, searching};

use mg_rules::{each_word_has_one_first_descendant, normal_descendants_are_equal};

/// Every turn is one that a run may make.
pub fn completion_turns_are_sound()
    ensures { Sound recording searching }
{}

/// A search that has just been started keeps what searches keep.
pub fn a_first_search_is_kept()
    ensures { (ask : Inquiry) → IsAsked ask → ask.subgroup ≡ [] → IsKept (first_search ask) }
{}

/// Whatever turns a search has made, it keeps what searches keep.
pub fn turns_keep_what_is_kept()
    ensures { (search after : Search) (units : ℕ) (outcome : OutcomeOf Fact) → IsKept search →
        CompletionTurn search units outcome after → IsKept after }
{}

/// A search of which a turn has ended More, and of which each overlap and inclusion is done, ends
/// Found or Full in its next turn, unless that is stopped.
pub fn a_search_with_all_done_ends()
    ensures { (search after : Search) (units : ℕ) (outcome : OutcomeOf Fact) → IsKept search →
        search.begun ≡ true → AllDone search.rules search.last → 1 ≤ units →
        CompletionTurn search units outcome after → Ends outcome.end }
{
    normal_descendants_are_equal();
    each_word_has_one_first_descendant();
}
