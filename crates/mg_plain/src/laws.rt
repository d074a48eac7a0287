//! Laws of plain searches. Each stands on a function without a body.
ghost use Rattle.std.specs.Prelude.{◌≡◌, ℕ, ◌≤◌, true};
ghost use Rattle.mg_turn.specs.Turn.{Sound};
ghost use Rattle.mg_turn.specs.declared.outcome.Outcome.{Outcome as OutcomeOf};
ghost use Rattle.mg_words.specs.declared.procedure.Procedure.{Procedure as ProcedureOf};
ghost use Rattle.mg_present.specs.Ask.{Inquiry};
ghost use Rattle.mg_certs.specs.Claim.{Fact};
ghost use Rattle.mg_certs.specs.Validity.{recording};
ghost use Rattle.mg_plain.specs.Plain.{Plain, PlainTurn, IsStarted, IsSearched, searching};

/// Every turn of a plain search is one that a run may make.
pub fn plain_turns_are_sound()
    ensures { Sound recording searching }
{}

/// A search that has just been started has tested nothing.
pub fn a_first_search_has_tested_nothing()
    ensures { (procedure : ProcedureOf) (ask : Inquiry) (search : Plain) →
        IsStarted procedure ask search → IsSearched search }
{}

/// While a search goes on, no number up to its cursor is accepted, whatever turns it has made.
pub fn turns_keep_what_is_searched()
    ensures { (search after : Plain) (units : ℕ) (outcome : OutcomeOf Fact) →
        search.is_open ≡ true →
        PlainTurn search units outcome after → IsSearched search → IsSearched after }
{}
