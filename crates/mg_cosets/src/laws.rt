//! Laws of searches through cosets. Each stands on a function without a body.
ghost use Rattle.std.specs.Prelude.{◌≡◌, ℕ, true};
ghost use Rattle.mg_turn.specs.Turn.{Sound};
ghost use Rattle.mg_turn.specs.declared.outcome.Outcome.{Outcome as OutcomeOf};
ghost use Rattle.mg_present.specs.Ask.{Inquiry};
ghost use Rattle.mg_certs.specs.Claim.{Fact};
ghost use Rattle.mg_certs.specs.Validity.{recording};
ghost use Rattle.mg_cosets.specs.Cosets.{Cosets, CosetsTurn, IsStarted, IsKept, searching};

/// Every turn of a search through cosets is one that a run may make.
pub fn coset_turns_are_sound()
    ensures { Sound recording searching }
{}

/// The table of a search that has just been started is enumerated, with no units.
pub fn a_first_table_is_enumerated()
    ensures { (ask : Inquiry) (search : Cosets) → IsStarted ask search → IsKept search }
{}

/// The table stays enumerated with all units spent, whatever turns a search makes.
pub fn turns_keep_what_a_search_keeps()
    ensures { (search after : Cosets) (units : ℕ) (outcome : OutcomeOf Fact) →
        CosetsTurn search units outcome after → IsKept search → IsKept after }
{}
