//! Laws of searches. Each stands on a function without a body.
ghost use Rattle.std.specs.Prelude.{◌≡◌, ℕ, ◌≤◌};
ghost use Rattle.mg_core.specs.declared.entries.Facts.{Facts as FactsOf};
ghost use Rattle.mg_turn.specs.declared.outcome.Outcome.{Outcome as OutcomeOf};
ghost use Rattle.mg_turn.specs.Turn.{Sound};
ghost use Rattle.mg_words.specs.declared.procedure.Procedure.{Procedure as ProcedureOf};
ghost use Rattle.mg_present.specs.Ask.{Inquiry, IsAsked};
ghost use Rattle.mg_present.specs.Applies.{Applies};
ghost use Rattle.mg_certs.specs.Claim.{Fact};
ghost use Rattle.mg_certs.specs.Validity.{recording};
ghost use Rattle.mg_search.specs.Search.{Search, IsKind, IsAlike, models_wanted, Reads, SearchTurn, Opens, recalling, searching};

/// Every turn of every search is one that a run may make.
pub fn all_turns_are_sound()
    ensures { Sound recording searching }
{}

/// A search is started only where its procedure may be used.
pub fn a_search_opens_where_it_applies()
    ensures { (procedure : ProcedureOf) (ask : Inquiry) (search : Search) →
        Opens procedure ask search → Applies procedure ask }
{}

/// Where a procedure may be used, some search is started.
pub fn some_search_opens_where_it_applies()
    ensures { (procedure : ProcedureOf) (ask : Inquiry) → IsAsked ask → Applies procedure ask →
        (search : Search) × Opens procedure ask search }
{}

/// A turn leads to a search of the same kind.
pub fn turns_keep_the_kind()
    ensures { (search after : Search) (units : ℕ) (facts : FactsOf Fact)
        (outcome : OutcomeOf Fact) → SearchTurn search units facts outcome after →
        IsAlike search after }
{}

/// Recall alone reads models, and a search that reads none wants none.
pub fn recall_alone_reads()
    ensures recall { (search : Search) → Reads search → IsKind recalling search }
    ensures others { (search : Search) (units : ℕ) → (Reads search → ⊥) →
        models_wanted search units ≡ 0 }
{}
