//! Laws of searches that read models. Each stands on a function without a body.
ghost use Rattle.std.specs.Prelude.{◌≡◌, ◌+◌, ◌≤◌, length};
ghost use Rattle.mg_core.specs.declared.entries.Facts.{Facts as FactsOf};
ghost use Rattle.mg_turn.specs.declared.outcome.Outcome.{Outcome as OutcomeOf};
ghost use Rattle.mg_turn.specs.Turn.{Sound};
ghost use Rattle.mg_certs.specs.Claim.{Fact};
ghost use Rattle.mg_certs.specs.Validity.{recording};
ghost use Rattle.mg_recall.specs.Recall.{Recall, RecallTurn, searching};

/// Every turn of such a search is one that a run may make.
pub fn recall_turns_are_sound()
    ensures { Sound recording searching }
{}

/// A turn reads as many models as it spends units, and only models that it was handed.
pub fn turns_read_what_they_spend()
    ensures read { (search after : Recall) (facts : FactsOf Fact) (outcome : OutcomeOf Fact) →
        RecallTurn search facts outcome after → after.read ≡ search.read + outcome.spent }
    ensures handed { (search after : Recall) (facts : FactsOf Fact) (outcome : OutcomeOf Fact) →
        RecallTurn search facts outcome after → outcome.spent ≤ length facts.records }
{}
