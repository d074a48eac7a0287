//! Laws of Nielsen reduction. Each stands on a function without a body.
ghost use Rattle.std.specs.Prelude.{◌≡◌, ◌≢◌, ◌↔◌, ℕ, ◌+◌, ◌≤◌, ℤ, List, []};
ghost use Rattle.mg_turn.specs.Turn.{Sound};
ghost use Rattle.mg_turn.specs.declared.outcome.Outcome.{Outcome as OutcomeOf};
ghost use Rattle.mg_turn.specs.declared.outcome.TurnEnd.TheVariants.{More};
ghost use Rattle.mg_present.specs.Ask.{Inquiry, IsAsked};
ghost use Rattle.mg_present.specs.Same.{Lies};
ghost use Rattle.mg_certs.specs.Claim.{Fact};
ghost use Rattle.mg_certs.specs.Validity.{recording};
ghost use Rattle.mg_nielsen.specs.Moves.{Nielsen as NielsenOf, IsKept, words_of, letters_at_start};
ghost use Rattle.mg_nielsen.specs.Turn.{NielsenTurn, first_search, searching};

/// Every turn is one that a run may make.
pub fn turns_are_sound()
    ensures { Sound recording searching }
{}

/// A search that has just been started keeps what searches keep.
pub fn a_first_search_is_kept()
    ensures { (ask : Inquiry) → IsAsked ask → ask.group.relators ≡ [] → IsKept (first_search ask) }
{}

/// Whatever turns a search has made, it keeps what searches keep.
pub fn turns_keep_what_is_kept()
    ensures { (search after : NielsenOf) (units : ℕ) (outcome : OutcomeOf Fact) → IsKept search →
        NielsenTurn search units outcome after → IsKept after }
{}

/// The tuple generates the subgroup that the subgroup words generate.
pub fn the_subgroup_stays()
    ensures { (search : NielsenOf) (w : List ℤ) → IsKept search →
        Lies search.ask.group (words_of search.members) w ↔
        Lies search.ask.group search.ask.subgroup w }
{}

/// A turn whose units, with those spent before, are at least the letters at the start ends the search,
/// unless it was stopped.
pub fn a_turn_of_enough_units_ends_the_search()
    ensures { (search after : NielsenOf) (units : ℕ) (outcome : OutcomeOf Fact) → IsKept search →
        NielsenTurn search units outcome after →
        letters_at_start search.ask ≤ search.spent + units → outcome.end ≢ More }
{}
