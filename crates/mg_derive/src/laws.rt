//! What an accepted derivation shows, and which Asks have one. The laws stand on functions without a body.
ghost use Rattle.std.specs.Prelude.{◌≡◌, ℕ, ◌↔◌, [], List};
ghost use Rattle.std.specs.List.{AllByRecursion};
ghost use Rattle.mg_numbers.specs.Plain.{First};
ghost use Rattle.mg_present.specs.Ask.{Inquiry, IsAsked};
ghost use Rattle.mg_present.specs.Same.{Same, Holds};
ghost use Rattle.mg_derive.specs.declared.symbol.Symbol.{Symbol as SymbolOf};
ghost use Rattle.mg_derive.specs.Acceptance.{IsAccepted, IsOverGenerators, AcceptedAt};

/// Where a text is accepted for an Ask, each goal lies in the subgroup. Without subgroup words each goal
/// is the same as the empty word: a chain of insertions and deletions of relators, of their inverses and
/// of pairs of inverse letters leads from one to the other.
pub fn accepted_derivations_hold()
    ensures lies { (ask : Inquiry) (text : List SymbolOf) → IsAccepted ask text → Holds ask }
    ensures vanish { (ask : Inquiry) (text : List SymbolOf) → ask.subgroup ≡ [] →
        IsAccepted ask text →
        AllByRecursion (λ goal. Same ask.group goal []) ask.goals }
{}

/// Where each goal lies in the subgroup, some text is accepted: no Ask is true and beyond derivations. So an
/// Ask holds exactly where some number is that of an accepted text, and then there is a first such number.
/// The relators and the subgroup words are to be over the generators of the group. Nothing is said of how
/// large the number is.
pub fn true_questions_have_derivations()
    ensures text { (ask : Inquiry) → IsOverGenerators ask → Holds ask →
        (text : List SymbolOf) × IsAccepted ask text }
    ensures exactly { (ask : Inquiry) → IsOverGenerators ask →
        Holds ask ↔ ((n : ℕ) × AcceptedAt ask n) }
    ensures first { (ask : Inquiry) → IsAsked ask → Holds ask → (n : ℕ) × First (AcceptedAt ask) n }
{}
