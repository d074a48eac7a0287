//! What maps show, and how they are numbered. Each law stands on a function without a body.
ghost use Rattle.std.specs.Prelude.{◌≡◌, ℕ, ℤ, ◌≤◌, List, [], slice_index_or};
ghost use Rattle.mg_numbers.specs.Residues.{ResidueTuple, IsResidueTuple};
ghost use Rattle.mg_present.specs.Presentation.{Group};
ghost use Rattle.mg_present.specs.Ask.{Inquiry};
ghost use Rattle.mg_present.specs.Same.{Same, Lies, Holds};
ghost use Rattle.mg_cyclic.specs.Map.{residue_of_word, IsMap, Refutes};
ghost use Rattle.mg_cyclic.specs.Number.{IsNumbered, RefutedAt};

/// A map of a group takes words that are the same element to the same residue.
pub fn same_words_sum_alike()
    ensures { (group : Group) (map : ResidueTuple) (u v : List ℤ) → IsMap group map →
        Same group u v →
        residue_of_word map u ≡ residue_of_word map v }
{}

/// A goal that a map refutes doesn't lie in the subgroup, so the Ask doesn't hold.
pub fn refuted_goals_do_not_lie()
    ensures goal { (ask : Inquiry) (goal : ℕ) (map : ResidueTuple) → Refutes ask goal map →
        Lies ask.group ask.subgroup (slice_index_or ask.goals goal []) → ⊥ }
    ensures ask { (ask : Inquiry) (goal : ℕ) (map : ResidueTuple) → Refutes ask goal map →
        Holds ask → ⊥ }
    ensures number { (ask : Inquiry) (n : ℕ) → RefutedAt ask n → Holds ask → ⊥ }
{}

/// Maps of so many generators and numbers from 1 correspond one to one, so that an Ask that a map refutes is
/// refuted at a number.
pub fn maps_and_numbers_correspond()
    ensures one_map { (m n : ℕ) (s t : ResidueTuple) → IsNumbered m s n → IsNumbered m t n → s ≡ t }
    ensures one_number { (m n k : ℕ) (t : ResidueTuple) → IsNumbered m t n → IsNumbered m t k →
        n ≡ k }
    ensures each_map { (m : ℕ) (t : ResidueTuple) → IsResidueTuple m t →
        (n : ℕ) × (1 ≤ n) × IsNumbered m t n }
    ensures each_number { (m n : ℕ) → 1 ≤ n → (t : ResidueTuple) × IsNumbered m t n }
    ensures each_refuted { (ask : Inquiry) (goal : ℕ) (map : ResidueTuple) → Refutes ask goal map →
        (n : ℕ) × (1 ≤ n) × RefutedAt ask n }
{}
