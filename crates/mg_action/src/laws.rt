//! What actions show, and how they are numbered. Each law stands on a function without a body.
ghost use Rattle.std.specs.Prelude.{◌≡◌, ℕ, ℤ, ◌≤◌, List, [], slice_index_or};
ghost use Rattle.mg_numbers.specs.Perms.{PermTuple, IsPermTuple};
ghost use Rattle.mg_present.specs.Presentation.{Group};
ghost use Rattle.mg_present.specs.Ask.{Inquiry};
ghost use Rattle.mg_present.specs.Same.{Same, Lies, Holds};
ghost use Rattle.mg_action.specs.Action.{perm_of_word, IsAction, Refutes};
ghost use Rattle.mg_action.specs.Number.{IsNumbered, RefutedAt};

/// An action of a group takes words that are the same element to the same permutation.
pub fn same_words_act_alike()
    ensures { (group : Group) (action : PermTuple) (u v : List ℤ) → IsAction group action →
        Same group u v →
        perm_of_word action u ≡ perm_of_word action v }
{}

/// A goal that an action refutes doesn't lie in the subgroup, so the Ask doesn't hold.
pub fn refuted_goals_do_not_lie()
    ensures goal { (ask : Inquiry) (goal : ℕ) (action : PermTuple) → Refutes ask goal action →
        Lies ask.group ask.subgroup (slice_index_or ask.goals goal []) → ⊥ }
    ensures ask { (ask : Inquiry) (goal : ℕ) (action : PermTuple) → Refutes ask goal action →
        Holds ask → ⊥ }
    ensures number { (ask : Inquiry) (n : ℕ) → RefutedAt ask n → Holds ask → ⊥ }
{}

/// Actions of so many generators and numbers from 1 correspond one to one, so that an Ask that an action refutes
/// is refuted at a number.
pub fn actions_and_numbers_correspond()
    ensures one_action { (m n : ℕ) (s t : PermTuple) → IsNumbered m s n → IsNumbered m t n → s ≡ t }
    ensures one_number { (m n k : ℕ) (t : PermTuple) → IsNumbered m t n → IsNumbered m t k → n ≡ k }
    ensures each_action { (m : ℕ) (t : PermTuple) → IsPermTuple m t →
        (n : ℕ) × (1 ≤ n) × IsNumbered m t n }
    ensures each_number { (m n : ℕ) → 1 ≤ n → (t : PermTuple) × IsNumbered m t n }
    ensures each_refuted { (ask : Inquiry) (goal : ℕ) (action : PermTuple) →
        Refutes ask goal action →
        (n : ℕ) × (1 ≤ n) × RefutedAt ask n }
{}
