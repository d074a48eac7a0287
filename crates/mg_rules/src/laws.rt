//! What rewriting systems show. Each law stands on a function without a body, and speaks of all
//! words, also with letters that are none of a group's.
ghost use Rattle.std.specs.Prelude.{◌≡◌, ◌↔◌, ℕ, ℤ, List, [], ◌++◌, slice_index_or};
ghost use Rattle.std.specs.List.{AllByRecursion};
ghost use Rattle.mg_present.specs.Presentation.{Group};
ghost use Rattle.mg_present.specs.Ask.{Inquiry};
ghost use Rattle.mg_present.specs.Same.{Same, Lies, Holds};
ghost use Rattle.mg_rules.specs.Rule.{Rule, Descends, HaveCommon, IsNormal};
ghost use Rattle.mg_rules.specs.Shortlex.{AllDecrease};
ghost use Rattle.mg_rules.specs.First.{IsFirstDescendant};
ghost use Rattle.mg_rules.specs.declared.meeting.Meeting.{Meeting};
ghost use Rattle.mg_rules.specs.Meeting.{AllJoin};
ghost use Rattle.mg_rules.specs.Listing.{Lists};
ghost use Rattle.mg_rules.specs.Complete.{IsComplete, Refutes};

/// In a system that decreases each word has one first descendant, which is normal and a descendant.
pub fn each_word_has_one_first_descendant()
    ensures some { (rules : List Rule) (u : List ℤ) → AllDecrease rules →
        (v : List ℤ) × IsFirstDescendant rules u v }
    ensures one { (rules : List Rule) (u v w : List ℤ) →
        IsFirstDescendant rules u v → IsFirstDescendant rules u w → v ≡ w }
    ensures normal { (rules : List Rule) (u v : List ℤ) →
        IsFirstDescendant rules u v → IsNormal rules v }
    ensures descends { (rules : List Rule) (u v : List ℤ) →
        IsFirstDescendant rules u v → Descends rules u v }
{}

/// Newman's lemma: in a system that decreases, where the results of all overlaps and inclusions
/// have common descendants, two normal descendants of a word are equal.
pub fn normal_descendants_are_equal()
    ensures { (rules : List Rule) (w u v : List ℤ) → AllDecrease rules → AllJoin rules →
        Descends rules w u → Descends rules w v → IsNormal rules u → IsNormal rules v → u ≡ v }
{}

/// In a system that is complete for a group, words that are the same there have equal normal
/// descendants. Where besides the two sides of each rule are the same in the group, words with
/// equal normal descendants are the same.
pub fn complete_systems_decide()
    ensures same { (group : Group) (rules : List Rule) (u v u' v' : List ℤ) →
        IsComplete group rules → Same group u v →
        Descends rules u u' → Descends rules v v' →
        IsNormal rules u' → IsNormal rules v' → u' ≡ v' }
    ensures exactly { (group : Group) (rules : List Rule) (u v u' v' : List ℤ) →
        IsComplete group rules →
        AllByRecursion (λ rule. Same group rule.left rule.right) rules →
        Descends rules u u' → Descends rules v v' →
        IsNormal rules u' → IsNormal rules v' → (Same group u v ↔ (u' ≡ v')) }
{}

/// A goal that a system refutes doesn't lie in the subgroup, so the Ask doesn't hold.
pub fn refuted_goals_do_not_lie()
    ensures goal { (ask : Inquiry) (goal : ℕ) (rules : List Rule) → Refutes ask goal rules →
        Lies ask.group ask.subgroup (slice_index_or ask.goals goal []) → ⊥ }
    ensures ask { (ask : Inquiry) (goal : ℕ) (rules : List Rule) → Refutes ask goal rules →
        Holds ask → ⊥ }
{}

/// Where rules are added descendants stay descendants, and common descendants stay. The list of
/// overlaps and inclusions begins with that of the rules before.
pub fn added_rules_keep_descendants()
    ensures descendants { (rules more : List Rule) (u v : List ℤ) →
        Descends rules u v → Descends (rules ++ more) u v }
    ensures common { (rules more : List Rule) (u v : List ℤ) →
        HaveCommon rules u v → HaveCommon (rules ++ more) u v }
    ensures overlaps { (rules more : List Rule) (list longer : List Meeting) →
        Lists rules list → Lists (rules ++ more) longer →
        (behind : List Meeting) × (longer ≡ list ++ behind) }
{}
