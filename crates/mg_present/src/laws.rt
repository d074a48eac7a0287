//! Laws of presentations, of sameness, of subgroups and of Asks. Each stands on a function without a body.
ghost use Rattle.std.specs.Prelude.{◌≡◌, ◌↔◌, ℤ, List, [], ◌++◌, Contains};
ghost use Rattle.std.specs.declared.cmp.Ordering.TheVariants.{Equal};
ghost use Rattle.mg_words.specs.Word.{IsOver, inv};
ghost use Rattle.mg_words.specs.Chain.{FreelyEqual};
ghost use Rattle.mg_present.specs.Presentation.{Group};
ghost use Rattle.mg_present.specs.Ask.{Inquiry};
ghost use Rattle.mg_present.specs.Same.{Same, Lies};

use crate::ask::{Ask, MOST_GOALS, MOST_SUBGROUP_WORDS};
use crate::gen_map::MOST_MAPPED_LETTERS;
use crate::presentation::{MOST_GENERATORS, MOST_RELATOR_LETTERS, MOST_RELATORS, Presentation};

/// Presentations compare equal exactly where they are the same value, and so do Asks.
pub fn equal_asks_are_one()
    ensures presentations { (a b : Group) → (⟦<Presentation as Ord>⟧.cmp a b ≡ Equal) ↔ (a ≡ b) }
    ensures asks { (a b : Inquiry) → (⟦<Ask as Ord>⟧.cmp a b ≡ Equal) ↔ (a ≡ b) }
{}

/// Being the same element of a group is an equivalence of words.
pub fn sameness_is_an_equivalence()
    ensures reflexive { (group : Group) (u : List ℤ) → Same group u u }
    ensures symmetric { (group : Group) (u v : List ℤ) → Same group u v → Same group v u }
    ensures transitive { (group : Group) (u v w : List ℤ) → Same group u v → Same group v w →
        Same group u w }
{}

/// Products on either side and inverses keep sameness.
pub fn sameness_is_kept()
    ensures left { (group : Group) (w u v : List ℤ) → Same group u v →
        Same group (w ++ u) (w ++ v) }
    ensures right { (group : Group) (w u v : List ℤ) → Same group u v →
        Same group (u ++ w) (v ++ w) }
    ensures inverses { (group : Group) (u v : List ℤ) → Same group u v →
        Same group (inv u) (inv v) }
{}

/// Freely equal words are the same in every group, as are a relator and the empty word; a word and its
/// inverse cancel; and u is the same as v exactly where `u v^-1` is the same as the empty word.
pub fn words_are_the_same()
    ensures freely { (group : Group) (u v : List ℤ) → FreelyEqual group.generators u v →
        Same group u v }
    ensures relator { (group : Group) (relator : List ℤ) → Contains group.relators relator →
        Same group relator [] }
    ensures inverse { (group : Group) (w : List ℤ) → IsOver group.generators w →
        Same group (w ++ inv w) [] }
    ensures quotient { (group : Group) (u v : List ℤ) → IsOver group.generators v →
        Same group u v ↔ Same group (u ++ inv v) [] }
{}

/// What lies in a subgroup: the empty word, each member, products, inverses, and what is the same as
/// something that lies. Without members that is what is the same as the empty word, and nothing else.
pub fn subgroups_are_closed()
    ensures empty { (group : Group) (members : List (List ℤ)) → Lies group members [] }
    ensures member { (group : Group) (members : List (List ℤ)) (w : List ℤ) → Contains members w →
        Lies group members w }
    ensures product { (group : Group) (members : List (List ℤ)) (u v : List ℤ) →
        Lies group members u → Lies group members v → Lies group members (u ++ v) }
    ensures inverse { (group : Group) (members : List (List ℤ)) (u : List ℤ) →
        Lies group members u → Lies group members (inv u) }
    ensures same { (group : Group) (members : List (List ℤ)) (u v : List ℤ) →
        Lies group members u → Same group u v → Lies group members v }
    ensures no_members { (group : Group) (w : List ℤ) → Lies group [] w ↔ Same group w [] }
{}

/// The limits of presentations, maps and Asks by their values.
pub fn the_limits()
    ensures generators { MOST_GENERATORS ≡ 64 }
    ensures relators { MOST_RELATORS ≡ 256 }
    ensures relator_letters { MOST_RELATOR_LETTERS ≡ 10000 }
    ensures mapped_letters { MOST_MAPPED_LETTERS ≡ 10000 }
    ensures subgroup_words { MOST_SUBGROUP_WORDS ≡ 64 }
    ensures goals { MOST_GOALS ≡ 4096 }
{}
