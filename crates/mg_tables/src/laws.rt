//! Laws of coset tables. Each stands on a function without a body.
ghost use Rattle.std.specs.Prelude.{◌≡◌, ℕ, ◌<◌, ℤ, List, length, Some, slice_get};
ghost use Rattle.mg_words.specs.Letter.{IsLetterOf};
ghost use Rattle.mg_present.specs.Presentation.{Group, IsPresented};
ghost use Rattle.mg_words.specs.Word.{IsOver};
ghost use Rattle.mg_tables.specs.Table.{Table, entry, row_after, IsTable, IsComplete};
ghost use Rattle.mg_tables.specs.Force.{IsStable};
ghost use Rattle.mg_tables.specs.Joining.{Joins};

/// Joining the same two rows of a table has one result.
pub fn joining_has_one_result()
    ensures { (generators : ℕ) (table : Table) (p q : ℕ) (a b : Table) →
        Joins generators table p q a → Joins generators table p q b → a ≡ b }
{}

/// In a stable table without an empty entry every letter permutes the rows, every relator leads each row to
/// itself, and every subgroup word row 0 to itself.
pub fn complete_tables_act()
    ensures there { (group : Group) (table : Table) → IsComplete group.generators table →
        (c : ℕ) (x : ℤ) →
        c < length table → IsLetterOf group.generators x → (d : ℕ) × (entry table c x ≡ Some d) }
    ensures apart { (group : Group) (table : Table) → IsTable group.generators table →
        (c d e : ℕ) (x : ℤ) →
        IsLetterOf group.generators x → entry table c x ≡ Some e → entry table d x ≡ Some e →
        c ≡ d }
    ensures relators { (group : Group) (subgroup : List (List ℤ)) (table : Table) →
        IsPresented group →
        IsTable group.generators table → IsStable group subgroup table →
        IsComplete group.generators table →
        (k c : ℕ) (w : List ℤ) → slice_get group.relators k ≡ Some w → c < length table →
        row_after table c w ≡ Some c }
    ensures members { (group : Group) (subgroup : List (List ℤ)) (table : Table) →
        IsTable group.generators table → IsStable group subgroup table →
        IsComplete group.generators table →
        (k : ℕ) (w : List ℤ) → IsOver group.generators w → slice_get subgroup k ≡ Some w →
        0 < length table →
        row_after table 0 w ≡ Some 0 }
{}
