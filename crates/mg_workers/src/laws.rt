//! Laws of runs. Each stands on a function without a body, over any records, searches and policies.
ghost use Rattle.std.specs.Prelude.{◌≡◌, ℕ, ◌+◌, ◌*◌, ◌++◌, [], ◌∷◌, ◌<◌, ◌≤◌, true, Option, List, length};
ghost use Rattle.mg_core.specs.declared.entries.Entry.{Entry as EntryOf};
ghost use Rattle.mg_core.specs.Log.{LegalFrom};
ghost use Rattle.mg_double.specs.Third.{Third, third};
ghost use Rattle.mg_workers.specs.Examples.{third_with};
ghost use Rattle.mg_workers.specs.Rows.{EachPair, Keeps, AreFunded, AreApart, AreAsked, units_of, entries_of, total_spent, with_row};
ghost use Rattle.mg_workers.specs.Run.{Row, Running, Begins, Event, Runs, Finished};
ghost use Rattle.mg_workers.specs.declared.held.End.TheVariants.{More, Found};

use mg_core::Record;
use mg_policy::Sizes;
use mg_turn::Searcher;

/// A run behind a run is a run.
pub fn runs_join<R: Record, S: Searcher<R>, P: Sizes>()
    ensures { (workers : ℕ) (policy : P) (begin : List (EntryOf R)) (old mid new : Running R S) →
        Runs R.recording S.searching workers (P.is_size policy) begin old mid →
        Runs R.recording S.searching workers (P.is_size policy) begin mid new →
        Runs R.recording S.searching workers (P.is_size policy) begin old new }
{}

/// A run with an event behind it is a run.
pub fn event_joins<R: Record, S: Searcher<R>, P: Sizes>()
    ensures { (workers : ℕ) (policy : P) (begin : List (EntryOf R)) (old mid new : Running R S) →
        Runs R.recording S.searching workers (P.is_size policy) begin old mid →
        Event R.recording S.searching workers (P.is_size policy) begin mid new →
        Runs R.recording S.searching workers (P.is_size policy) begin old new }
{}

/// A run is one with more workers too.
pub fn workers_may_be_more<R: Record, S: Searcher<R>, P: Sizes>()
    ensures { (workers more : ℕ) (policy : P) (begin : List (EntryOf R))
        (old new : Running R S) → workers ≤ more →
        Runs R.recording S.searching workers (P.is_size policy) begin old new →
        Runs R.recording S.searching more (P.is_size policy) begin old new }
{}

/// A run by a policy is one by each policy that may give the same sizes.
pub fn sizes_may_be_more<R: Record, S: Searcher<R>, P: Sizes, Q: Sizes>()
    ensures { (workers : ℕ) (policy : P) (other : Q) (begin : List (EntryOf R))
        (old new : Running R S) →
        ((turns spent allowed units : ℕ) → P.is_size policy turns spent allowed units →
        Q.is_size other turns spent allowed units) →
        Runs R.recording S.searching workers (P.is_size policy) begin old new →
        Runs R.recording S.searching workers (Q.is_size other) begin old new }
{}

/// The log of a run begins with the one before.
pub fn log_grows<R: Record, S: Searcher<R>, P: Sizes>()
    ensures { (workers : ℕ) (policy : P) (begin : List (EntryOf R)) (old new : Running R S) →
        Runs R.recording S.searching workers (P.is_size policy) begin old new →
        Begins old.log new.log }
{}

/// For each search that holds the units it may spend: what it holds and has spent together stays, and so does what
/// it holds beyond the allowed units. A search that has left stays as it is.
pub fn balances_stay<R: Record, S: Searcher<R>, P: Sizes>()
    ensures { (workers : ℕ) (policy : P) (begin : List (EntryOf R)) (old new : Running R S) →
        AreFunded old.rows →
        Runs R.recording S.searching workers (P.is_size policy) begin old new →
        EachPair (Keeps S.searching) old.rows new.rows }
{}

/// A legal log stays legal.
pub fn log_stays_legal<R: Record, S: Searcher<R>, P: Sizes>()
    ensures { (asks : EntryOf R → Option R.Key)
        (workers : ℕ) (policy : P) (begin : List (EntryOf R)) (old new : Running R S) →
        AreFunded old.rows → AreAsked S.searching asks old.rows →
        Runs R.recording S.searching workers (P.is_size policy) begin old new →
        LegalFrom R.recording.valid R.recording.settles asks [] old.log →
        LegalFrom R.recording.valid R.recording.settles asks [] new.log }
{}

/// The new entries of each search sum to what its spent units rose by, and are at most that many and two more.
pub fn entries_sum_to_spent<R: Record, S: Searcher<R>, P: Sizes>()
    ensures { (workers : ℕ) (policy : P) (begin : List (EntryOf R)) (old new : Running R S) →
        AreApart old.rows →
        Runs R.recording S.searching workers (P.is_size policy) begin old new →
        (more : List (EntryOf R)) × (new.log ≡ old.log ++ more)
        × EachPair (λ row after.
        (units_of row.number more + row.spent ≡ after.spent)
        × (entries_of row.number more + row.spent ≤ after.spent + 2)) old.rows new.rows }
{}

/// All new entries are at most as many as the units spent, and two more for each search.
pub fn entries_are_few<R: Record, S: Searcher<R>, P: Sizes>()
    ensures { (workers : ℕ) (policy : P) (begin : List (EntryOf R)) (old new : Running R S) →
        Runs R.recording S.searching workers (P.is_size policy) begin old new →
        length new.log + total_spent old.rows
        ≤ length old.log + total_spent new.rows + 2 * length old.rows }
{}

/// A search that has left changes nothing of a run that it is put into.
pub fn left_rows_take_no_part<R: Record, S: Searcher<R>, P: Sizes>()
    ensures { (workers place : ℕ) (policy : P) (row : Row S)
        (begin : List (EntryOf R)) (old new : Running R S) →
        row.left ≡ true →
        Runs R.recording S.searching workers (P.is_size policy) begin old new →
        Runs R.recording S.searching workers (P.is_size policy) begin
        (with_row place row old) (with_row place row new)
        × (Finished new → Finished (with_row place row new)) }
{}

/// A search that would find at its third unit spends two units, where it has two, and goes on.
pub fn two_units_do_not_find<R: Record, P: Sizes>()
    ensures { (verdict : R.Key → R) (key : R.Key) (group : R.Group) (workers number : ℕ)
        (policy : P) (begin : List (EntryOf R)) (new : Running R (Third R.Key R.Group)) →
        Runs R.recording (third R.recording verdict) workers (P.is_size policy) begin
        (third_with key group number 2) new → Finished new →
        (after : Row (Third R.Key R.Group)) × (new.rows ≡ after ∷ []) × (after.spent ≡ 2)
        × (after.held ≡ 0) × (after.allowed ≡ 0) × (after.end ≡ More) }
{}

/// Where it has five units it spends three and finds, and two are left.
pub fn five_units_find<R: Record, P: Sizes>()
    ensures { (verdict : R.Key → R) (key : R.Key) (group : R.Group) (workers number : ℕ)
        (policy : P) (begin : List (EntryOf R)) (new : Running R (Third R.Key R.Group)) →
        Runs R.recording (third R.recording verdict) workers (P.is_size policy) begin
        (third_with key group number 5) new → Finished new →
        (after : Row (Third R.Key R.Group)) × (new.rows ≡ after ∷ []) × (after.spent ≡ 3)
        × (after.held ≡ 2) × (after.allowed ≡ 2) × (after.end ≡ Found) }
{}
