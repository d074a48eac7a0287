//! Laws of logs. Each stands on a function without a body.
ghost use Rattle.std.specs.Prelude.{◌≡◌, ◌↔◌, false, [], ◌++◌, List, Option, Some, IfSome};
ghost use Rattle.std.specs.List.{AllByRecursion};
ghost use Rattle.mg_core.specs.declared.entries.Entry.{Entry as EntryOf};
ghost use Rattle.mg_core.specs.declared.entries.Committed.{Committed as CommittedTo};
ghost use Rattle.mg_core.specs.Book.{Commits, entry_put};
ghost use Rattle.mg_core.specs.Log.{facts_of, LegalFrom};

use crate::record::Record;

/// The facts of a log are those of its parts, in order.
pub fn facts_of_appended<R>()
    ensures { (log more : List (EntryOf R)) →
        facts_of (log ++ more) ≡ facts_of log ++ facts_of more }
{}

/// A log with more behind it is legal where both are, the second one behind the first.
pub fn legal_appended<R: Record>()
    ensures { (asks : EntryOf R → Option R.Key) (before log more : List (EntryOf R)) →
        LegalFrom R.recording.valid R.recording.settles asks before (log ++ more)
        ↔ (LegalFrom R.recording.valid R.recording.settles asks before log ×
        LegalFrom R.recording.valid R.recording.settles asks (before ++ log) more) }
{}

/// A commit keeps a log legal, where the entry that it leaves there is of a search for the key, and where the records
/// of the entry that it was given are valid and settle no other key.
pub fn commits_keep_a_log_legal<R: Record>()
    ensures { (asks : EntryOf R → Option R.Key) (key : R.Key) (old new : List (EntryOf R))
        (entry : EntryOf R) (committed : CommittedTo) →
        entry.dropped ≡ false → asks (entry_put entry committed) ≡ Some key →
        AllByRecursion R.recording.valid entry.records →
        AllByRecursion (λ r. IfSome (R.recording.settles r) (λ k. k ≡ key)) entry.records →
        Commits R.recording.settles key old entry new committed →
        LegalFrom R.recording.valid R.recording.settles asks [] old →
        LegalFrom R.recording.valid R.recording.settles asks [] new }
{}
