//! What a log keeps.
ghost use Rattle.std.specs.Prelude.{◌≡◌, Option, Some, IsTrue, ◌↔◌, IfOk};
ghost use Rattle.std.specs.Option.{option_copied};
ghost use Rattle.mg_core.specs.Recording.{Recording, Lawful};

use mg_lists::NoMemory;
use std::alloc::Global;
use std::cmp::Ordering;

/// A record of a log. It settles a key, or is a model of a group, and never both.
pub trait Record: Sized + Drop {
    /// What a record may settle. Keys that compare equal are the same value.
    type Key: Ord;

    /// What a record may be a model of. Groups that compare equal are the same value.
    type Group: Ord;

    /// What the records mean.
    ghost recording: { Recording Self Self.Key Self.Group };

    /// The key that the record settles, if it settles one.
    fn settles(&self) -> Option<&Self::Key>
        ensures valid { recording.valid self.now }
        ensures value { option_copied result ≡ recording.settles self.now };

    /// The group that the record is a model of, if it is one.
    fn model_of(&self) -> Option<&Self::Group>
        ensures valid { recording.valid self.now }
        ensures value { option_copied result ≡ recording.model_of self.now };

    /// The same record.
    fn copy(&self, alloc: Global) -> Result<Self, NoMemory>
        ensures valid { recording.valid self.now }
        ensures same { IfOk result (λ r. r ≡ self.now) };

    /// What holds of every kind of record.
    ghost lawful: { Lawful Self.Key.cmp Self.Group.cmp recording };
}

/// Whether the record settles the key.
pub fn settles_key<R: Record>(one: &R, key: &R::Key) -> bool
    ensures { IsTrue result ↔ (R.recording.settles one.now ≡ Some key.now) }
{
    match one.settles() {
        Some(settled) => settled.cmp(key) == Ordering::Equal,
        None => false,
    }
}
