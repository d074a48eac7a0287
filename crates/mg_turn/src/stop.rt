//! What ends the turns of a search from outside.
ghost use Rattle.std.specs.Prelude.{◌≡◌, ◌≢◌, Option, Some, IsSome, IfSome, IfNone, IfOk, OnErr, option_copied, ⊤};
ghost use Rattle.std.specs.Borrow.{sem, follows_so};
ghost use mathlib.Core.Option.{none};

use mg_core::{NoMemory, Record, settles_key};
use std::alloc::{AllocError, Global};

/// Tells a search of a record that others have found meanwhile.
pub trait Stop<R: Record> {
    /// The record that it knows, if any.
    ghost known: { Self → Option R };

    /// The record that it knows after this call.
    fn look(&mut self) -> Option<&R>
        ensures* { sem 𝓛 (follows_so Self.row Self.row self.entry.ghost_name none (λ _ _. ⊤)
            (λ s. known s ≡ option_copied result)) };
}

/// A copy of the record that a stop knows, where it settles the key; None exactly where it knows none that does.
pub fn known_verdict<R: Record, T: Stop<R>>(
    alloc: Global,
    key: &R::Key,
    stop: &mut T,
) -> Result<Option<Box<R>>, NoMemory>
    ensures some { IfOk result (λ found. IfSome found (λ copy.
        (T.known stop.new ≡ Some copy.value) × R.recording.valid copy.value ×
        (R.recording.settles copy.value ≡ Some key.now))) }
    ensures none { IfOk result (λ found. IfNone found ((known : R) →
        T.known stop.new ≡ Some known → R.recording.settles known ≢ Some key.now)) }
    ensures err { OnErr result (IsSome (T.known stop.new)) }
{
    let Some(known) = stop.look() else {
        return Ok(None);
    };
    if !settles_key(known, key) {
        return Ok(None);
    }
    let copy = known.copy(alloc)?;
    match Box::new(alloc, copy) {
        Ok(boxed) => Ok(Some(boxed)),
        Err(_) => Err(AllocError),
    }
}
