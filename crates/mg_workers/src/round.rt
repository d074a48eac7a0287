//! One worker that goes round its searches.
ghost use Rattle.std.specs.Prelude.{◌≡◌, ℕ, ◌+◌, ◌<◌, true, false, List, [], ◌∷◌, map, IfOk, OnOk, OnErr};
ghost use Rattle.std.specs.List.{AllByRecursion};
ghost use Rattle.mg_core.specs.declared.entries.Entry.{Entry as EntryOf};
ghost use Rattle.mg_workers.specs.Round.{row_of, entered, ComesTo, IsFit, GoesRound};
ghost use Rattle.mg_workers.specs.Run.{Begins, Runs, Finished};
ghost use Rattle.mg_workers.specs.Seats.{row_at, seated, cells_of, turns_ahead};

use crate::held::HeldList;
use crate::seat::{Seat, searches_of, seats_of};
use crate::turns::{take_turn, take_whole_turns};
use mg_core::{Book, NoMemory, Record};
use mg_policy::Sizes;
use mg_turn::Searcher;
use std::alloc::Global;

/// Gives each search that goes on one turn, and tells whether there was any.
fn go_once<R: Record, S: Searcher<R>, P: Sizes>(
    alloc: Global,
    book: &mut Book<R>,
    policy: &P,
    seats: &mut [Seat<S>],
) -> Result<bool, NoMemory>
    requires policy { P.fit policy.now }
    requires fit { AllByRecursion (IsFit S.searching) (map row_at seats.old) }
    ensures runs { OnOk result ((begin : List (EntryOf R)) → Begins begin book.old →
        Runs R.recording S.searching 1 (P.is_size policy.now) begin
        (seated seats.old book.old) (seated seats.new book.new)) }
    ensures fit { OnOk result (AllByRecursion (IsFit S.searching) (map row_at seats.new)) }
    ensures cells { OnOk result (cells_of seats.new ≡ cells_of seats.old) }
    ensures some { IfOk result (λ some. some ≡ true →
        turns_ahead (map row_at seats.new) < turns_ahead (map row_at seats.old)) }
    ensures none { IfOk result (λ some. some ≡ false → Finished (seated seats.new book.new)) }
    ensures memory { OnErr result ((begin : List (EntryOf R)) → Begins begin book.old →
        ComesTo R.recording S.searching (P.is_size policy.now) begin
        (seated seats.old book.old) book.new) }
{
    let mut some = false;
    for seat in seats.iter_mut() {
        if seat.goes_on() {
            take_turn(alloc, book, policy, seat)?;
            some = true;
        }
    }
    Ok(some)
}

/// Gives a search that is alone in its run a turn, and where that is whole, more of them.
fn go_alone<R: Record, S: Searcher<R>, P: Sizes>(
    alloc: Global,
    book: &mut Book<R>,
    policy: &P,
    seat: &mut Seat<S>,
) -> Result<(), NoMemory>
    requires policy { P.fit policy.now }
    requires fit { IsFit S.searching (row_at seat.old) }
    ensures runs { OnOk result ((begin : List (EntryOf R)) → Begins begin book.old →
        Runs R.recording S.searching 1 (P.is_size policy.now) begin
        (seated (seat.old ∷ []) book.old) (seated (seat.new ∷ []) book.new)) }
    ensures fit { OnOk result (IsFit S.searching (row_at seat.new)) }
    ensures cell { OnOk result (seat.new.held.cell ≡ seat.old.held.cell) }
    ensures memory { OnErr result ((begin : List (EntryOf R)) → Begins begin book.old →
        ComesTo R.recording S.searching (P.is_size policy.now) begin
        (seated (seat.old ∷ []) book.old) book.new) }
{
    if !seat.goes_on() {
        return Ok(());
    }
    if let Some(units) = take_turn(alloc, book, policy, seat)? {
        take_whole_turns(alloc, book, policy, seat, units)?;
    }
    Ok(())
}

/// Gives the one search turns, where there is one alone.
fn go_first<R: Record, S: Searcher<R>, P: Sizes>(
    alloc: Global,
    book: &mut Book<R>,
    policy: &P,
    seats: &mut [Seat<S>],
) -> Result<(), NoMemory>
    requires policy { P.fit policy.now }
    requires fit { AllByRecursion (IsFit S.searching) (map row_at seats.old) }
    ensures runs { OnOk result ((begin : List (EntryOf R)) → Begins begin book.old →
        Runs R.recording S.searching 1 (P.is_size policy.now) begin
        (seated seats.old book.old) (seated seats.new book.new)) }
    ensures fit { OnOk result (AllByRecursion (IsFit S.searching) (map row_at seats.new)) }
    ensures cells { OnOk result (cells_of seats.new ≡ cells_of seats.old) }
    ensures memory { OnErr result ((begin : List (EntryOf R)) → Begins begin book.old →
        ComesTo R.recording S.searching (P.is_size policy.now) begin
        (seated seats.old book.old) book.new) }
{
    match seats {
        [seat] => go_alone(alloc, book, policy, seat),
        _ => Ok(()),
    }
}

/// Goes round the searches in their order, as the one worker, until each has left or has no allowed units. Each is
/// given a turn of the policy's size for its turns, the units that it has spent and those that it may spend, and the models
/// that it wants above what it has read; the entry of the turn is committed directly after it. A search that turns out to be settled has its turn dropped and
/// ends `Stopped`. Where there is no memory the searches are gone, and the book has the entries of the turns made so
/// far.
pub fn go_round<R: Record, S: Searcher<R> + Drop, P: Sizes>(
    alloc: Global,
    book: &mut Book<R>,
    policy: &P,
    searches: HeldList<S>,
) -> Result<HeldList<S>, NoMemory>
    requires policy { P.fit policy.now }
    requires fit { AllByRecursion (IsFit S.searching) (map (row_of false false) searches) }
    ensures ok { IfOk result (λ after.
        GoesRound R.recording S.searching (P.is_size policy.now)
        searches book.old after book.new) }
    ensures memory { OnErr result (
        ComesTo R.recording S.searching (P.is_size policy.now)
        book.old (entered searches book.old) book.new) }
{
    let mut seats = seats_of(alloc, searches)?;
    go_first(alloc, book, policy, &mut seats)?;
    while go_once(alloc, book, policy, &mut seats)? {}
    searches_of(alloc, seats)
}
