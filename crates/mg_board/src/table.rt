//! The table that the passes share, and a function for each kind of step on it.
//! Word 0 is the turn, word 1 counts the entries, and the slot has the book.
ghost use Rattle.std.specs.Prelude.{◌≡◌, List, [], ◌∷◌, Some, None};
ghost use Rattle.mg_core.specs.declared.entries.Entry.{Entry as EntryOf};
ghost use Rattle.mg_board.specs.History.{IsAmong};
ghost use Rattle.mg_board.specs.Passes.{pass_of};
ghost use Rattle.mg_board.specs.Seats.{newcomer, joined, IsFree, HasTurn, HasMore, Wins, SeesAll, GoesOn, Reached};
ghost use Rattle.mg_board.specs.Shared.{IsShared};

use crate::board::Board;
use crate::plays::{Advance, Both, Learn, Look, Release, Try};
use crate::view::View;
use atomic_table::{Seat, Table, TableRule};
use mg_core::{Book, Entry, Record};
use std::alloc::Global;
use std::snapshot::Snapshot;
use std::sync::Wait;
use std::{hint, thread};

/// The word that is 1 while a seat has the turn.
const TURN: usize = 0;

/// The word that counts the entries.
const COUNT: usize = 1;

/// The slot of the book.
const BOOK: usize = 0;

/// How many times a seat that finds the turn taken spins before it yields.
const SPINS: u32 = 6;

/// The rule of the table: all that its seats have seen is one history.
pub struct OneHistory;

impl<R: Record> TableRule<Option<Book<R>>, View<Entry<R>>, Key<R>> for OneHistory {
    ghost holds = { λ key s. IsShared pass_of key.0.value key.1 s };

    ghost first = { λ key. newcomer key.0.value 0 key.1 };
}

/// What the table is told once: the book as it is opened, and the number of passes.
pub(crate) type Key<R> = (Snapshot<Book<R>>, u32);

/// A seat at the table.
pub(crate) type TableSeat<R> = Seat<Option<Book<R>>, View<Entry<R>>>;

/// The table.
pub(crate) type BoardTable<R> = Table<Option<Book<R>>, View<Entry<R>>, Key<R>, OneHistory, Global>;

impl<R: Record> Board<R> {
    /// Tries the turn until it is won.
    pub(crate) fn take_turn<W: Wait>(&self, rt: &W, seat: &mut TableSeat<R>)
        requires table { seat.old.table_id ≡ self.now.board }
        requires bare { seat.old.me.1 ≡ [] }
        requires live { IsAmong seat.old.me.0.number seat.old.me.0.numbers }
        ensures table { seat.new.table_id ≡ seat.old.table_id }
        ensures turn { Wins pass_of seat.old.me seat.new.me }
    {
        let mut tries = 0;
        for _ in rt.forever() {
            if self.table.shared.compare_exchange::<Try>(seat, TURN, 0, 1) == 0 {
                break;
            }
            tries = pause(tries);
        }
    }

    /// Releases the turn, and the book goes home with it.
    pub(crate) fn release(&self, seat: &mut TableSeat<R>)
        requires table { seat.old.table_id ≡ self.now.board }
        requires turn { (log : List (EntryOf R)) × HasTurn seat.old.me log }
        ensures table { seat.new.table_id ≡ seat.old.table_id }
        ensures turn { seat.new.me ≡ (record (seat.old.me.0) { hand = None }, []) }
    {
        self.table.shared.store::<Release>(seat, TURN, 0);
    }

    /// Takes the book out of the slot.
    pub(crate) fn take_slot(&self, seat: &mut TableSeat<R>) -> Book<R>
        requires table { seat.old.table_id ≡ self.now.board }
        requires turn { (log : List (EntryOf R)) × HasTurn seat.old.me log }
        ensures table { seat.new.table_id ≡ seat.old.table_id }
        ensures book { HasTurn seat.old.me result }
        ensures slot { seat.new.me ≡ (seat.old.me.0, (0, None) ∷ []) }
    {
        match self.table.shared.exchange(seat, BOOK, None) {
            Some(book) => book,
            None => unreachable!(),
        }
    }

    /// Puts the book into the slot.
    pub(crate) fn put_slot(&self, seat: &mut TableSeat<R>, book: Book<R>)
        requires table { seat.old.table_id ≡ self.now.board }
        requires slot { seat.old.me.1 ≡ (0, None) ∷ [] }
        ensures table { seat.new.table_id ≡ seat.old.table_id }
        ensures slot { seat.new.me ≡ (seat.old.me.0, (0, Some book) ∷ []) }
    {
        self.table.shared.exchange(seat, BOOK, Some(book));
    }

    /// Loads the count, with the turn: the whole history is seen.
    pub(crate) fn look(&self, seat: &mut TableSeat<R>)
        requires table { seat.old.table_id ≡ self.now.board }
        requires turn { (log : List (EntryOf R)) × HasTurn seat.old.me log }
        ensures table { seat.new.table_id ≡ seat.old.table_id }
        ensures seen { SeesAll seat.old.me seat.new.me }
    {
        self.table.shared.load::<Look>(seat, COUNT);
    }

    /// Advances the count, by the stamp that the book in the slot has more.
    pub(crate) fn advance(&self, seat: &mut TableSeat<R>, count: u64)
        requires table { seat.old.table_id ≡ self.now.board }
        requires live { IsAmong seat.old.me.0.number seat.old.me.0.numbers }
        requires more { HasMore pass_of seat.old.me count }
        ensures table { seat.new.table_id ≡ seat.old.table_id }
        ensures seen { GoesOn seat.old.me seat.new.me }
    {
        self.table.shared.store::<Advance>(seat, COUNT, count);
    }

    /// Joins another seat, and loads the count: it tells that both seen logs begin the longer one.
    pub(crate) fn join(&self, seat: &mut TableSeat<R>, other: TableSeat<R>)
        requires table { seat.old.table_id ≡ self.now.board }
        requires other { other.table_id ≡ self.now.board }
        requires free { IsFree seat.old.me × IsFree other.me }
        requires live { IsAmong seat.old.me.0.number seat.old.me.0.numbers }
        ensures table { seat.new.table_id ≡ seat.old.table_id }
        ensures joined { seat.new.me ≡ (joined seat.old.me.0 other.me.0, []) }
        ensures first { Reached pass_of seat.old.me seat.new.me.0.seen }
        ensures second { Reached pass_of other.me seat.new.me.0.seen }
    {
        self.table.shared.join_seat::<Both>(seat, other);
        self.table.shared.load::<Learn>(seat, COUNT);
    }
}

/// Lets a little time go by after so many tries, and counts one more: it spins, twice as long each time, and after a
/// few times it yields to other threads.
fn pause(tries: u32) -> u32 {
    if tries >= SPINS {
        thread::yield_now();
        return tries;
    }
    for _ in 0..1u32 << tries {
        hint::spin_loop();
    }
    tries + 1
}
