//! A board, and what passes do at it.
ghost use Rattle.std.specs.Prelude.{◌≡◌, ◌≤◌, List, [], length, false, IfOk, OnErr};
ghost use Rattle.mg_core.specs.declared.entries.Entry.{Entry as EntryOf};
ghost use Rattle.mg_core.specs.Log.{Handed};
ghost use Rattle.mg_board.specs.History.{IsAmong, Reaches};
ghost use Rattle.mg_board.specs.Passes.{pass_of, place_of, dealt, met, AreOfKey, CommitsAt, Stamps, SeesMore, StandsForAll, Closes};
ghost use Rattle.mg_board.specs.Seats.{newcomer, CommitsInTurn, HasTurn};

use crate::pass::{Pass, Passes};
use crate::plays::Cut;
use crate::table::{BoardTable, TableSeat};
use atomic_table::Table;
use mg_core::{Book, Committed, Entry, Facts, Record};
use mg_lists::NoMemory;
use std::alloc::{AllocError, Global};
use std::marker::Model;
use std::snapshot::Snapshot;
use std::sync::Wait;

/// A book that threads share, each under a pass of its own. It is seen as the board that it is, the log that it was
/// opened with, and how many passes it gave.
#[derive(Drop)]
pub struct Board<R: Record> {
    pub(crate) table: BoardTable<R>,
}

impl<R: Record> Model for Board<R> {
    ghost use Rattle.std.specs.Prelude.{◌≡◌};
    ghost use Rattle.mg_core.specs.declared.entries.Entry.{Entry as EntryOf};
    ghost use Rattle.mg_board.specs.Passes.{BoardState, opened_as};

    ghost Value = { BoardState (EntryOf R) };

    ghost view = { λ b. opened_as b.table.shared.table_id
        b.table.shared.key.0.value b.table.shared.key.1 };

    ghost invariant = { λ b. (b.table.shared.table_id.words ≡ 2)
        × (b.table.shared.table_id.slots ≡ 1) };
}

/// What became of an entry.
#[derive(Clone, Copy, Debug, PartialEq, Eq)]
pub struct Receipt {
    /// What the book's commit answered, at its place of the one history.
    pub committed: Committed,
}

impl<R: Record> Board<R> {
    /// A board with this book, and its passes, from 1 to 65 of them, numbered from 0. Each stands for its own number
    /// alone and has seen the book's log.
    pub fn start(
        alloc: Global,
        book: Book<R>,
        passes: u32,
    ) -> Result<(Board<R>, Passes<R>), NoMemory>
        requires some { 1 ≤ passes }
        requires few { passes ≤ 65 }
        ensures board { IfOk result (λ r. (r.0.opening ≡ book) × (r.0.passes ≡ passes)) }
        ensures passes { IfOk result (λ r. r.1 ≡ dealt r.0 0 passes) }
    {
        let (board, seat) = Board::opened(alloc, book, passes)?;
        let passes = board.deal(alloc, seat, passes)?;
        Ok((board, passes))
    }

    /// Waits for the turn and commits an entry to the book, at a log that begins with all that the pass has seen. The pass
    /// has then seen this log with the entry behind it. Without memory the book stays as it was, and so does the pass.
    pub fn commit<W: Wait>(
        &self,
        rt: &W,
        pass: &mut Pass<R>,
        key: &R::Key,
        entry: Entry<R>,
    ) -> Result<Receipt, NoMemory>
        requires board { pass.old.board ≡ self.now.board }
        requires number { entry.pass ≡ pass.old.number }
        requires kept { entry.dropped ≡ false }
        requires few { length entry.records ≤ 2 }
        requires of_key { AreOfKey R.recording.settles key.now entry.records }
        ensures ok { IfOk result (CommitsAt R.recording.settles key.now entry pass.old pass.new) }
        ensures more { IfOk result (Stamps entry pass.old pass.new) }
        ensures err { OnErr result (pass.new ≡ pass.old) }
    {
        self.take_turn(rt, &mut pass.seat);
        let receipt = self.commit_in_turn(&mut pass.seat, key, entry);
        self.release(&mut pass.seat);
        receipt
    }

    /// Waits for the turn and copies the first `most` models of the group with a fact number above `after` out of the book,
    /// at a log that begins with all that the pass has seen. The pass has then seen this log.
    pub fn facts_since<W: Wait>(
        &self,
        rt: &W,
        alloc: Global,
        pass: &mut Pass<R>,
        group: &R::Group,
        after: u64,
        most: u32,
    ) -> Result<Facts<R>, NoMemory>
        requires board { pass.old.board ≡ self.now.board }
        ensures ok { IfOk result (Handed R.recording.model_of pass.new.seen group.now after most) }
        ensures more { SeesMore pass_of pass.old pass.new [] }
    {
        self.take_turn(rt, &mut pass.seat);
        self.look(&mut pass.seat);
        let facts = self.models(alloc, &mut pass.seat, group, after, most);
        self.release(&mut pass.seat);
        facts
    }

    /// Makes one pass of two, which has the first one's number and stands for the numbers of both. It has seen the longer
    /// of the two logs that they have seen, which the other one begins.
    pub fn meet(&self, a: Pass<R>, b: Pass<R>) -> Pass<R>
        requires first { a.board ≡ self.now.board }
        requires second { b.board ≡ self.now.board }
        ensures met { result ≡ met a b }
        ensures first { Reaches pass_of a.numbers a.seen result.seen }
        ensures second { Reaches pass_of b.numbers b.seen result.seen }
    {
        let Pass { mut seat } = a;
        let Pass { seat: other } = b;
        self.join(&mut seat, other);
        Pass { seat }
    }

    /// Takes the book off a board with all its passes, which have met.
    pub fn close(board: Board<R>, pass: Pass<R>) -> Book<R>
        requires board { pass.board ≡ board.board }
        requires all { StandsForAll board pass }
        ensures { Closes pass_of board pass result }
    {
        let Board { table } = board;
        let Pass { seat } = pass;
        let mut closed = table.close_with(seat);
        let book = closed.take(0);
        closed.free();
        match book {
            Some(book) => book,
            None => unreachable!(),
        }
    }

    /// A board, and a seat that stands for all its numbers.
    fn opened(
        alloc: Global,
        book: Book<R>,
        passes: u32,
    ) -> Result<(Board<R>, TableSeat<R>), NoMemory>
        ensures board { IfOk result (λ r. (r.0.opening ≡ book) × (r.0.passes ≡ passes)) }
        ensures table { IfOk result (λ r. r.1.table_id ≡ r.0.board) }
        ensures seat { IfOk result (λ r. r.1.me ≡ (newcomer book 0 passes, [])) }
    {
        let about = (Snapshot::of(&book), passes);
        let count = book.count();
        let mut slots = Vec::new(alloc);
        slots.push(Some(book))?;
        match Table::new(alloc, &[0, count], slots, &about) {
            Ok((table, seat)) => Ok((Board { table }, seat)),
            Err(_) => Err(AllocError),
        }
    }

    /// A pass for each number, split off from a seat that stands for all of them.
    fn deal(
        &self,
        alloc: Global,
        mut seat: TableSeat<R>,
        passes: u32,
    ) -> Result<Passes<R>, NoMemory>
        requires table { seat.table_id ≡ self.now.board }
        requires seat { seat.me ≡ (newcomer self.now.opening 0 passes, []) }
        requires some { 1 ≤ passes }
        ensures { IfOk result (λ list. list ≡ dealt self.now 0 passes) }
    {
        let mut list = Passes::new(alloc);
        for _dealt in 0..passes - 1 {
            let first = self.table.shared.split_seat::<Cut>(&mut seat);
            list.push(Pass { seat: first })?;
        }
        list.push(Pass { seat })?;
        Ok(list)
    }

    /// Commits the entry to the book, with the turn.
    fn commit_in_turn(
        &self,
        seat: &mut TableSeat<R>,
        key: &R::Key,
        entry: Entry<R>,
    ) -> Result<Receipt, NoMemory>
        requires table { seat.old.table_id ≡ self.now.board }
        requires live { IsAmong seat.old.me.0.number seat.old.me.0.numbers }
        requires turn { (log : List (EntryOf R)) × HasTurn seat.old.me log }
        requires number { entry.pass ≡ seat.old.me.0.number }
        requires kept { entry.dropped ≡ false }
        requires few { length entry.records ≤ 2 }
        requires of_key { AreOfKey R.recording.settles key.now entry.records }
        ensures table { seat.new.table_id ≡ seat.old.table_id }
        ensures ok { IfOk result (CommitsInTurn R.recording.settles key.now entry
            seat.old.me seat.new.me) }
        ensures err { OnErr result (seat.new.me ≡ seat.old.me) }
    {
        let mut book = self.take_slot(seat);
        let committed = book.commit(key, entry);
        self.put_slot(seat, book);
        let committed = committed?;
        self.advance(seat, place(committed));
        Ok(Receipt { committed })
    }

    /// The models in the book, with the turn.
    fn models(
        &self,
        alloc: Global,
        seat: &mut TableSeat<R>,
        group: &R::Group,
        after: u64,
        most: u32,
    ) -> Result<Facts<R>, NoMemory>
        requires table { seat.old.table_id ≡ self.now.board }
        requires turn { (log : List (EntryOf R)) × HasTurn seat.old.me log }
        ensures table { seat.new.table_id ≡ seat.old.table_id }
        ensures same { seat.new.me ≡ seat.old.me }
        ensures ok { (log : List (EntryOf R)) → HasTurn seat.old.me log
            → IfOk result (Handed R.recording.model_of log group.now after most) }
    {
        let book = self.take_slot(seat);
        let facts = book.models(alloc, group, after, most);
        self.put_slot(seat, book);
        facts
    }
}

/// The place that a commit answers.
fn place(committed: Committed) -> u64
    ensures { result ≡ place_of committed }
{
    match committed {
        Committed::Kept { place } => place,
        Committed::Dropped { place, by: _ } => place,
    }
}
