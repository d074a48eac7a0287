//! What a thread has of a board.
use crate::table::TableSeat;
use mg_core::Record;
use mg_lists::List;
use std::marker::Model;

/// A list of passes.
pub type Passes<R> = List<Pass<R>>;

/// The right to commit to a board under a number, seen as the board, the log that the board was opened with, the number,
/// the numbers that the pass stands for (it stands for its own at least), and the log that it has seen. It takes no
/// bytes, and is moved to the thread that uses it. A board whose pass was dropped goes on, but can't be closed.
#[derive(Drop)]
pub struct Pass<R: Record> {
    pub(crate) seat: TableSeat<R>,
}

impl<R: Record> Model for Pass<R> {
    ghost use Rattle.mg_core.specs.declared.entries.Entry.{Entry as EntryOf};
    ghost use Rattle.mg_board.specs.Passes.{PassState};
    ghost use Rattle.mg_board.specs.Seats.{state_of, IsResting};

    ghost Value = { PassState (EntryOf R) };

    ghost view = { λ p. state_of p.seat.table_id p.seat.me.0 };

    ghost invariant = { λ p. IsResting p.seat.me };
}
