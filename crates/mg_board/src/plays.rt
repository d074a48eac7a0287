//! What each kind of step on the board's table tells the seat that makes it.
ghost use Rattle.mg_board.specs.Passes.{pass_of};
ghost use Rattle.mg_board.specs.Seats.{tried, looked, advanced, released, learned, alone, others, both, spent};

use crate::view::View;
use atomic_table::{Join, Play, Split};
use mg_core::{Book, Entry, Record};

/// Try the turn.
pub(crate) struct Try;

impl<R: Record> Play<Option<Book<R>>, View<Entry<R>>> for Try {
    ghost then = { tried pass_of };
}

/// Load the count, with the turn.
pub(crate) struct Look;

impl<R: Record> Play<Option<Book<R>>, View<Entry<R>>> for Look {
    ghost then = { looked };
}

/// Advance the count.
pub(crate) struct Advance;

impl<R: Record> Play<Option<Book<R>>, View<Entry<R>>> for Advance {
    ghost then = { advanced };
}

/// Release the turn.
pub(crate) struct Release;

impl<R: Record> Play<Option<Book<R>>, View<Entry<R>>> for Release {
    ghost then = { released };
}

/// Load the count, after two seats were joined.
pub(crate) struct Learn;

impl<R: Record> Play<Option<Book<R>>, View<Entry<R>>> for Learn {
    ghost then = { learned pass_of };
}

/// Split a seat: the new one has the first number of the old one.
pub(crate) struct Cut;

impl<E> Split<View<E>> for Cut {
    ghost left = { others };

    ghost right = { alone };
}

/// Join a seat.
pub(crate) struct Both;

impl<E> Join<View<E>> for Both {
    ghost both = { both };

    ghost spent = { spent };
}
