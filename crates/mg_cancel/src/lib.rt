//! Cells that are set once, by which one thread tells all others of a value, and what each thread knows of them.
#![tactic(auto)]

ghost use Rattle.std.specs.Prelude.{◌≡◌, ◌≢◌, ℕ, ◌<◌, Some, None, map, length, IfOk, IfSome, IfNone};
ghost use Rattle.once_cell.specs.Once.{Agrees};
ghost use Rattle.mg_cancel.specs.Notes.{cells_of, known_at, unknown, OnlyAt, StillKnows};

pub use mg_lists::NoMemory;
use once_cell::race::{Note, OnceBox};
use std::alloc::Global;
use std::marker::Model;

/// Cells that are set once and taken back never, seen as the list of their names. Threads share them by reference, and
/// no call on them waits.
#[derive(Drop)]
pub struct Cells<R: Drop> {
    cells: Vec<OnceBox<R>>,
}

impl<R: Drop> Model for Cells<R> {
    ghost use Rattle.std.specs.Prelude.{ℕ, List, map};
    ghost use Rattle.once_cell.specs.Once.{cell_name};

    ghost Value = { List ℕ };

    ghost view = { λ c. map cell_name c.cells.items };
}

/// What a thread knows of cells, seen as the list of their names, each with what is known of its value. It can be given to
/// another thread. Its notes take no bytes.
#[derive(Drop)]
pub struct Notes<R> {
    notes: Vec<Note<R>>,
}

impl<R> Model for Notes<R> {
    ghost use Rattle.std.specs.Prelude.{ℕ, List, Option, map};
    ghost use Rattle.mg_cancel.specs.Notes.{noted};

    ghost Value = { List (ℕ × Option R) };

    ghost view = { λ n. map noted n.notes.items };
}

impl<R: Drop> Cells<R> {
    /// So many cells, none of which is set.
    pub fn make(alloc: Global, n: u32) -> Result<Cells<R>, NoMemory>
        ensures { IfOk result (λ cells. length cells ≡ n) }
    {
        let mut cells = Vec::new(alloc);
        for _made in 0..n {
            cells.push(OnceBox::new(alloc))?;
        }
        Ok(Cells { cells })
    }

    /// One note for each cell, which knows nothing.
    pub fn notes(&self, alloc: Global) -> Result<Notes<R>, NoMemory>
        ensures unknown { IfOk result (λ notes. notes ≡ map unknown self.now) }
        ensures of_these { IfOk result (λ notes. cells_of notes ≡ self.now) }
    {
        let mut notes = Vec::new(alloc);
        for cell in self.cells.as_slice() {
            notes.push(cell.note())?;
        }
        Ok(Notes { notes })
    }

    /// Lends the value of a cell, which the note knows from then on. None comes only where the note knows no value.
    pub fn look<'a>(&'a self, notes: &mut Notes<R>, i: u32) -> Option<&'a R>
        requires there { i < length self.now }
        requires of_these { cells_of notes.old ≡ self.now }
        ensures of_these { cells_of notes.new ≡ self.now }
        ensures others { OnlyAt i notes.old notes.new }
        ensures none { IfNone result (known_at notes.old i ≡ None) }
        ensures still_none { IfNone result (known_at notes.new i ≡ None) }
        ensures some { IfSome result (λ r. known_at notes.new i ≡ Some r.now) }
        ensures still { StillKnows (known_at notes.old i) (known_at notes.new i) }
    {
        let at = i as usize;
        let note = &mut notes.notes[at];
        self.cells[at].get_as(note)
    }

    /// Sets the cell where it isn't set yet, and lends its value, which the note knows from then on. It is the value
    /// handed over, or the one that stood there; the other is dropped.
    pub fn settle<'a>(&'a self, notes: &mut Notes<R>, i: u32, value: Box<R>) -> &'a R
        requires there { i < length self.now }
        requires of_these { cells_of notes.old ≡ self.now }
        ensures of_these { cells_of notes.new ≡ self.now }
        ensures others { OnlyAt i notes.old notes.new }
        ensures value { known_at notes.new i ≡ Some result.now }
        ensures still { StillKnows (known_at notes.old i) (known_at notes.new i) }
    {
        let at = i as usize;
        let note = &mut notes.notes[at];
        self.cells[at].get_or_init_as(move || value, note)
    }

    /// Two notes of one cell that know a value know the same value, whichever threads had them. Nothing is read or
    /// changed: the call is for proofs.
    pub fn compare(&self, one: &mut Notes<R>, other: &mut Notes<R>, i: u32)
        requires there { i < length self.now }
        requires one { cells_of one.old ≡ self.now }
        requires other { cells_of other.old ≡ self.now }
        ensures same { (one.new ≡ one.old) × (other.new ≡ other.old) }
        ensures agree { IfSome (known_at other.old i) (Agrees (known_at one.old i)) }
    {
        let at = i as usize;
        let note = other.notes[at].again();
        one.notes[at].compare(note);
    }
}

#[cfg(test)]
mod tests;
