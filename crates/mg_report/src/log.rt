//! The text of a log.
ghost use Rattle.std.specs.Prelude.{◌≡◌, ◌+◌, ◌++◌, IfOk, OnOk, map};
ghost use Rattle.std.specs.List.{flat_map};
ghost use Rattle.mg_certtext.specs.Pieces.{spaced};
ghost use Rattle.mg_report.specs.Log.{numbered, fate_pieces, turn_pieces, entry_text, sum_text, log_text};
ghost use Rattle.mg_report.specs.Values.{fate_of, entry_of, sum_of};

use crate::blocks::procedure_bytes;
use mg_certtext::{push_bytes, push_count, push_number, push_piece};
use mg_lists::NoMemory;
use mg_words::Procedure;
use std::alloc::Global;

/// What became of a turn.
#[derive(Clone, Copy, Debug, PartialEq, Eq)]
pub enum Fate {
    /// It was kept.
    Kept {
        /// The number of its records.
        records: u64,
    },
    /// It was dropped.
    DroppedBy {
        /// The number of the fact that is its verdict.
        fact: u64,
    },
}

/// What is printed of an entry of a log.
#[derive(Clone, Copy, Debug, PartialEq, Eq)]
pub struct EntryLine {
    /// The number of the pass under which it was committed.
    pub pass: u32,
    /// The number of the search.
    pub search: u32,
    /// The number of the turn among those of its search, from 0.
    pub turn: u64,
    /// The units that the turn spent.
    pub units: u64,
    /// What became of it.
    pub fate: Fate,
}

/// What is printed of all entries of a search.
#[derive(Clone, Copy)]
pub struct SumLine<'a> {
    /// The number of the search.
    pub search: u32,
    /// The name of its question.
    pub name: &'a [u8],
    /// The procedure.
    pub procedure: Procedure,
    /// The units of its entries together.
    pub units: u64,
}

/// The text of a log with these entries, numbered from 1, and these sums.
pub fn report_log(
    alloc: Global,
    entries: &[EntryLine],
    sums: &[SumLine],
) -> Result<Vec<u8>, NoMemory>
    ensures { IfOk result (λ text. text.items
        ≡ log_text (map entry_of entries.now) (map sum_of sums.now)) }
{
    let mut out = Vec::new(alloc);
    push_bytes(&mut out, b"log\n")?;
    push_entries(alloc, &mut out, entries)?;
    push_sums(alloc, &mut out, sums)?;
    push_bytes(&mut out, b"end\n")?;
    Ok(out)
}

/// Pushes the lines of entries, numbered from 1.
fn push_entries(alloc: Global, out: &mut Vec<u8>, entries: &[EntryLine]) -> Result<(), NoMemory>
    ensures { OnOk result (out.new.items
        ≡ out.old.items ++ numbered entry_text 1 (map entry_of entries.now)) }
{
    for (place, entry) in entries.iter().enumerate() {
        push_entry(alloc, out, place as u64 + 1, entry)?;
    }
    Ok(())
}

/// Pushes the line of an entry with its number.
#[tactic(auto, unfolding(crate::specs::Log::entry_text))]
fn push_entry(
    alloc: Global,
    out: &mut Vec<u8>,
    number: u64,
    entry: &EntryLine,
) -> Result<(), NoMemory>
    ensures { OnOk result (out.new.items
        ≡ out.old.items ++ entry_text number (entry_of entry.now)) }
{
    push_bytes(out, b"entry")?;
    push_number(alloc, out, number as u128)?;
    push_turn(alloc, out, entry)?;
    push_fate(alloc, out, entry.fate)?;
    push_bytes(out, b"\n")
}

/// Pushes which turn an entry is of, and its units.
fn push_turn(alloc: Global, out: &mut Vec<u8>, entry: &EntryLine) -> Result<(), NoMemory>
    ensures { OnOk result (out.new.items
        ≡ out.old.items ++ spaced (turn_pieces (entry_of entry.now))) }
{
    push_count(alloc, out, b"pass", entry.pass as u128)?;
    push_count(alloc, out, b"search", entry.search as u128)?;
    push_count(alloc, out, b"turn", entry.turn as u128)?;
    push_count(alloc, out, b"units", entry.units as u128)
}

/// Pushes what became of a turn.
fn push_fate(alloc: Global, out: &mut Vec<u8>, fate: Fate) -> Result<(), NoMemory>
    ensures { OnOk result (out.new.items ≡ out.old.items ++ spaced (fate_pieces (fate_of fate))) }
{
    match fate {
        Fate::Kept { records } => push_count(alloc, out, b"kept", records as u128),
        Fate::DroppedBy { fact } => {
            push_piece(out, b"dropped")?;
            push_count(alloc, out, b"by", fact as u128)
        }
    }
}

/// Pushes the lines of sums.
fn push_sums(alloc: Global, out: &mut Vec<u8>, sums: &[SumLine]) -> Result<(), NoMemory>
    ensures { OnOk result (out.new.items
        ≡ out.old.items ++ flat_map sum_text (map sum_of sums.now)) }
{
    for sum in sums {
        push_sum(alloc, out, sum)?;
    }
    Ok(())
}

/// Pushes the line of a search's sum.
fn push_sum(alloc: Global, out: &mut Vec<u8>, sum: &SumLine) -> Result<(), NoMemory>
    ensures { OnOk result (out.new.items ≡ out.old.items ++ sum_text (sum_of sum.now)) }
{
    push_bytes(out, b"sum")?;
    push_number(alloc, out, sum.search as u128)?;
    push_piece(out, sum.name)?;
    push_piece(out, procedure_bytes(sum.procedure))?;
    push_count(alloc, out, b"units", sum.units as u128)?;
    push_bytes(out, b"\n")
}
