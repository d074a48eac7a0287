//! The room that checking a derivation takes, made before.
ghost use Rattle.std.specs.Prelude.{◌≡◌, ◌≤◌, ◌-◌, length, slice_index_or, IfOk, EachIndex, []};
ghost use Rattle.mg_derive.specs.Room.{HasRoom, HasRoomForLength};
ghost use Rattle.mg_derive.specs.Walk.{WritesAtMost};
ghost use Rattle.mg_derive.specs.Symbols.{letters_alone, written_out, word_of};

use crate::derivation::Derivation;
use crate::symbol::Symbol;
use mg_present::Ask;
use mg_words::{NoMemory, Word, Words};
use std::alloc::{AllocError, Global};
use std::marker::Model;

/// Two words to reduce on, seen as their room: one for the letters of a text alone, one for the text
/// written out.
#[derive(Debug, Drop)]
pub struct Buffers {
    pub(crate) letters: Word,
    pub(crate) written: Word,
}

impl Model for Buffers {
    ghost use Rattle.mg_derive.specs.Room.{Room};

    ghost Value = { Room };

    ghost view = { λ b. record { letters = b.letters.capacity; written = b.written.capacity } };
}

impl Buffers {
    /// Room to check this text.
    pub fn for_text(alloc: Global, ask: &Ask, text: &Derivation) -> Result<Buffers, NoMemory>
        ensures { IfOk result (λ room. HasRoom ask.now text.now.symbols room) }
    {
        let symbols = text.symbols();
        let letters = letter_count(symbols);
        let written = written_length(ask, symbols)?;
        Buffers::with_room(alloc, letters, written)
    }

    /// Room to check any text of at most this many symbols, whatever its symbols.
    pub fn for_length(alloc: Global, ask: &Ask, symbols: u32) -> Result<Buffers, NoMemory>
        ensures { IfOk result (λ room. HasRoomForLength ask.now symbols room) }
    {
        let letters = symbols as usize;
        let Some(written) = most_written(ask).checked_mul(letters) else {
            return Err(AllocError);
        };
        Buffers::with_room(alloc, letters, written)
    }

    // Room for this many letters on each of the two words.
    fn with_room(alloc: Global, letters: usize, written: usize) -> Result<Buffers, NoMemory>
        ensures letters { IfOk result (λ room. letters ≤ room.letters) }
        ensures written { IfOk result (λ room. written ≤ room.written) }
    {
        let mut buffers = Buffers {
            letters: Word::new(alloc),
            written: Word::new(alloc),
        };
        buffers.letters.reserve(letters)?;
        buffers.written.reserve(written)?;
        Ok(buffers)
    }
}

// How many of the symbols are letters.
fn letter_count(symbols: &[Symbol]) -> usize
    ensures { result ≡ length (letters_alone symbols.now) }
{
    let mut count = 0;
    for symbol in symbols {
        if let Symbol::Letter(_) = symbol {
            count += 1;
        }
    }
    count
}

// How many letters the symbols have, written out; no memory where that passes every size.
fn written_length(ask: &Ask, symbols: &[Symbol]) -> Result<usize, NoMemory>
    ensures { IfOk result (λ count. count ≡ length (written_out ask.now symbols.now)) }
{
    let mut count: usize = 0;
    for &symbol in symbols {
        let Some(more) = count.checked_add(word_length(ask, symbol)) else {
            return Err(AllocError);
        };
        count = more;
    }
    Ok(count)
}

// How many letters the word has that the symbol stands for.
fn word_length(ask: &Ask, symbol: Symbol) -> usize
    ensures { result ≡ length (word_of ask.now symbol) }
{
    match symbol {
        Symbol::Letter(_) => 1,
        Symbol::Relator { place, .. } => length_at(ask.group().relators(), place),
        Symbol::Member { place, .. } => length_at(ask.subgroup(), place),
        Symbol::Cut => 0,
    }
}

// How many letters the word at a place from 1 has; none where there is no such place.
fn length_at(words: &Words, place: u32) -> usize
    ensures { result ≡ length (slice_index_or words.now (place - 1) []) }
{
    let place = place.saturating_sub(1) as usize;
    if place < words.len() {
        words.at(place).letters().len()
    } else {
        0
    }
}

// The most letters that a symbol writes, at least 1.
pub(crate) fn most_written(ask: &Ask) -> usize
    ensures some { 1 ≤ result }
    ensures most { WritesAtMost ask.now result }
{
    let relator = longest(ask.group().relators());
    let member = longest(ask.subgroup());
    relator.max(member).max(1)
}

// The length of the longest word, or 0.
fn longest(words: &Words) -> usize
    ensures { EachIndex words.now (λ k. length (slice_index_or words.now k []) ≤ result) }
{
    let mut most = 0;
    for place in 0..words.len() {
        most = words.at(place).letters().len().max(most);
    }
    most
}
