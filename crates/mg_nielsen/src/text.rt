//! The derivation that the signs of the goals are.
ghost use Rattle.std.specs.Prelude.{◌≡◌, ◌↔◌, ◌≤◌, ◌-◌, ◌∷◌, ◌++◌, [], IfOk, OnOk, IsTrue, length, slice_index_or};
ghost use Rattle.mg_turn.specs.declared.bounds.TheConstants.{MOST_LETTERS};
ghost use Rattle.mg_derive.specs.Symbols.{written_out, word_of};
ghost use Rattle.mg_derive.specs.Acceptance.{IsAccepted};
ghost use Rattle.mg_certs.specs.Claim.{derivation, affirmed, settled};
ghost use Rattle.mg_nielsen.specs.Turn.{text_of, part_of};
ghost use Rattle.mg_nielsen.specs.Expressed.{Expressed as ExpressedOf};

use crate::expressed::Expressed;
use mg_certs::{Claim, Verdict, Yes};
use mg_core::{NoMemory, Records};
use mg_derive::{Derivation, Symbol};
use mg_present::Ask;
use mg_turn::MOST_LETTERS;
use mg_words::Words;
use std::alloc::Global;

/// The signs of the goals as symbols, with a cut behind those of each goal.
pub(crate) fn symbols_of(alloc: Global, rests: &[Expressed]) -> Result<Vec<Symbol>, NoMemory>
    ensures { IfOk result (λ text. text.items ≡ text_of rests.now) }
{
    let mut text = Vec::new(alloc);
    for rest in rests {
        push_part(&mut text, rest)?;
    }
    Ok(text)
}

// Appends the signs of a goal and a cut.
fn push_part(text: &mut Vec<Symbol>, rest: &Expressed) -> Result<(), NoMemory>
    ensures { OnOk result (text.new.items ≡ text.old.items ++ part_of rest.now) }
{
    for sign in rest.signs() {
        text.push(Symbol::Member {
            place: u32::from(sign.generator),
            inverse: sign.inverse,
        })?;
    }
    text.push(Symbol::Cut)?;
    Ok(())
}

/// Whether the text, written out, has at most [`MOST_LETTERS`] letters.
pub(crate) fn is_short_enough(ask: &Ask, text: &[Symbol]) -> bool
    ensures { IsTrue result ↔ (length (written_out ask.now text.now) ≤ MOST_LETTERS) }
{
    let mut letters = 0;
    for &symbol in text {
        let more = word_length(ask, symbol) as u64;
        if more > MOST_LETTERS - letters {
            return false;
        }
        letters += more;
    }
    true
}

// How many letters the word has that the symbol stands for.
fn word_length(ask: &Ask, symbol: Symbol) -> usize
    ensures { result ≡ length (word_of ask.now symbol) }
{
    match symbol {
        Symbol::Letter(_) => 1,
        Symbol::Relator { place, .. } => length_at(ask.group().relators(), place),
        Symbol::Member { place, .. } => length_at(ask.subgroup(), place),
        Symbol::Cut => 0,
    }
}

// How many letters the word at a place from 1 has; none where there is no such place.
fn length_at(words: &Words, place: u32) -> usize
    ensures { result ≡ length (slice_index_or words.now (place - 1) []) }
{
    let place = place.saturating_sub(1) as usize;
    if place < words.len() {
        words.at(place).letters().len()
    } else {
        0
    }
}

/// The Ask settled by the derivation, which nobody needs to write out and test.
pub(crate) fn published(
    alloc: Global,
    ask: &Ask,
    text: &[Symbol],
) -> Result<Records<Claim>, NoMemory>
    requires { IsAccepted ask.now text.now }
    ensures { IfOk result (λ records.
        records ≡ settled ask.now (affirmed (derivation text.now)) ∷ []) }
{
    let text = Derivation::from_symbols(alloc, text)?;
    let claim = Claim::of_verdict(ask.copy(alloc)?, Verdict::Yes(Yes::Derivation(text)));
    let mut records = Records::new(alloc);
    records.push(claim)?;
    Ok(records)
}
