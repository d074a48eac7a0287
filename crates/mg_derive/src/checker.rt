//! The checker of derivations.
ghost use Rattle.std.specs.Prelude.{◌≡◌, ◌≤◌, ◌<◌, ◌+◌, ◌-◌, ◌↔◌, ◌++◌, [], ◌∷◌, List, length, drop, false, slice_index_or, IsTrue, IfSome, IfNone, None};
ghost use Rattle.mg_words.specs.Word.{IsReduced, inv};
ghost use Rattle.mg_words.specs.Reduction.{free_form};
ghost use Rattle.mg_present.specs.Same.{signed};
ghost use Rattle.mg_derive.specs.Acceptance.{IsAccepted};
ghost use Rattle.mg_derive.specs.Room.{HasRoom};
ghost use Rattle.mg_derive.specs.Symbols.{IsPlaceIn, IsSymbolOf, letter_of, word_of, letters_alone, written_out};
ghost use Rattle.mg_derive.specs.Reading.{Runs, Standing, Takes};
ghost use Rattle.mg_derive.specs.declared.symbol.Symbol.{Symbol as SymbolOf};
ghost use Rattle.mg_derive.specs.declared.symbol.Symbol.TheVariants.{Cut};

use crate::buffers::Buffers;
use crate::derivation::Derivation;
use crate::symbol::Symbol;
use mg_present::Ask;
use mg_words::{Letter, Word, Words, push_reduced};

/// Whether the derivation is accepted for the Ask. It takes no memory.
pub fn accepts(ask: &Ask, text: &Derivation, buffers: &mut Buffers) -> bool
    requires { HasRoom ask.now text.now.symbols buffers.old }
    ensures accepted { IsTrue result ↔ IsAccepted ask.now text.now.symbols }
    ensures letters { buffers.old.letters ≤ buffers.new.letters }
    ensures written { buffers.old.written ≤ buffers.new.written }
{
    buffers.letters.clear();
    buffers.written.clear();
    read(
        ask,
        text.symbols(),
        &mut buffers.letters,
        &mut buffers.written,
    )
}

// Where the reader of a text stands: which goal the part is for that it reads, and whether it read a
// subgroup sign in that part.
#[derive(Clone, Copy, Debug)]
pub(crate) struct Stand {
    pub(crate) goal: usize,
    pub(crate) members: bool,
}

// Whether the text is accepted, read with two empty words.
fn read(ask: &Ask, text: &[Symbol], letters: &mut Word, written: &mut Word) -> bool
    requires no_letters { letters.old.letters ≡ [] }
    requires nothing_written { written.old.letters ≡ [] }
    requires letters { length (letters_alone text.now) ≤ letters.old.capacity }
    requires written { length (written_out ask.now text.now) ≤ written.old.capacity }
    ensures accepted { IsTrue result ↔ IsAccepted ask.now text.now }
    ensures letters { letters.old.capacity ≤ letters.new.capacity }
    ensures written { written.old.capacity ≤ written.new.capacity }
{
    let goals = ask.goals().len();
    let mut stand = Stand {
        goal: 0,
        members: false,
    };
    for &symbol in text {
        match take(ask, symbol, stand, letters, written) {
            Some(next) => stand = next,
            None => return false,
        }
    }
    stand.goal == goals
}

// Takes one more symbol; None exactly where the text can't be accepted whatever follows.
pub(crate) fn take(
    ask: &Ask,
    symbol: Symbol,
    stand: Stand,
    letters: &mut Word,
    written: &mut Word,
) -> Option<Stand>
    requires goal { stand.goal ≤ length ask.now.goals }
    requires letters_reduced { IsReduced letters.old.letters }
    requires written_reduced { IsReduced written.old.letters }
    requires letters { length letters.old.letters + length (letter_of symbol) ≤
        letters.old.capacity }
    requires written { length written.old.letters + length (word_of ask.now symbol) ≤
        written.old.capacity }
    ensures taken { IfSome result (λ next. Takes ask.now symbol
        (record {
          goal = stand.goal;
          members = stand.members;
          letters = letters.old.letters;
          written = written.old.letters;
        })
        (record {
          goal = next.goal;
          members = next.members;
          letters = letters.new.letters;
          written = written.new.letters;
        })) }
    ensures refused { IfNone result ((rest : List SymbolOf) →
        Runs ask.now (symbol ∷ rest) (drop stand.goal ask.now.goals) stand.members
        letters.old.letters written.old.letters → ⊥) }
    ensures same { result ≡ None →
        (letters.new.letters ≡ letters.old.letters) × (written.new.letters ≡ written.old.letters) }
    ensures goal { IfSome result (λ next. next.goal ≤ length ask.now.goals) }
    ensures letters_reduced { IsReduced letters.new.letters }
    ensures written_reduced { IsReduced written.new.letters }
    ensures letters { length letters.new.letters ≤
        length letters.old.letters + length (letter_of symbol) }
    ensures written { length written.new.letters ≤
        length written.old.letters + length (word_of ask.now symbol) }
    ensures letters_room { letters.old.capacity ≤ letters.new.capacity }
    ensures written_room { written.old.capacity ≤ written.new.capacity }
{
    if stand.goal == ask.goals().len() {
        return None;
    }
    match symbol {
        Symbol::Letter(letter) => {
            if stand.members || u32::from(letter.generator) > ask.group().generators() {
                return None;
            }
            push_reduced(letters, letter);
            push_reduced(written, letter);
            Some(stand)
        }
        Symbol::Relator { place, inverse } => {
            if stand.members || !write_sign(ask.group().relators(), place, inverse, written) {
                return None;
            }
            Some(stand)
        }
        Symbol::Member { place, inverse } => {
            if !write_sign(ask.subgroup(), place, inverse, written) {
                return None;
            }
            Some(Stand {
                goal: stand.goal,
                members: true,
            })
        }
        Symbol::Cut => {
            if !letters.letters().is_empty() || !is_word(written, ask.goals().at(stand.goal)) {
                return None;
            }
            written.clear();
            Some(Stand {
                goal: stand.goal + 1,
                members: false,
            })
        }
    }
}

// Takes a symbol back, which was taken where the part was for this goal: the two words are again as they
// were before.
pub(crate) fn take_back(
    ask: &Ask,
    symbol: Symbol,
    goal: usize,
    letters: &mut Word,
    written: &mut Word,
)
    requires symbol { IsSymbolOf ask.now symbol }
    requires goal { goal < length ask.now.goals }
    requires letters_reduced { IsReduced letters.old.letters }
    requires written_reduced { IsReduced written.old.letters }
    requires letters { length letters.old.letters + length (letter_of symbol) ≤
        letters.old.capacity }
    requires written { length written.old.letters + length (word_of ask.now symbol) ≤
        written.old.capacity }
    requires goal_room { symbol ≡ Cut →
        length (slice_index_or ask.now.goals goal []) ≤ written.old.capacity }
    ensures back { (before after : Standing) → before.goal ≡ goal →
        IsReduced before.letters → IsReduced before.written → Takes ask.now symbol before after →
        after.letters ≡ letters.old.letters → after.written ≡ written.old.letters →
        (letters.new.letters ≡ before.letters) × (written.new.letters ≡ before.written) }
    ensures letters_room { letters.old.capacity ≤ letters.new.capacity }
    ensures written_room { written.old.capacity ≤ written.new.capacity }
{
    match symbol {
        Symbol::Letter(letter) => {
            push_reduced(letters, letter.inverted());
            push_reduced(written, letter.inverted());
        }
        Symbol::Relator { place, inverse } => {
            write_sign(ask.group().relators(), place, !inverse, written);
        }
        Symbol::Member { place, inverse } => {
            write_sign(ask.subgroup(), place, !inverse, written);
        }
        Symbol::Cut => {
            written.clear();
            write_word(ask.goals().at(goal).letters(), written);
        }
    }
}

// Whether the two words have the same letters.
fn is_word(written: &Word, goal: &Word) -> bool
    ensures { IsTrue result ↔ (written.now.letters ≡ goal.now.letters) }
{
    written == goal
}

// Multiplies the reduced word by the word that a sign stands for; false exactly where there is no such
// word, and then the reduced word stays.
fn write_sign(words: &Words, place: u32, inverse: bool, written: &mut Word) -> bool
    requires reduced { IsReduced written.old.letters }
    requires room { length written.old.letters +
        length (signed inverse (slice_index_or words.now (place - 1) [])) ≤ written.old.capacity }
    ensures place { IsTrue result ↔ IsPlaceIn words.now place }
    ensures written { IsTrue result → written.new.letters ≡ free_form (written.old.letters ++
        signed inverse (slice_index_or words.now (place - 1) [])) }
    ensures same { result ≡ false → written.new.letters ≡ written.old.letters }
    ensures reduced { IsReduced written.new.letters }
    ensures length { length written.new.letters ≤ length written.old.letters +
        length (signed inverse (slice_index_or words.now (place - 1) [])) }
    ensures capacity { written.old.capacity ≤ written.new.capacity }
{
    if place == 0 || place as usize > words.len() {
        return false;
    }
    let word = words.at(place as usize - 1).letters();
    if inverse {
        write_inverse(word, written);
    } else {
        write_word(word, written);
    }
    true
}

// Multiplies the reduced word by a word.
fn write_word(word: &[Letter], written: &mut Word)
    requires reduced { IsReduced written.old.letters }
    requires room { length written.old.letters + length word.now ≤ written.old.capacity }
    ensures product { written.new.letters ≡ free_form (written.old.letters ++ word.now) }
    ensures reduced { IsReduced written.new.letters }
    ensures length { length written.new.letters ≤ length written.old.letters + length word.now }
    ensures capacity { written.old.capacity ≤ written.new.capacity }
{
    for &letter in word {
        push_reduced(written, letter);
    }
}

// Multiplies the reduced word by the inverse of a word.
fn write_inverse(word: &[Letter], written: &mut Word)
    requires reduced { IsReduced written.old.letters }
    requires room { length written.old.letters + length word.now ≤ written.old.capacity }
    ensures product { written.new.letters ≡ free_form (written.old.letters ++ inv word.now) }
    ensures reduced { IsReduced written.new.letters }
    ensures length { length written.new.letters ≤
        length written.old.letters + length (inv word.now) }
    ensures capacity { written.old.capacity ≤ written.new.capacity }
{
    for letter in word.iter().rev() {
        push_reduced(written, letter.inverted());
    }
}
