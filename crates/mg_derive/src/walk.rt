//! A walk through the texts of an Ask in the order of their numbers. It reads them from the front, and where
//! no text that begins with the symbols read is accepted, it passes over all of them at once.
ghost use Rattle.std.specs.Prelude.{◌≡◌, ◌+◌, ◌-◌, ◌^◌, ◌<◌, ◌≤◌, ◌↔◌, false, [], ◌∷◌, ◌++◌, List, length, map, drop, min, IfOk, IsTrue};
ghost use Rattle.mg_numbers.specs.declared.blocks.TheConstants.{MOST_NUMBER};
ghost use Rattle.mg_numbers.specs.Plain.{NoneAmong};
ghost use Rattle.mg_words.specs.Word.{IsReduced};
ghost use Rattle.mg_derive.specs.Acceptance.{AcceptedAt, IsAccepted, IsNumbered};
ghost use Rattle.mg_derive.specs.Symbols.{IsSymbolOf, digit_of as value_of, symbol_count as count_of};
ghost use Rattle.mg_derive.specs.Reading.{Runs, Leads, at_first, goal_after, ends_in_member as has_member_end, is_member as is_member_sign};
ghost use Rattle.mg_derive.specs.Walk.{IsWalk, IsPlace, IsEquipped, IsShort, WritesAtMost, NoneHere, InReach, first_at, standing_of, text_length};
ghost use Rattle.mg_derive.specs.declared.symbol.Symbol.{Symbol as SymbolOf};
ghost use Rattle.mg_derive.specs.declared.symbol.Symbol.TheVariants.{Cut};

use crate::buffers::{Buffers, most_written};
use crate::checker::{Stand, take, take_back};
use crate::derivation::Derivation;
use crate::numbering::{digit_of, symbol_count, symbol_of};
use crate::symbol::Symbol;
use mg_numbers::MOST_DIGITS;
use mg_present::Ask;
use mg_words::{NoMemory, Word};
use std::alloc::Global;

// How many symbols a text has at most whose number is at most 2^62, and one more.
const SEARCHED_SYMBOLS: u32 = 63;

/// A walk through the texts of an Ask. It looks at the texts that begin with its text and the symbol with
/// its digit, and that have `left` symbols more.
#[derive(Debug, Drop)]
pub(crate) struct Walk {
    /// How many symbols the Ask has.
    base: u32,
    /// The most letters that a symbol writes.
    longest: usize,
    /// The number of the first text that isn't passed yet.
    pub(crate) next: u64,
    /// The symbols that are read.
    pub(crate) text: Derivation,
    /// The digit of the symbol to be read next; 0 before the first text, which is empty.
    digit: u32,
    /// How many symbols follow that one.
    left: u32,
    /// Where the reader of the text stands.
    stand: Stand,
    /// The letters of the part that is read, reduced.
    letters: Word,
    /// That part written out, reduced.
    written: Word,
}

impl Walk {
    /// A walk that has passed no text.
    pub(crate) fn start(alloc: Global, ask: &Ask) -> Result<Walk, NoMemory>
        ensures walk { IfOk result (λ walk. IsWalk ask.now walk) }
        ensures next { IfOk result (λ walk. walk.next ≡ 1) }
        ensures text { IfOk result (λ walk. walk.text.symbols ≡ []) }
    {
        let _goals = ask.goals();
        let text = Derivation::with_room(alloc, MOST_DIGITS)?;
        let mut buffers = Buffers::for_length(alloc, ask, SEARCHED_SYMBOLS)?;
        buffers.letters.clear();
        buffers.written.clear();
        Ok(Walk {
            base: symbol_count(ask),
            longest: most_written(ask),
            next: 1,
            text,
            digit: 0,
            left: 0,
            stand: Stand {
                goal: 0,
                members: false,
            },
            letters: buffers.letters,
            written: buffers.written,
        })
    }

    /// Tests the text with the number `next`; whether it is accepted, and then it is the walk's text. Else
    /// the walk passes it, and with it texts after it of which none is accepted. It takes no memory.
    pub(crate) fn step(&mut self, ask: &Ask) -> bool
        requires walk { IsWalk ask.now self.old }
        requires most { self.old.next ≤ MOST_NUMBER }
        ensures numbered { IsTrue result → IsNumbered ask.now self.new.text.symbols self.new.next }
        ensures accepted { IsTrue result → IsAccepted ask.now self.new.text.symbols }
        ensures stays { IsTrue result → self.new.next ≡ self.old.next }
        ensures walk { result ≡ false → IsWalk ask.now self.new }
        ensures rises { result ≡ false → self.old.next < self.new.next }
    {
        if self.finds(ask) {
            return true;
        }
        self.pass(ask);
        false
    }

    // Reads on where the walk stands, while some text that begins so may be accepted. Whether a whole text
    // is read; then it is the first one there, and accepted.
    fn finds(&mut self, ask: &Ask) -> bool
        requires place { IsPlace ask.now self.old }
        requires short { IsShort ask.now (text_length self.old) }
        ensures next { self.new.next ≡ self.old.next }
        ensures numbered { IsTrue result →
            IsNumbered ask.now self.new.text.symbols (first_at ask.now self.old + 1) }
        ensures accepted { IsTrue result → IsAccepted ask.now self.new.text.symbols }
        ensures place { result ≡ false → IsPlace ask.now self.new }
        ensures length { result ≡ false → text_length self.new ≡ text_length self.old }
        ensures first { result ≡ false → first_at ask.now self.new ≡ first_at ask.now self.old }
        ensures refused { result ≡ false → NoneHere ask.now self.new }
    {
        if self.digit == 0 {
            return ask.goals().len() == 0;
        }
        while self.enter(ask) {
            if self.left == 0 {
                return true;
            }
            self.left -= 1;
            self.digit = 1;
        }
        false
    }

    // Reads the symbol with the digit, unless no text that begins so and has `left` symbols more is
    // accepted; whether it is read.
    fn enter(&mut self, ask: &Ask) -> bool
        requires place { IsPlace ask.now self.old }
        requires some { 1 ≤ self.old.digit }
        requires short { IsShort ask.now (text_length self.old) }
        ensures place { IsPlace ask.now self.new }
        ensures next { self.new.next ≡ self.old.next }
        ensures digit { self.new.digit ≡ self.old.digit }
        ensures left { self.new.left ≡ self.old.left }
        ensures read { IsTrue result →
            map (value_of ask.now) self.new.text.symbols ≡
            map (value_of ask.now) self.old.text.symbols ++ self.old.digit ∷ [] }
        ensures whole { IsTrue result → self.old.left ≡ 0 →
            self.new.stand.goal ≡ length ask.now.goals }
        ensures same { result ≡ false → self.new.text.symbols ≡ self.old.text.symbols }
        ensures first { result ≡ false → first_at ask.now self.new ≡ first_at ask.now self.old }
        ensures refused { result ≡ false → NoneHere ask.now self.new }
    {
        let symbol = symbol_of(ask, self.digit);
        let before = self.stand;
        let read = symbol;
        let Some(stand) = take(ask, read, before, &mut self.letters, &mut self.written) else {
            return false;
        };
        self.stand = stand;
        if self.may_end(ask) {
            self.text.push(symbol);
            return true;
        }
        self.stand = before;
        take_back(
            ask,
            symbol,
            before.goal,
            &mut self.letters,
            &mut self.written,
        );
        false
    }

    // Whether a text may be accepted that goes on from here with `left` symbols. Each goal left wants a cut,
    // each letter of the part a letter that takes it away, no letter comes after a member sign, and no symbol
    // writes more than `longest` letters.
    fn may_end(&self, ask: &Ask) -> bool
        requires goal { self.now.stand.goal ≤ length ask.now.goals }
        requires some { 1 ≤ self.now.longest }
        requires longest { WritesAtMost ask.now self.now.longest }
        requires letters { IsReduced self.now.letters.letters }
        requires written { IsReduced self.now.written.letters }
        ensures refused { result ≡ false → (rest : List SymbolOf) → length rest ≡ self.now.left →
            Runs ask.now rest (drop self.now.stand.goal ask.now.goals) self.now.stand.members
            self.now.letters.letters self.now.written.letters → ⊥ }
        ensures whole { IsTrue result → self.now.left ≡ 0 →
            self.now.stand.goal ≡ length ask.now.goals }
    {
        let cuts = ask.goals().len() - self.stand.goal;
        let left = self.left as usize;
        if cuts == 0 {
            return left == 0;
        }
        let letters = self.letters.letters().len();
        if left < cuts + letters {
            return false;
        }
        if self.stand.members && letters > 0 {
            return false;
        }
        let written = self.written.letters().len();
        let goal = ask.goals().at(self.stand.goal).letters().len();
        is_in_reach(written, goal, letters, left - cuts - letters, self.longest)
    }

    // Passes all texts that begin with the text and the symbol with the digit, and that have `left`
    // symbols more.
    fn pass(&mut self, ask: &Ask)
        requires place { IsPlace ask.now self.old }
        requires short { IsShort ask.now (text_length self.old) }
        requires most { self.old.next ≤ MOST_NUMBER }
        requires number { self.old.next ≡ first_at ask.now self.old + 1 }
        requires none { NoneAmong (AcceptedAt ask.now) 0 (self.old.next - 1) }
        requires refused { NoneHere ask.now self.old }
        ensures walk { IsWalk ask.now self.new }
        ensures rises { self.old.next < self.new.next }
    {
        self.next = number_after(self.next, self.base, self.left);
        self.carry(ask);
    }

    // Goes to the first texts after those.
    fn carry(&mut self, ask: &Ask)
        requires place { IsPlace ask.now self.old }
        requires short { IsShort ask.now (text_length self.old) }
        ensures next { self.new.next ≡ self.old.next }
        ensures place { IsPlace ask.now self.new }
        ensures first { first_at ask.now self.new ≡
            first_at ask.now self.old + self.old.base ^ self.old.left }
    {
        while self.digit == self.base {
            self.digit = self.leave(ask);
            self.left += 1;
        }
        self.digit += 1;
    }

    // Takes the last symbol of the text back, and gives its digit, or 0 where the text is empty.
    fn leave(&mut self, ask: &Ask) -> u32
        requires equipped { IsEquipped ask.now self.old }
        requires reads { Leads ask.now self.old.text.symbols at_first (standing_of self.old) }
        requires short { IsShort ask.now (length self.old.text.symbols) }
        ensures equipped { IsEquipped ask.now self.new }
        ensures next { self.new.next ≡ self.old.next }
        ensures left { self.new.left ≡ self.old.left }
        ensures reads { Leads ask.now self.new.text.symbols at_first (standing_of self.new) }
        ensures digit { 1 ≤ result →
            map (value_of ask.now) self.old.text.symbols ≡
            map (value_of ask.now) self.new.text.symbols ++ result ∷ [] }
        ensures none { result ≡ 0 → self.old.text.symbols ≡ [] }
        ensures empty { result ≡ 0 → self.new.text.symbols ≡ [] }
        ensures most { result ≤ count_of ask.now }
    {
        match self.text.pop() {
            Some(symbol) => self.unread(ask, symbol),
            None => 0,
        }
    }

    // Goes back to where the reader stood before the symbol that came last and that is off the text now, and
    // gives its digit.
    fn unread(&mut self, ask: &Ask, symbol: Symbol) -> u32
        requires equipped { IsEquipped ask.now self.old }
        requires reads { Leads ask.now (self.old.text.symbols ++
            symbol ∷ []) at_first (standing_of self.old) }
        requires short { IsShort ask.now (length self.old.text.symbols + 1) }
        ensures equipped { IsEquipped ask.now self.new }
        ensures next { self.new.next ≡ self.old.next }
        ensures left { self.new.left ≡ self.old.left }
        ensures text { self.new.text.symbols ≡ self.old.text.symbols }
        ensures reads { Leads ask.now self.new.text.symbols at_first (standing_of self.new) }
        ensures digit { result ≡ value_of ask.now symbol }
        ensures symbol { IsSymbolOf ask.now symbol }
    {
        let goal = goal_before(&symbol, self.stand.goal);
        take_back(ask, symbol, goal, &mut self.letters, &mut self.written);
        self.stand.goal = goal;
        self.stand.members = ends_in_member(self.text.symbols());
        digit_of(ask, symbol)
    }
}

// The goal of the part before the symbol was read.
fn goal_before(symbol: &Symbol, goal: usize) -> usize
    requires { symbol.now ≡ Cut → 1 ≤ goal }
    ensures { goal ≡ goal_after symbol.now result }
{
    match symbol {
        Symbol::Letter(_) | Symbol::Relator { .. } | Symbol::Member { .. } => goal,
        Symbol::Cut => goal - 1,
    }
}

// Whether the last symbol is a member sign.
fn ends_in_member(text: &[Symbol]) -> bool
    ensures { result ≡ has_member_end text.now }
{
    match text.last() {
        Some(&last) => is_member(last),
        None => false,
    }
}

// Whether the symbol is a member sign.
fn is_member(symbol: Symbol) -> bool
    ensures { result ≡ is_member_sign symbol }
{
    match symbol {
        Symbol::Member { .. } => true,
        Symbol::Letter(_) | Symbol::Relator { .. } | Symbol::Cut => false,
    }
}

// The number so many blocks of texts later, or the greatest one.
fn number_after(number: u64, base: u32, left: u32) -> u64
    requires { 1 ≤ base }
    ensures { result ≡ min (number + base ^ left) (2 ^ 64 - 1) }
{
    let mut block: u64 = 1;
    for _digit in 0..left {
        block = block.saturating_mul(u64::from(base));
    }
    number.saturating_add(block)
}

// Whether words of these two lengths may be made one by some symbols that write a letter each and some
// more that write at most `longest` letters each.
fn is_in_reach(from: usize, to: usize, letters: usize, more: usize, longest: usize) -> bool
    ensures { IsTrue result ↔ InReach from to letters more longest }
{
    let reach = more.saturating_mul(longest).saturating_add(letters);
    from.abs_diff(to) <= reach
}
