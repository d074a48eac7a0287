//! Symbols by their digits, and texts by their numbers.
ghost use Rattle.std.specs.Prelude.{◌≡◌, ℕ, ◌+◌, ◌*◌, ◌≤◌, List, length, map};
ghost use Rattle.std.specs.List.{AllByRecursion};
ghost use Rattle.mg_numbers.specs.Texts.{IsText};
ghost use Rattle.mg_numbers.specs.declared.blocks.TheConstants.{MOST_NUMBER};
ghost use Rattle.mg_numbers.specs.declared.texts.TheConstants.{MOST_BASE, MOST_DIGITS};
ghost use Rattle.mg_present.specs.Ask.{Inquiry};
ghost use Rattle.mg_derive.specs.Symbols.{IsSymbolOf, digit_of as value_of, pair_digit, symbol_count as count_of};
ghost use Rattle.mg_derive.specs.Acceptance.{IsNumbered};
ghost use Rattle.mg_derive.specs.declared.symbol.Symbol.{Symbol as SymbolOf};

use crate::derivation::Derivation;
use crate::symbol::Symbol;
use mg_numbers::{Digits, text_of};
use mg_present::Ask;
use mg_words::Letter;

/// How many symbols the Ask has.
pub fn symbol_count(ask: &Ask) -> u32
    ensures count { result ≡ count_of ask.now }
    ensures most { result ≤ MOST_BASE }
{
    let group = ask.group();
    2 * group.generators() + 2 * group.relators().len() as u32 + 2 * ask.subgroup().len() as u32 + 1
}

/// The symbol of the Ask with this digit.
pub fn symbol_of(ask: &Ask, digit: u32) -> Symbol
    requires least { 1 ≤ digit }
    requires most { digit ≤ count_of ask.now }
    ensures symbol { IsSymbolOf ask.now result }
    ensures digit { value_of ask.now result ≡ digit }
{
    let group = ask.group();
    let letters = 2 * group.generators();
    if digit <= letters {
        let (place, inverse) = sign_at(digit);
        return Symbol::Letter(Letter {
            generator: place as u8,
            inverse,
        });
    }
    let rest = digit - letters;
    let relators = 2 * group.relators().len() as u32;
    if rest <= relators {
        let (place, inverse) = sign_at(rest);
        return Symbol::Relator { place, inverse };
    }
    let rest = rest - relators;
    if rest <= 2 * ask.subgroup().len() as u32 {
        let (place, inverse) = sign_at(rest);
        return Symbol::Member { place, inverse };
    }
    Symbol::Cut
}

// The place and the sign with this digit among signs that have two digits each.
fn sign_at(digit: u32) -> (u32, bool)
    requires { 1 ≤ digit }
    ensures digit { pair_digit 0 result.0 result.1 ≡ digit }
    ensures least { 1 ≤ result.0 }
    ensures most { 2 * result.0 ≤ digit + 1 }
{
    ((digit - 1) / 2 + 1, digit % 2 == 0)
}

/// The digit of a symbol of the Ask.
pub fn digit_of(ask: &Ask, symbol: Symbol) -> u32
    requires { IsSymbolOf ask.now symbol }
    ensures { result ≡ value_of ask.now symbol }
{
    let group = ask.group();
    let relators_from = 2 * group.generators();
    let members_from = relators_from + 2 * group.relators().len() as u32;
    match symbol {
        Symbol::Letter(letter) => sign_digit(u32::from(letter.generator), letter.inverse),
        Symbol::Relator { place, inverse } => relators_from + sign_digit(place, inverse),
        Symbol::Member { place, inverse } => members_from + sign_digit(place, inverse),
        Symbol::Cut => symbol_count(ask),
    }
}

// The digit of a place and a sign among signs that have two digits each.
fn sign_digit(place: u32, inverse: bool) -> u32
    requires least { 1 ≤ place }
    requires most { place ≤ 256 }
    ensures { result ≡ pair_digit 0 place inverse }
{
    if inverse { 2 * place } else { 2 * place - 1 }
}

/// Puts the text of the Ask that has this number. It takes no memory.
pub fn symbols_at(ask: &Ask, number: u64, out: &mut Derivation, digits: &mut Digits)
    requires room { MOST_DIGITS ≤ out.old.capacity }
    requires least { 1 ≤ number }
    requires most { number ≤ MOST_NUMBER }
    requires one_symbol { count_of ask.now ≡ 1 → number ≤ MOST_DIGITS + 1 }
    ensures numbered { IsNumbered ask.now out.new.symbols number }
    ensures digits { digits.new ≡ map (value_of ask.now) out.new.symbols }
    ensures capacity { out.old.capacity ≤ out.new.capacity }
{
    text_of(number - 1, symbol_count(ask), digits);
    write_symbols(ask, digits.as_slice(), out);
}

// Puts the symbols that have these digits.
pub(crate) fn write_symbols(ask: &Ask, digits: &[u32], out: &mut Derivation)
    requires text { IsText (count_of ask.now) digits.now }
    requires room { length digits.now ≤ out.old.capacity }
    ensures symbols { AllByRecursion (IsSymbolOf ask.now) out.new.symbols }
    ensures digits { map (value_of ask.now) out.new.symbols ≡ digits.now }
    ensures capacity { out.old.capacity ≤ out.new.capacity }
{
    out.clear();
    for &digit in digits {
        out.push(symbol_of(ask, digit));
    }
}

/// Texts of the symbols of an Ask and numbers from 1 correspond one to one: two texts with one number are
/// one text, each text has a number, and each number from 1 is that of a text.
pub fn texts_and_numbers_correspond()
    ensures one_text { (ask : Inquiry) (s t : List SymbolOf) (n : ℕ) → IsNumbered ask s n →
        IsNumbered ask t n → s ≡ t }
    ensures each_text { (ask : Inquiry) (t : List SymbolOf) → AllByRecursion (IsSymbolOf ask) t →
        (n : ℕ) × (1 ≤ n) × IsNumbered ask t n }
    ensures each_number { (ask : Inquiry) (n : ℕ) → 1 ≤ n →
        (t : List SymbolOf) × IsNumbered ask t n }
{}
