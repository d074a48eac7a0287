//! Texts in bijective numeration: digits from 1 to the base, the most significant first.
ghost use Rattle.std.specs.Prelude.{◌≡◌, ℕ, ◌+◌, ◌*◌, ◌<◌, ◌≤◌, ◌↔◌, List, [], ◌∷◌, ◌++◌, length, IfOk, IfSome, IfNone, IsTrue};
ghost use Rattle.mg_numbers.specs.Texts.{IsText, value, IsShortlexBefore};

use crate::blocks::MOST_NUMBER;
use std::alloc::{AllocError, Global};
use std::marker::Model;

/// Want of memory.
pub type NoMemory = AllocError;

/// How many digits a text may have.
pub const MOST_DIGITS: usize = 4_096;

/// The greatest base of a text that is made of its value.
pub const MOST_BASE: u32 = 769;

/// A text of at most `MOST_DIGITS` digits, with room for all of them.
#[derive(Debug, Drop)]
pub struct Digits {
    digits: Vec<u32>,
}

impl Model for Digits {
    ghost use Rattle.std.specs.Prelude.{ℕ, List, ◌≤◌, length, vec_capacity};
    ghost use Rattle.mg_numbers.specs.declared.texts.TheConstants.{MOST_DIGITS};

    ghost Value = { List ℕ };

    ghost view = { λ d. d.digits.items };

    ghost invariant = { λ d. (length d.digits.items ≤ MOST_DIGITS) ×
        (MOST_DIGITS ≤ vec_capacity d.digits) };
}

impl Digits {
    /// The empty text, with its room taken.
    pub fn make(alloc: Global) -> Result<Digits, NoMemory>
        ensures { IfOk result (λ d. d ≡ []) }
    {
        Ok(Digits {
            digits: Vec::with_capacity(alloc, MOST_DIGITS)?,
        })
    }

    /// Appends a digit. It takes no memory.
    pub fn push(&mut self, digit: u32)
        requires { length self.old < MOST_DIGITS }
        ensures { self.new ≡ self.old ++ digit ∷ [] }
    {
        self.digits.push_reserved(digit);
    }

    /// Empties the text, and keeps its room.
    pub fn clear(&mut self)
        ensures { self.new ≡ [] }
    {
        self.digits.clear();
    }

    /// Lends the digits, the most significant first.
    pub fn as_slice(&self) -> &[u32]
        ensures same { result.now ≡ self.now }
        ensures most { length self.now ≤ MOST_DIGITS }
    {
        self.digits.as_slice()
    }

    /// How many digits there are.
    pub fn len(&self) -> usize
        ensures count { result ≡ length self.now }
        ensures most { result ≤ MOST_DIGITS }
    {
        self.digits.len()
    }

    /// Whether there is no digit.
    pub fn is_empty(&self) -> bool
        ensures { IsTrue result ↔ (self.now ≡ []) }
    {
        self.digits.is_empty()
    }

    /// Goes to the next text: the one whose value is one more.
    pub fn advance(&mut self, base: u32)
        requires base { 1 ≤ base }
        requires text { IsText base self.old }
        requires room { length self.old < MOST_DIGITS }
        ensures text { IsText base self.new }
        ensures value { value base self.new ≡ value base self.old + 1 }
        ensures longer { length self.new ≤ length self.old + 1 }
    {
        let mut place = self.digits.len();
        while place > 0 {
            place -= 1;
            if self.digits[place] < base {
                self.digits[place] += 1;
                return;
            }
            self.digits[place] = 1;
        }
        self.digits.push_reserved(1);
    }
}

/// Puts the text of value `n` into `out`.
pub fn text_of(n: u64, base: u32, out: &mut Digits)
    requires least_base { 1 ≤ base }
    requires greatest_base { base ≤ MOST_BASE }
    requires greatest { n ≤ MOST_NUMBER }
    requires one_digit { base ≡ 1 → n ≤ MOST_DIGITS }
    ensures text { IsText base out.new }
    ensures value { value base out.new ≡ n }
{
    out.clear();
    let mut rest = n;
    while rest > 0 {
        out.push(((rest - 1) % u64::from(base)) as u32 + 1);
        rest = (rest - 1) / u64::from(base);
    }
    out.digits.reverse();
}

/// The value of the digits; None exactly where it passes `MOST_NUMBER`.
pub fn number_of(digits: &[u32], base: u32) -> Option<u64>
    requires { IsText base digits.now }
    ensures some { IfSome result (λ n. (n ≡ value base digits.now) × (n ≤ MOST_NUMBER)) }
    ensures none { IfNone result (MOST_NUMBER < value base digits.now) }
{
    let mut value: u64 = 0;
    for &digit in digits {
        let longer = u128::from(value) * u128::from(base) + u128::from(digit);
        if longer > u128::from(MOST_NUMBER) {
            return None;
        }
        value = longer as u64;
    }
    Some(value)
}

/// Texts over one base and numbers correspond one to one: two texts of one value are one text, and each number is the
/// value of a text.
pub fn texts_and_numbers_correspond()
    ensures one_text { (base : ℕ) (s t : List ℕ) → IsText base s → IsText base t →
        value base s ≡ value base t → s ≡ t }
    ensures each_number { (base n : ℕ) → 1 ≤ base →
        (t : List ℕ) × IsText base t × (value base t ≡ n) }
{}

/// The order of values is the order by length, and within a length by the first place of difference.
pub fn values_are_in_shortlex_order()
    ensures { (base : ℕ) (s t : List ℕ) → IsText base s → IsText base t →
        (value base s < value base t ↔ IsShortlexBefore s t) }
{}

#[cfg(test)]
mod tests {
    use super::*;
    use std::test::Fail;

    #[test]
    fn worked_values(rt: HostRuntime) -> Result<(), Fail> {
        let mut out = Digits::make(rt.alloc())?;
        assert!(rt; out.is_empty());
        text_of(20, 5, &mut out);
        assert_eq!(rt; out.as_slice(), [3, 5].as_slice());
        assert_eq!(rt; number_of(&[3, 5], 5), Some(20));
        text_of(1309, 7, &mut out);
        assert_eq!(rt; out.as_slice(), [3, 5, 4, 7].as_slice());
        text_of(1690, 13, &mut out);
        assert_eq!(rt; out.as_slice(), [9, 12, 13].as_slice());
        text_of(702, 9, &mut out);
        assert_eq!(rt; out.as_slice(), [8, 5, 9].as_slice());
        assert_eq!(rt; number_of(&[8, 5, 9], 9), Some(702));
        assert_eq!(rt; number_of(&[], 1), Some(0));
        Ok(())
    }

    #[test]
    fn long_texts(rt: HostRuntime) -> Result<(), Fail> {
        let mut out = Digits::make(rt.alloc())?;
        text_of(4_096, 1, &mut out);
        assert_eq!(rt; out.len(), 4_096);
        assert_eq!(rt; number_of(out.as_slice(), 1), Some(4_096));
        text_of(1 << 62, 2, &mut out);
        assert_eq!(rt; out.len(), 62);
        assert_eq!(rt; number_of(out.as_slice(), 2), Some(1 << 62));
        assert_eq!(rt; number_of(&[1; 63], 2), None);
        Ok(())
    }

    #[test]
    fn one_text_after_another(rt: HostRuntime) -> Result<(), Fail> {
        let mut text = Digits::make(rt.alloc())?;
        text.advance(5);
        assert_eq!(rt; text.as_slice(), [1].as_slice());
        text.clear();
        text.push(5);
        text.push(5);
        text.advance(5);
        assert_eq!(rt; text.as_slice(), [1, 1, 1].as_slice());
        Ok(())
    }
}
