//! Words, read by their grammar and written out.

ghost use Rattle.std.specs.Prelude.{◌≡◌, ◌↔◌, ◌∷◌, ◌++◌, ◌+◌, ◌-◌, ◌*◌, ◌≤◌, ℕ, Bool, List as ListOf, IfOk, OnOk, IsTrue, length};
ghost use Rattle.mg_words.specs.Word.{power_of};
ghost use Rattle.mg_words.specs.declared.limits.TheConstants.{MOST_POWER_LETTERS};
ghost use Rattle.mg_names.specs.Named.{Named, Base, named, one, round, commutator, Factor, Word as WordTree, base_names, factor_names, word_names};
ghost use Rattle.mg_names.specs.Meaning.{signed, base_written, factor_written, written, value};
ghost use Rattle.mg_names.specs.Cause.{in_word};
ghost use Rattle.mg_names.specs.Sign.{Sign, the_number, minus_signs, star_signs, base_signs, factor_signs, word_signs, Stops};
ghost use Rattle.mg_names.specs.Least.{Gets};
ghost use Rattle.mg_names.specs.Reads.{IsRead, BaseFits, FactorFits, WordFits, IsNotTooLong, StartsWithoutCaret, IsWordAhead};

use crate::cursor::Cursor;
use crate::home::Home;
use crate::least::Found;
use mg_lex::Mark;
use mg_words::{MOST_POWER_LETTERS, NoMemory, Word, WordFault, commutator, power, reduce};
use std::alloc::{AllocError, Global};

/// Reads a word, which means a reduced word in the group; its names show the causes that are found.
pub(crate) fn word(
    alloc: Global,
    cursor: &mut Cursor,
    home: &Home,
    found: &mut Found,
) -> Result<Word, NoMemory>
    requires { IsWordAhead cursor.old }
    ensures letters { (w : WordTree) (rest : ListOf Sign) → cursor.old ≡ word_signs w ++ rest →
        Stops rest →
        IfOk result (λ v. v.letters ≡ value home.now.names.now home.now.place home.now.generators.now w) }
    ensures rest { (w : WordTree) (rest : ListOf Sign) → cursor.old ≡ word_signs w ++ rest →
        Stops rest →
        OnOk result (cursor.new ≡ rest) }
    ensures causes { (w : WordTree) (rest : ListOf Sign) → cursor.old ≡ word_signs w ++ rest →
        Stops rest →
        OnOk result (Gets (in_word home.now.names.now home.now.place home.now.generators.now w) found.old found.new) }
{
    if cursor.is_name_alone() {
        let name = cursor.name();
        return home.name_alone(alloc, name, found);
    }
    let word = written_out(alloc, cursor, home, found)?;
    reduce(alloc, &word)
}

/// Reads a word that is no name alone.
fn written_out(
    alloc: Global,
    cursor: &mut Cursor,
    home: &Home,
    found: &mut Found,
) -> Result<Word, NoMemory>
    requires { IsWordAhead cursor.old }
    ensures { (w : WordTree) (rest : ListOf Sign) → cursor.old ≡ word_signs w ++ rest → Stops rest →
        IfOk result (λ v. IsRead home.now (word_names w)
        (written home.now.generators.now w) rest found.old v cursor.new found.new) }
{
    match product(alloc, cursor, home, found) {
        Ok(word) => Ok(word),
        Err(WordFault::NoMemory) => Err(AllocError),
        Err(WordFault::TooLong { .. }) => unreachable!(),
    }
}

/// Reads the factors of a word.
#[cycle(product)]
pub(crate) fn product(
    alloc: Global,
    cursor: &mut Cursor,
    home: &Home,
    found: &mut Found,
) -> Result<Word, WordFault>
    ensures read { (w : WordTree) (rest : ListOf Sign) → cursor.old ≡ word_signs w ++ rest →
        Stops rest →
        IfOk result (λ v. IsRead home.now (word_names w)
        (written home.now.generators.now w) rest found.old v cursor.new found.new) }
    ensures fits { (w : WordTree) (rest : ListOf Sign) → cursor.old ≡ word_signs w ++ rest →
        Stops rest →
        WordFits w → IsNotTooLong result }
    ensures shorter { length cursor.new ≤ length cursor.old - 1 }
{
    let mut word = factor(alloc, cursor, home, found)?;
    while cursor.goes_on() {
        skip_star(cursor);
        let next = factor(alloc, cursor, home, found)?;
        word.push_all(next.letters())?;
    }
    Ok(word)
}

/// Goes on behind a star, if there is one.
fn skip_star(cursor: &mut Cursor)
    ensures skipped { (star : Bool) (f : Factor) (rest : ListOf Sign) →
        cursor.old ≡ star_signs star ++ (factor_signs f ++ rest) →
        cursor.new ≡ factor_signs f ++ rest }
    ensures no_longer { length cursor.new ≤ length cursor.old }
{
    if cursor.is(Mark::Star) {
        cursor.skip();
    }
}

/// Reads a base, and its exponent if there is one.
#[cycle(product)]
fn factor(
    alloc: Global,
    cursor: &mut Cursor,
    home: &Home,
    found: &mut Found,
) -> Result<Word, WordFault>
    ensures read { (f : Factor) (rest : ListOf Sign) → cursor.old ≡ factor_signs f ++ rest →
        StartsWithoutCaret rest →
        IfOk result (λ v. IsRead home.now (factor_names f)
        (factor_written home.now.generators.now f) rest found.old v cursor.new found.new) }
    ensures fits { (f : Factor) (rest : ListOf Sign) → cursor.old ≡ factor_signs f ++ rest →
        StartsWithoutCaret rest →
        FactorFits f → IsNotTooLong result }
    ensures shorter { length cursor.new ≤ length cursor.old - 1 }
{
    let root = base(alloc, cursor, home, found)?;
    if cursor.is(Mark::Caret) {
        cursor.skip();
        let exponent = read_exponent(cursor);
        return raised(alloc, root, exponent);
    }
    Ok(root)
}

/// An exponent, by its sign and its size.
#[derive(Clone, Copy)]
struct Exponent {
    negative: bool,
    size: u64,
}

fn read_exponent(cursor: &mut Cursor) -> Exponent
    ensures read { (negative : Bool) (n : ℕ) (rest : ListOf Sign) →
        cursor.old ≡ minus_signs negative ++ the_number n ∷ rest →
        (result ≡ record { negative = negative; size = n }) × (cursor.new ≡ rest) }
    ensures no_longer { length cursor.new ≤ length cursor.old }
{
    let negative = cursor.is(Mark::Minus);
    if negative {
        cursor.skip();
    }
    let size = cursor.number();
    Exponent { negative, size }
}

/// The power of a word.
fn raised(alloc: Global, root: Word, exponent: Exponent) -> Result<Word, WordFault>
    ensures power { IfOk result (λ v.
        v.letters ≡ power_of (signed exponent.negative exponent.size) root.letters) }
    ensures fits { length root.letters * exponent.size ≤ MOST_POWER_LETTERS → IsNotTooLong result }
{
    if root.letters().is_empty() {
        return Ok(root);
    }
    if exponent.size > MOST_POWER_LETTERS as u64 {
        let length = root.letters().len() as u128 * u128::from(exponent.size);
        return Err(WordFault::TooLong { length });
    }
    let size = exponent.size as i64;
    if exponent.negative {
        power(alloc, &root, -size)
    } else {
        power(alloc, &root, size)
    }
}

/// Reads a name, the number 1, a word in parentheses or a commutator.
#[cycle(product)]
fn base(
    alloc: Global,
    cursor: &mut Cursor,
    home: &Home,
    found: &mut Found,
) -> Result<Word, WordFault>
    ensures read { (b : Base) (rest : ListOf Sign) → cursor.old ≡ base_signs b ++ rest →
        IfOk result (λ v. IsRead home.now (base_names b)
        (base_written home.now.generators.now b) rest found.old v cursor.new found.new) }
    ensures fits { (b : Base) (rest : ListOf Sign) → cursor.old ≡ base_signs b ++ rest →
        BaseFits b → IsNotTooLong result }
    ensures shorter { length cursor.new ≤ length cursor.old - 1 }
{
    if cursor.is(Mark::OpenRound) {
        return in_round(alloc, cursor, home, found);
    }
    if cursor.is(Mark::OpenSquare) {
        return in_square(alloc, cursor, home, found);
    }
    Ok(name_or_one(alloc, cursor, home, found)?)
}

/// Reads a name, or the number 1.
fn name_or_one(
    alloc: Global,
    cursor: &mut Cursor,
    home: &Home,
    found: &mut Found,
) -> Result<Word, NoMemory>
    ensures name { (n : Named) (rest : ListOf Sign) → cursor.old ≡ base_signs (named n) ++ rest →
        IfOk result (λ v. IsRead home.now (base_names (named n))
        (base_written home.now.generators.now (named n)) rest found.old v cursor.new found.new) }
    ensures one { (rest : ListOf Sign) → cursor.old ≡ base_signs one ++ rest →
        IfOk result (λ v. IsRead home.now (base_names one)
        (base_written home.now.generators.now one) rest found.old v cursor.new found.new) }
    ensures shorter { length cursor.new ≤ length cursor.old - 1 }
{
    if let Some(name) = cursor.take_name() {
        return home.letter(alloc, name, found);
    }
    cursor.skip();
    Ok(Word::new(alloc))
}

/// Reads a word in parentheses.
#[cycle(product)]
fn in_round(
    alloc: Global,
    cursor: &mut Cursor,
    home: &Home,
    found: &mut Found,
) -> Result<Word, WordFault>
    requires { 1 ≤ length cursor.old }
    ensures read { (w : WordTree) (rest : ListOf Sign) → cursor.old ≡ base_signs (round w) ++ rest →
        IfOk result (λ v. IsRead home.now (base_names (round w))
        (base_written home.now.generators.now (round w)) rest found.old v cursor.new found.new) }
    ensures fits { (w : WordTree) (rest : ListOf Sign) →
        cursor.old ≡ base_signs (round w) ++ rest → BaseFits (round w) → IsNotTooLong result }
    ensures shorter { length cursor.new ≤ length cursor.old - 1 }
{
    cursor.skip();
    let inner = product(alloc, cursor, home, found)?;
    cursor.skip();
    Ok(inner)
}

/// Reads a commutator.
#[cycle(product)]
fn in_square(
    alloc: Global,
    cursor: &mut Cursor,
    home: &Home,
    found: &mut Found,
) -> Result<Word, WordFault>
    requires { 1 ≤ length cursor.old }
    ensures read { (u w : WordTree) (rest : ListOf Sign) →
        cursor.old ≡ base_signs (commutator u w) ++ rest →
        IfOk result (λ v. IsRead home.now (base_names (commutator u w))
        (base_written home.now.generators.now (commutator u w)) rest found.old v cursor.new found.new) }
    ensures fits { (u w : WordTree) (rest : ListOf Sign) →
        cursor.old ≡ base_signs (commutator u w) ++ rest → BaseFits (commutator u w) →
        IsNotTooLong result }
    ensures shorter { length cursor.new ≤ length cursor.old - 1 }
{
    cursor.skip();
    let left = product(alloc, cursor, home, found)?;
    cursor.skip();
    let right = product(alloc, cursor, home, found)?;
    cursor.skip();
    Ok(commutator(alloc, &left, &right)?)
}
