//! The pieces of words and of lists of words.
ghost use Rattle.std.specs.Prelude.{◌≡◌, [], ◌∷◌, ◌++◌, OnOk, OnErr, map};
ghost use Rattle.std.specs.Ordering.{int_eq};
ghost use Rattle.mg_words.specs.Word.{letters_of};
ghost use Rattle.mg_certtext.specs.Pieces.{spaced, more_listed, Extends};
ghost use Rattle.mg_certtext.specs.Words.{name_of, run_piece, runs_of, word_pieces, words_pieces, names_pieces};

use crate::pieces::{all_or_nothing, push_bytes, push_comma, push_decimal, push_piece};
use mg_lists::{List, NoMemory};
use mg_words::{Letter, Word};
use std::alloc::Global;

/// The name of a letter's generator.
fn generator_name(names: &[List<u8>], letter: Letter) -> &[u8]
    ensures { result.now ≡ name_of names.now letter }
{
    match names.get(letter.generator as usize - 1) {
        Some(name) => name.as_slice(),
        None => &[],
    }
}

// Pushes one letter, written this many times in a row, as a piece.
pub(crate) fn push_run(
    alloc: Global,
    out: &mut Vec<u8>,
    names: &[List<u8>],
    letter: Letter,
    count: u64,
) -> Result<(), NoMemory>
    ensures pushed { OnOk result (out.new.items
        ≡ out.old.items ++ spaced (run_piece names.now (letter, count) ∷ [])) }
    ensures part { OnErr result (Extends out.old.items out.new.items) }
{
    push_piece(out, generator_name(names, letter))?;
    if letter.inverse {
        push_bytes(out, b"^-")?;
    } else if count == 1 {
        return Ok(());
    } else {
        push_bytes(out, b"^")?;
    }
    push_decimal(alloc, out, count as u128)
}

fn is_same(a: Letter, b: Letter) -> bool
    ensures { result ≡ int_eq a b }
{
    a.generator == b.generator && a.inverse == b.inverse
}

/// Pushes the runs of a word that begins with this letter.
fn push_runs(
    alloc: Global,
    out: &mut Vec<u8>,
    names: &[List<u8>],
    first: Letter,
    rest: &[Letter],
) -> Result<(), NoMemory>
    ensures pushed { OnOk result (out.new.items
        ≡ out.old.items ++ spaced (map (run_piece names.now) (runs_of (first ∷ rest.now)))) }
    ensures part { OnErr result (Extends out.old.items out.new.items) }
{
    let mut run = first;
    let mut count = 1;
    for letter in rest {
        let same = is_same(run, *letter);
        if same {
            count += 1;
        } else {
            push_run(alloc, out, names, run, count)?;
            run = *letter;
            count = 1;
        }
    }
    push_run(alloc, out, names, run, count)
}

// Pushes the pieces of a word.
pub(crate) fn push_word(
    alloc: Global,
    out: &mut Vec<u8>,
    names: &[List<u8>],
    word: &Word,
) -> Result<(), NoMemory>
    ensures pushed { OnOk result (out.new.items
        ≡ out.old.items ++ spaced (word_pieces names.now word.now.letters)) }
    ensures part { OnErr result (Extends out.old.items out.new.items) }
{
    match word.letters() {
        [] => push_piece(out, b"1"),
        [first, rest @ ..] => push_runs(alloc, out, names, *first, rest),
    }
}

/// Pushes a list of words, each piece behind a space, where the generators have these names in order.
pub fn push_words(
    alloc: Global,
    out: &mut Vec<u8>,
    names: &[List<u8>],
    words: &[Word],
) -> Result<(), NoMemory>
    ensures pushed { OnOk result (out.new.items
        ≡ out.old.items ++ spaced (words_pieces names.now (letters_of words.now))) }
    ensures kept { OnErr result (out.new.items ≡ out.old.items) }
{
    let length = out.len();
    let pushed = push_listed_words(alloc, out, names, words);
    all_or_nothing(out, length, pushed)
}

/// Pushes a list of words; where memory is wanting, a part of it may be there.
fn push_listed_words(
    alloc: Global,
    out: &mut Vec<u8>,
    names: &[List<u8>],
    words: &[Word],
) -> Result<(), NoMemory>
    ensures pushed { OnOk result (out.new.items
        ≡ out.old.items ++ spaced (words_pieces names.now (letters_of words.now))) }
    ensures part { OnErr result (Extends out.old.items out.new.items) }
{
    match words {
        [] => Ok(()),
        [first, others @ ..] => {
            push_word(alloc, out, names, first)?;
            push_more_words(alloc, out, names, others)
        }
    }
}

/// Pushes words that stand behind others in a list.
fn push_more_words(
    alloc: Global,
    out: &mut Vec<u8>,
    names: &[List<u8>],
    words: &[Word],
) -> Result<(), NoMemory>
    ensures pushed { OnOk result (out.new.items ≡ out.old.items
        ++ spaced (more_listed (map (word_pieces names.now) (letters_of words.now)))) }
    ensures part { OnErr result (Extends out.old.items out.new.items) }
{
    for word in words {
        push_comma(out)?;
        push_word(alloc, out, names, word)?;
    }
    Ok(())
}

/// Pushes a list of generators, each piece behind a space.
pub fn push_names(out: &mut Vec<u8>, names: &[List<u8>]) -> Result<(), NoMemory>
    ensures pushed { OnOk result (out.new.items
        ≡ out.old.items ++ spaced (names_pieces names.now)) }
    ensures kept { OnErr result (out.new.items ≡ out.old.items) }
{
    let length = out.len();
    let pushed = push_listed_names(out, names);
    all_or_nothing(out, length, pushed)
}

/// Pushes a list of generators; where memory is wanting, a part of it may be there.
fn push_listed_names(out: &mut Vec<u8>, names: &[List<u8>]) -> Result<(), NoMemory>
    ensures pushed { OnOk result (out.new.items
        ≡ out.old.items ++ spaced (names_pieces names.now)) }
    ensures part { OnErr result (Extends out.old.items out.new.items) }
{
    match names {
        [] => Ok(()),
        [first, others @ ..] => {
            push_piece(out, first.as_slice())?;
            push_more_names(out, others)
        }
    }
}

/// Pushes generators that stand behind others in a list.
fn push_more_names(out: &mut Vec<u8>, names: &[List<u8>]) -> Result<(), NoMemory>
    ensures pushed { OnOk result (out.new.items
        ≡ out.old.items ++ spaced (more_listed (map (λ name. name ∷ []) names.now))) }
    ensures part { OnErr result (Extends out.old.items out.new.items) }
{
    for name in names {
        push_comma(out)?;
        push_piece(out, name.as_slice())?;
    }
    Ok(())
}
