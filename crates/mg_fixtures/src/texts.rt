//! Letters, words and lists of words.
use mg_words::{Letter, Word, Words};
use std::alloc::Global;
use std::str::SplitWhitespace;

/// The letter that is written so: `a` to `z` are the first 26 generators, `A` to `Z` their inverses.
pub fn letter(byte: u8) -> Option<Letter> {
    match byte {
        b'a'..=b'z' => Some(Letter {
            generator: byte - b'a' + 1,
            inverse: false,
        }),
        b'A'..=b'Z' => Some(Letter {
            generator: byte - b'A' + 1,
            inverse: true,
        }),
        _ => None,
    }
}

/// The word with the letters of the text, whose other bytes are passed over: `1` is the empty word. It
/// is shorter where memory fails.
pub fn word(alloc: Global, text: &str) -> Word {
    power(alloc, text, 1)
}

/// The letters of the text so many times.
pub fn power(alloc: Global, text: &str, count: u32) -> Word {
    let mut word = Word::new(alloc);
    for _ in 0..count {
        for byte in text.bytes() {
            if let Some(letter) = letter(byte) {
                let _ = word.push_all(&[letter]);
            }
        }
    }
    word
}

/// The words that are written with spaces between them. They are fewer where memory fails.
pub fn words(alloc: Global, text: &str) -> Words {
    each_word(alloc, text.split_whitespace())
}

// The words that are still to be read.
pub(crate) fn each_word(alloc: Global, parts: SplitWhitespace<'_>) -> Words {
    let mut words = Words::new(alloc);
    for part in parts {
        let _ = words.push(word(alloc, part));
    }
    words
}

/// So many copies of the word.
pub fn copies(alloc: Global, text: &str, count: u32) -> Words {
    let mut words = Words::new(alloc);
    for _ in 0..count {
        let _ = words.push(word(alloc, text));
    }
    words
}

/// Whether this is the word that is written so.
pub fn is_word(alloc: Global, found: &Word, text: &str) -> bool {
    *found == word(alloc, text)
}

/// Whether these are the words that are written so.
pub fn are_words(alloc: Global, found: &Words, text: &str) -> bool {
    *found == words(alloc, text)
}

/// The part of the text at this place, from 0, where bars stand between parts; without the spaces
/// around it. Behind the last part all are empty.
pub fn part(text: &str, place: usize) -> &str {
    match text.split('|').nth(place) {
        Some(part) => part.trim(),
        None => "",
    }
}
