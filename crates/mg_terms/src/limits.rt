//! The limits of words.

use mg_words::MOST_POWER_LETTERS;

/// The most letters of a part of a word.
pub const WORD_LIMIT: u32 = MOST_POWER_LETTERS as u32;

/// The most brackets that may be open at once.
pub const DEPTH_LIMIT: usize = 256;
