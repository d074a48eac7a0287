//! The limits of the session language.

/// The most bytes of a line, its end left out.
pub const LINE_LIMIT: usize = 65_536;

/// The most bytes of a name.
pub const NAME_LIMIT: u32 = 32;

/// The largest number, 2^62.
pub const NUMBER_LIMIT: u64 = 4_611_686_018_427_387_904;
