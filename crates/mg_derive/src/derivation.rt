//! Derivations as values.
ghost use Rattle.std.specs.Prelude.{◌≡◌, ◌≤◌, ◌<◌, [], ◌∷◌, ◌++◌, IfOk, None, length, option_to_list};

use crate::symbol::Symbol;
use mg_words::NoMemory;
use std::alloc::Global;
use std::marker::Model;

/// A text of symbols, with spare room that doesn't count when it is copied.
#[derive(Debug, Drop)]
pub struct Derivation {
    symbols: Vec<Symbol>,
}

impl Model for Derivation {
    ghost use Rattle.std.specs.Prelude.{vec_capacity};
    ghost use Rattle.mg_derive.specs.Room.{Text};

    ghost Value = { Text };

    ghost view = { λ d. record { symbols = d.symbols.items; capacity = vec_capacity d.symbols } };
}

impl Derivation {
    /// The text of these symbols.
    pub fn from_symbols(alloc: Global, symbols: &[Symbol]) -> Result<Derivation, NoMemory>
        ensures { IfOk result (λ text. text.symbols ≡ symbols.now) }
    {
        Ok(Derivation {
            symbols: Vec::from_slice(alloc, symbols)?,
        })
    }

    /// The empty text, with room for this many symbols.
    pub fn with_room(alloc: Global, room: usize) -> Result<Derivation, NoMemory>
        ensures empty { IfOk result (λ text. text.symbols ≡ []) }
        ensures room { IfOk result (λ text. room ≤ text.capacity) }
    {
        Ok(Derivation {
            symbols: Vec::with_capacity(alloc, room)?,
        })
    }

    /// Lends the symbols in order.
    pub fn symbols(&self) -> &[Symbol]
        ensures { result.now ≡ self.now.symbols }
    {
        self.symbols.as_slice()
    }

    /// The same text.
    pub fn copy(&self, alloc: Global) -> Result<Derivation, NoMemory>
        ensures { IfOk result (λ text. text.symbols ≡ self.now.symbols) }
    {
        Derivation::from_symbols(alloc, self.symbols())
    }

    // Empties the text, and keeps its room.
    pub(crate) fn clear(&mut self)
        ensures empty { self.new.symbols ≡ [] }
        ensures capacity { self.old.capacity ≤ self.new.capacity }
    {
        self.symbols.clear();
    }

    // Appends a symbol, for which there is room.
    pub(crate) fn push(&mut self, symbol: Symbol)
        requires { length self.old.symbols < self.old.capacity }
        ensures symbols { self.new.symbols ≡ self.old.symbols ++ symbol ∷ [] }
        ensures capacity { self.new.capacity ≡ self.old.capacity }
    {
        self.symbols.push_reserved(symbol);
    }

    // Takes the last symbol off.
    pub(crate) fn pop(&mut self) -> Option<Symbol>
        ensures symbols { self.old.symbols ≡ self.new.symbols ++ option_to_list result }
        ensures none { result ≡ None → self.old.symbols ≡ [] }
        ensures capacity { self.new.capacity ≡ self.old.capacity }
    {
        self.symbols.pop()
    }
}
