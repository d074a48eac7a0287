//! Reading a script.

ghost use Rattle.std.specs.Prelude.{◌≡◌, ℕ, ◌-◌, ◌<◌, ◌^◌, List, [], ◌∷◌, ◌++◌, length, Err, IfOk, OnOk};
ghost use Rattle.mg_script.specs.Count.{AreWithinLimits};
ghost use Rattle.mg_script.specs.Script.{IsScript, IsRefused};
ghost use Rattle.mg_script.specs.Parsed.{AreParsed, IsRefusedBehind};

use crate::counted::Counts;
use crate::line::read_line;
use crate::lines::Lines;
use crate::script::Script;
use mg_lex::Refused;
use mg_lists::NoMemory;
use std::alloc::Global;
use thiserror::Error;

/// Why bytes are no script.
#[derive(Debug, Drop, Error)]
pub enum ParseRefused {
    #[error("line {}, column {}: {:?}", .0.line, .0.column, .0.cause)]
    Refused(Refused),
    #[error("no memory")]
    NoMemory,
}

impl From<NoMemory> for ParseRefused {
    ghost use Rattle.mg_script.specs.declared.parsing.ParseRefused.TheVariants.{NoMemory};

    ghost from_gives = { λ _ refused. refused ≡ NoMemory };

    fn from(_: NoMemory) -> ParseRefused {
        ParseRefused::NoMemory
    }
}

/// The statements that the bytes are, or the first cause for which they are none: that on the least
/// line, there at the least column, and there the first in the order of causes.
pub fn parse(alloc: Global, bytes: &[u8]) -> Result<Script, ParseRefused>
    requires { length bytes.now < 2 ^ 32 - 1 }
    ensures script { IfOk result (IsScript bytes.now) }
    ensures refused { (r : Refused) → result ≡ Err (ParseRefused.Refused r) →
        IsRefused bytes.now r }
{
    let mut lines = Lines::of(bytes);
    let mut parser = Parser::new(alloc);
    while let Some(line) = lines.next() {
        parser.take(alloc, line)?;
    }
    Ok(parser.script)
}

/// What the lines that have been read hold.
#[derive(Drop)]
pub(crate) struct Parser {
    script: Script,
    counts: Counts,
    /// How many lines have been read.
    number: u32,
}

impl Parser {
    fn new(alloc: Global) -> Parser
        ensures { AreParsed [] result }
    {
        Parser {
            script: Script::new(alloc),
            counts: Counts::none(),
            number: 0,
        }
    }

    /// Reads one line more.
    fn take(&mut self, alloc: Global, line: &[u8]) -> Result<(), ParseRefused>
        requires short { length line.now < 2 ^ 32 - 1 }
        requires few { self.old.number < 2 ^ 32 - 1 }
        requires within { AreWithinLimits self.old.counts }
        ensures parsed { OnOk result ((front : List (List ℕ)) → AreParsed front self.old →
            AreParsed (front ++ line.now ∷ []) self.new) }
        ensures refused { (r : Refused) → result ≡ Err (ParseRefused.Refused r) →
            (front : List (List ℕ)) → AreParsed front self.old → IsRefusedBehind front line.now r }
    {
        self.number += 1;
        let Some(kept) = read_line(alloc, line, self.number, self.counts.anew())? else {
            return Ok(());
        };
        self.script.push(kept.line)?;
        self.counts = kept.counts;
        Ok(())
    }
}
