//! Marks, the records.
ghost use Rattle.std.specs.Prelude.{◌≡◌};
ghost use Rattle.std.proofs.Common.{rules};
ghost use Rattle.std.proofs.lemmas.Map.Lookups.{exact_unsigned};
ghost use Rattle.mg_double.specs.Doubles.{marks};

use mg_core::{NoMemory, Record};
use std::alloc::Global;

/// A mark settles its number, or is a model of it.
#[derive(Debug, Drop, PartialEq)]
pub struct Mark {
    /// Whether it settles its number.
    pub settling: bool,
    /// Its number.
    pub number: u32,
}

impl Record for Mark {
    type Key = u32;

    type Group = u32;

    ghost recording = { marks };

    fn settles(&self) -> Option<&u32> {
        if self.settling {
            Some(&self.number)
        } else {
            None
        }
    }

    fn model_of(&self) -> Option<&u32> {
        if self.settling {
            None
        } else {
            Some(&self.number)
        }
    }

    fn copy(&self, _alloc: Global) -> Result<Mark, NoMemory> {
        Ok(Mark {
            settling: self.settling,
            number: self.number,
        })
    }

    ghost lawful = { record {
      exact_keys = exact_unsigned;
      exact_groups = exact_unsigned;
      one_of_both = λ m _. Prim.search rules;
    } };
}
