//! How far a turn gets with its table.
ghost use Rattle.std.specs.Prelude.{◌≡◌, ◌+◌, ◌*◌, ◌<◌, ◌≤◌, length, IfOk};
ghost use Rattle.mg_tables.specs.Table.{IsComplete};
ghost use Rattle.mg_turn.specs.declared.bounds.TheConstants.{MOST_ENTRIES};

use mg_core::NoMemory;
use mg_tables::CosetEnumeration;
use std::alloc::Global;

// An enumeration, and how many rows were made for it.
#[derive(Debug, Drop)]
pub(crate) struct Grown {
    pub enumeration: CosetEnumeration,
    pub spent: u64,
}

// Makes rows until no entry is empty, the units are spent, or one more row would pass the limit.
pub(crate) fn grow(
    alloc: Global,
    enumeration: CosetEnumeration,
    units: u64,
) -> Result<Grown, NoMemory>
    ensures group { IfOk result (λ g. g.enumeration.group ≡ enumeration.group) }
    ensures subgroup { IfOk result (λ g. g.enumeration.subgroup ≡ enumeration.subgroup) }
    ensures units { IfOk result (λ g. g.enumeration.units ≡ enumeration.units + g.spent) }
    ensures within { IfOk result (λ g. g.spent ≤ units) }
    ensures full { IfOk result (λ g. g.spent < units →
        (IsComplete g.enumeration.group.generators g.enumeration.table → ⊥) →
        MOST_ENTRIES < (length g.enumeration.table + 1) *
        (2 * g.enumeration.group.generators)) }
{
    let mut enumeration = enumeration;
    let mut spent = 0;
    while spent < units && !enumeration.is_complete() && enumeration.fits_one_more() {
        enumeration = enumeration.make_row(alloc)?;
        spent += 1;
    }
    Ok(Grown { enumeration, spent })
}
