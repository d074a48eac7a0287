//! How a turn ends.
ghost use Rattle.std.specs.Prelude.{◌≡◌, ℕ, ◌+◌, ◌*◌, ◌<◌, ◌≤◌, length, Option, IfOk};
ghost use Rattle.mg_tables.specs.Table.{IsComplete};
ghost use Rattle.mg_turn.specs.declared.bounds.TheConstants.{MOST_ENTRIES};
ghost use Rattle.mg_turn.specs.Stops.{StopsBy};
ghost use Rattle.mg_turn.specs.Turn.{goes_on as goes_on_at};
ghost use Rattle.mg_certs.specs.Claim.{Fact, action};
ghost use Rattle.mg_certs.specs.Validity.{AcceptedModel};
ghost use Rattle.mg_cosets.specs.Cosets.{Cosets, CosetsEnd, IsActionOf};

use crate::records::{modelled, refuted};
use crate::turning::Grown;
use mg_action::Action;
use mg_certs::{Claim, Model};
use mg_core::NoMemory;
use mg_present::Ask;
use mg_tables::CosetEnumeration;
use mg_turn::{Limit, MOST_ENTRIES, TurnEnd};
use std::alloc::Global;

// Whether a search goes on after a turn with this end.
pub(crate) fn goes_on(end: &TurnEnd<Claim>) -> bool
    ensures { result ≡ goes_on_at end.now }
{
    match end {
        TurnEnd::More | TurnEnd::Idle | TurnEnd::Stopped(_) => true,
        _ => false,
    }
}

// How a turn ends whose table has an empty entry.
fn open_end(grown: &Grown, units: u64) -> TurnEnd<Claim>
    requires open { IsComplete grown.now.enumeration.group.generators
        grown.now.enumeration.table → ⊥ }
    requires within { grown.now.spent ≤ units }
    requires full { grown.now.spent < units → MOST_ENTRIES <
        (length grown.now.enumeration.table + 1) *
        (2 * grown.now.enumeration.group.generators) }
    ensures end { (after : Cosets) → after.ask.group ≡ grown.now.enumeration.group →
        after.table ≡ grown.now.enumeration.table →
        CosetsEnd after units grown.now.spent result }
    ensures unstopped { (known : Option Fact) → StopsBy result known }
{
    if grown.spent == units {
        return TurnEnd::More;
    }
    TurnEnd::Full {
        what: Limit::Entries,
        count: MOST_ENTRIES,
    }
}

// The action of a table without an empty entry.
#[tactic(auto, using(crate::proofs::Imaging::some_cut, crate::proofs::Imaging::action_made, crate::proofs::Imaging::model_made))]
fn table_action(alloc: Global, enumeration: &CosetEnumeration) -> Result<Action, NoMemory>
    requires { IsComplete enumeration.now.group.generators enumeration.now.table }
    ensures action_of { IfOk result (λ act.
        IsActionOf enumeration.now.group.generators enumeration.now.table act) }
    ensures of_group { IfOk result (λ act. AcceptedModel enumeration.now.group (action act)) }
{
    let _ = enumeration.group();
    let _ = enumeration.units();
    let images = enumeration.images(alloc)?;
    let act = Action::from_images(alloc, enumeration.rows(), &images)?;
    let _ = act.degree();
    Ok(act)
}

// What a search publishes whose table has no empty entry.
fn whole_end(alloc: Global, ask: &Ask, grown: &Grown) -> Result<TurnEnd<Claim>, NoMemory>
    requires complete { IsComplete grown.now.enumeration.group.generators
        grown.now.enumeration.table }
    requires group { grown.now.enumeration.group ≡ ask.now.group }
    ensures end { IfOk result (λ end. (after : Cosets) (units : ℕ) → after.ask ≡ ask.now →
        after.table ≡ grown.now.enumeration.table →
        CosetsEnd after units grown.now.spent end) }
    ensures unstopped { IfOk result (λ end. (known : Option Fact) → StopsBy end known) }
{
    let act = table_action(alloc, &grown.enumeration)?;
    let model = Model::Action(act);
    match model.first_refuted(alloc, ask)? {
        Some(goal) => Ok(TurnEnd::Found(refuted(alloc, ask, goal, model)?)),
        None => Ok(TurnEnd::Closed(modelled(alloc, ask, model)?)),
    }
}

// How a turn ends that left this table.
pub(crate) fn end_of(
    alloc: Global,
    ask: &Ask,
    grown: &Grown,
    units: u64,
) -> Result<TurnEnd<Claim>, NoMemory>
    requires group { grown.now.enumeration.group ≡ ask.now.group }
    requires within { grown.now.spent ≤ units }
    requires full { grown.now.spent < units →
        (IsComplete grown.now.enumeration.group.generators grown.now.enumeration.table → ⊥) →
        MOST_ENTRIES < (length grown.now.enumeration.table + 1) *
        (2 * grown.now.enumeration.group.generators) }
    ensures end { IfOk result (λ end. (after : Cosets) → after.ask ≡ ask.now →
        after.table ≡ grown.now.enumeration.table →
        CosetsEnd after units grown.now.spent end) }
    ensures unstopped { IfOk result (λ end. (known : Option Fact) → StopsBy end known) }
{
    if grown.enumeration.is_complete() {
        return whole_end(alloc, ask, grown);
    }
    Ok(open_end(grown, units))
}
