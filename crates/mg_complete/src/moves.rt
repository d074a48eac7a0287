//! Reasons: lists of moves put together.
ghost use Rattle.std.specs.Prelude.{◌≡◌, ◌++◌, IfOk, OnOk};
ghost use Rattle.mg_rulelog.specs.declared.moves.Move.TheVariants.{By};
ghost use Rattle.mg_rulelog.specs.Moves.{undone, all_undone};
ghost use Rattle.mg_complete.specs.Equations.{by_each};

use mg_core::NoMemory;
use mg_rulelog::{Move, Moves};
use mg_rules::Rewriting;
use std::alloc::{AllocError, Global};

// The rewriting as a move; no memory where a number doesn't fit 32 bits.
fn by(one: Rewriting) -> Result<Move, NoMemory>
    ensures { IfOk result (λ step. step ≡ By one.rule one.place) }
{
    match (u32::try_from(one.rule), u32::try_from(one.place)) {
        (Ok(rule), Ok(place)) => Ok(Move::By { rule, place }),
        _ => Err(AllocError),
    }
}

// The move that undoes a move.
fn undone(step: Move) -> Move
    ensures { result ≡ undone step }
{
    match step {
        Move::InPair { letter, place } => Move::OutPair { letter, place },
        Move::OutPair { letter, place } => Move::InPair { letter, place },
        Move::InRelator {
            relator,
            inverse,
            place,
        } => Move::OutRelator {
            relator,
            inverse,
            place,
        },
        Move::OutRelator {
            relator,
            inverse,
            place,
        } => Move::InRelator {
            relator,
            inverse,
            place,
        },
        Move::By { rule, place } => Move::Back { rule, place },
        Move::Back { rule, place } => Move::By { rule, place },
    }
}

/// Appends the rewritings as moves.
pub(crate) fn push_by(moves: &mut Moves, told: &[Rewriting]) -> Result<(), NoMemory>
    ensures { OnOk result (moves.new ≡ moves.old ++ by_each told.now) }
{
    for one in told {
        moves.push(by(*one)?)?;
    }
    Ok(())
}

/// Appends the moves that undo these, the last one first.
pub(crate) fn push_undone(moves: &mut Moves, steps: &[Move]) -> Result<(), NoMemory>
    ensures { OnOk result (moves.new ≡ moves.old ++ all_undone steps.now) }
{
    let mut left = steps.len();
    while left > 0 {
        left -= 1;
        moves.push(undone(steps[left]))?;
    }
    Ok(())
}

/// The reason of a rule: back to the first word of an equation, by its own moves to the second one,
/// and on.
pub(crate) fn reason(
    alloc: Global,
    back: &[Rewriting],
    own: &[Move],
    on: &[Rewriting],
) -> Result<Moves, NoMemory>
    ensures { IfOk result (λ moves. moves ≡
        all_undone (by_each back.now) ++ (own.now ++ by_each on.now)) }
{
    let mut steps = Moves::new(alloc);
    push_by(&mut steps, back)?;
    let mut moves = Moves::new(alloc);
    push_undone(&mut moves, steps.as_slice())?;
    moves.extend_from_slice(own)?;
    push_by(&mut moves, on)?;
    Ok(moves)
}
