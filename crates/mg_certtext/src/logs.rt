//! The text of YES by a log of rules. Where memory is wanting, a part of it may be there.
ghost use Rattle.std.specs.Prelude.{◌≡◌, [], ◌∷◌, ◌++◌, IfOk, OnOk, map};
ghost use Rattle.std.specs.List.{flat_map};
ghost use Rattle.std.specs.Fmt.{decimal};
ghost use Rattle.mg_certtext.specs.Pieces.{spaced, more_listed};
ghost use Rattle.mg_certtext.specs.Signs.{relator_piece};
ghost use Rattle.mg_certtext.specs.Words.{run_piece};
ghost use Rattle.mg_certtext.specs.Logs.{at_place, move_pieces, moves_pieces, logged_pieces, goal_pieces, log_text};

use crate::pieces::{push_bytes, push_comma, push_count, push_number, push_piece};
use crate::signs::push_sign;
use crate::words::{push_run, push_word};
use mg_lists::{List, NoMemory};
use mg_rulelog::{LoggedRule, Move, Moves, RuleLog};
use mg_words::Letter;
use std::alloc::Global;

/// The text of YES with a log of rules.
pub(crate) fn print_log(
    alloc: Global,
    log: &RuleLog,
    names: &[List<u8>],
) -> Result<Vec<u8>, NoMemory>
    ensures { IfOk result (λ printed. printed.items ≡ log_text names.now log.now) }
{
    let mut out = Vec::new(alloc);
    push_bytes(&mut out, b"yes rulelog")?;
    push_rules(alloc, &mut out, names, log.rules.as_slice())?;
    push_goals(alloc, &mut out, names, log.goals.as_slice())?;
    Ok(out)
}

/// Pushes rules with their moves.
fn push_rules(
    alloc: Global,
    out: &mut Vec<u8>,
    names: &[List<u8>],
    rules: &[LoggedRule],
) -> Result<(), NoMemory>
    ensures { OnOk result (out.new.items
        ≡ out.old.items ++ spaced (flat_map (logged_pieces names.now) rules.now)) }
{
    for rule in rules {
        push_rule(alloc, out, names, rule)?;
    }
    Ok(())
}

/// Pushes a rule with the moves that show it.
fn push_rule(
    alloc: Global,
    out: &mut Vec<u8>,
    names: &[List<u8>],
    rule: &LoggedRule,
) -> Result<(), NoMemory>
    ensures { OnOk result (out.new.items
        ≡ out.old.items ++ spaced (logged_pieces names.now rule.now)) }
{
    push_piece(out, b"rule")?;
    push_word(alloc, out, names, &rule.left)?;
    push_piece(out, b"->")?;
    push_word(alloc, out, names, &rule.right)?;
    push_piece(out, b":")?;
    push_moves(alloc, out, names, rule.moves.as_slice())?;
    push_piece(out, b";")
}

/// Pushes the moves of each goal.
fn push_goals(
    alloc: Global,
    out: &mut Vec<u8>,
    names: &[List<u8>],
    goals: &[Moves],
) -> Result<(), NoMemory>
    ensures { OnOk result (out.new.items
        ≡ out.old.items ++ spaced (flat_map (goal_pieces names.now) goals.now)) }
{
    for moves in goals {
        push_goal(alloc, out, names, moves.as_slice())?;
    }
    Ok(())
}

/// Pushes the moves of a goal.
fn push_goal(
    alloc: Global,
    out: &mut Vec<u8>,
    names: &[List<u8>],
    moves: &[Move],
) -> Result<(), NoMemory>
    ensures { OnOk result (out.new.items
        ≡ out.old.items ++ spaced (goal_pieces names.now moves.now)) }
{
    push_piece(out, b"goal")?;
    push_moves(alloc, out, names, moves)?;
    push_piece(out, b";")
}

/// Pushes moves with commas between them.
fn push_moves(
    alloc: Global,
    out: &mut Vec<u8>,
    names: &[List<u8>],
    moves: &[Move],
) -> Result<(), NoMemory>
    ensures { OnOk result (out.new.items
        ≡ out.old.items ++ spaced (moves_pieces names.now moves.now)) }
{
    match moves {
        [] => Ok(()),
        [first, others @ ..] => {
            push_move(alloc, out, names, *first)?;
            push_more_moves(alloc, out, names, others)
        }
    }
}

/// Pushes moves that stand behind others.
fn push_more_moves(
    alloc: Global,
    out: &mut Vec<u8>,
    names: &[List<u8>],
    moves: &[Move],
) -> Result<(), NoMemory>
    ensures { OnOk result (out.new.items
        ≡ out.old.items ++ spaced (more_listed (map (move_pieces names.now) moves.now))) }
{
    for told in moves {
        push_comma(out)?;
        push_move(alloc, out, names, *told)?;
    }
    Ok(())
}

/// Pushes a move.
fn push_move(
    alloc: Global,
    out: &mut Vec<u8>,
    names: &[List<u8>],
    told: Move,
) -> Result<(), NoMemory>
    ensures { OnOk result (out.new.items
        ≡ out.old.items ++ spaced (move_pieces names.now told)) }
{
    match told {
        Move::InPair { letter, place } => push_letter(alloc, out, names, b"in", letter, place),
        Move::OutPair { letter, place } => push_letter(alloc, out, names, b"out", letter, place),
        Move::InRelator {
            relator,
            inverse,
            place,
        } => push_relator(alloc, out, b"in", relator, inverse, place),
        Move::OutRelator {
            relator,
            inverse,
            place,
        } => push_relator(alloc, out, b"out", relator, inverse, place),
        Move::By { rule, place } => push_use(alloc, out, b"by", rule, place),
        Move::Back { rule, place } => push_use(alloc, out, b"back", rule, place),
    }
}

/// Pushes a move of a letter and its inverse.
fn push_letter(
    alloc: Global,
    out: &mut Vec<u8>,
    names: &[List<u8>],
    title: &[u8],
    letter: Letter,
    place: u32,
) -> Result<(), NoMemory>
    ensures { OnOk result (out.new.items
        ≡ out.old.items ++ spaced (at_place title.now (run_piece names.now (letter, 1)) place)) }
{
    push_piece(out, title)?;
    push_run(alloc, out, names, letter, 1)?;
    push_number(alloc, out, place as u128)
}

/// Pushes a move of a relator or its inverse.
fn push_relator(
    alloc: Global,
    out: &mut Vec<u8>,
    title: &[u8],
    relator: u32,
    inverse: bool,
    place: u32,
) -> Result<(), NoMemory>
    ensures { OnOk result (out.new.items
        ≡ out.old.items ++ spaced (at_place title.now (relator_piece relator inverse) place)) }
{
    push_piece(out, title)?;
    push_sign(alloc, out, b"r", relator, b"", inverse)?;
    push_number(alloc, out, place as u128)
}

/// Pushes a move by a rule.
fn push_use(
    alloc: Global,
    out: &mut Vec<u8>,
    title: &[u8],
    rule: u32,
    place: u32,
) -> Result<(), NoMemory>
    ensures { OnOk result (out.new.items
        ≡ out.old.items ++ spaced (at_place title.now (decimal rule) place)) }
{
    push_count(alloc, out, title, rule as u128)?;
    push_number(alloc, out, place as u128)
}
