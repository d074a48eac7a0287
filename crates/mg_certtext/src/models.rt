//! The pieces of models.
ghost use Rattle.std.specs.Prelude.{◌≡◌, ◌++◌, ◌≤◌, ℕ, List, OnOk, OnErr, map};
ghost use Rattle.mg_action.specs.Layout.{AreImages};
ghost use Rattle.mg_certs.specs.Values.{model_value};
ghost use Rattle.mg_certtext.specs.Pieces.{spaced, listed, more_listed, Extends};
ghost use Rattle.mg_certtext.specs.Models.{numbers_pieces, action_pieces, residues_pieces, rule_pieces, rules_pieces, model_pieces};

use crate::pieces::{all_or_nothing, push_comma, push_count, push_number, push_piece};
use crate::words::push_word;
use mg_action::Action;
use mg_certs::Model;
use mg_cyclic::Residues;
use mg_lists::{List, NoMemory};
use mg_rules::{RulePair, Rules};
use std::alloc::Global;

/// Pushes a model, each piece behind a space, where the generators have these names in order.
pub fn push_model(
    alloc: Global,
    out: &mut Vec<u8>,
    names: &[List<u8>],
    model: &Model,
) -> Result<(), NoMemory>
    ensures pushed { OnOk result (out.new.items
        ≡ out.old.items ++ spaced (model_pieces names.now (model_value model.now))) }
    ensures kept { OnErr result (out.new.items ≡ out.old.items) }
{
    let length = out.len();
    let pushed = push_kind(alloc, out, names, model);
    all_or_nothing(out, length, pushed)
}

/// Pushes a model; where memory is wanting, a part of it may be there.
fn push_kind(
    alloc: Global,
    out: &mut Vec<u8>,
    names: &[List<u8>],
    model: &Model,
) -> Result<(), NoMemory>
    ensures pushed { OnOk result (out.new.items
        ≡ out.old.items ++ spaced (model_pieces names.now (model_value model.now))) }
    ensures part { OnErr result (Extends out.old.items out.new.items) }
{
    match model {
        Model::Action(action) => push_action(alloc, out, action),
        Model::Residues(residues) => push_residues(alloc, out, residues),
        Model::Complete(rules) => push_rules(alloc, out, names, rules),
    }
}

/// Pushes an action; where memory is wanting, a part of it may be there.
fn push_action(alloc: Global, out: &mut Vec<u8>, action: &Action) -> Result<(), NoMemory>
    ensures pushed { OnOk result (out.new.items
        ≡ out.old.items ++ spaced (action_pieces action.now)) }
    ensures part { OnErr result (Extends out.old.items out.new.items) }
{
    let degree = action.degree();
    push_count(alloc, out, b"action", degree as u128)?;
    push_piece(out, b":")?;
    push_images(alloc, out, degree, action.images())
}

/// Pushes a map to residues; where memory is wanting, a part of it may be there.
fn push_residues(alloc: Global, out: &mut Vec<u8>, residues: &Residues) -> Result<(), NoMemory>
    ensures pushed { OnOk result (out.new.items
        ≡ out.old.items ++ spaced (residues_pieces residues.now)) }
    ensures part { OnErr result (Extends out.old.items out.new.items) }
{
    push_count(alloc, out, b"residues", residues.modulus() as u128)?;
    push_piece(out, b":")?;
    push_numbers(alloc, out, residues.images())
}

/// Pushes the image lists of permutations of so many points, with commas between them.
fn push_images(
    alloc: Global,
    out: &mut Vec<u8>,
    degree: u32,
    images: &[u32],
) -> Result<(), NoMemory>
    requires points { 1 ≤ degree }
    requires perms { (perms : List (List ℕ)) × AreImages degree perms images.now }
    ensures pushed { (perms : List (List ℕ)) → AreImages degree perms images.now →
        OnOk result (out.new.items
        ≡ out.old.items ++ spaced (listed (map numbers_pieces perms))) }
    ensures part { OnErr result (Extends out.old.items out.new.items) }
{
    if images.is_empty() {
        return Ok(());
    }
    let (first, others) = images.split_at(degree as usize);
    push_numbers(alloc, out, first)?;
    push_more_images(alloc, out, degree, others)
}

/// Pushes image lists that stand behind others.
fn push_more_images(
    alloc: Global,
    out: &mut Vec<u8>,
    degree: u32,
    images: &[u32],
) -> Result<(), NoMemory>
    requires points { 1 ≤ degree }
    requires perms { (perms : List (List ℕ)) × AreImages degree perms images.now }
    ensures pushed { (perms : List (List ℕ)) → AreImages degree perms images.now →
        OnOk result (out.new.items
        ≡ out.old.items ++ spaced (more_listed (map numbers_pieces perms))) }
    ensures part { OnErr result (Extends out.old.items out.new.items) }
{
    for perm in images.chunks_exact(degree as usize) {
        push_comma(out)?;
        push_numbers(alloc, out, perm)?;
    }
    Ok(())
}

/// Pushes numbers, each behind a space.
fn push_numbers(alloc: Global, out: &mut Vec<u8>, numbers: &[u32]) -> Result<(), NoMemory>
    ensures pushed { OnOk result (out.new.items
        ≡ out.old.items ++ spaced (numbers_pieces numbers.now)) }
    ensures part { OnErr result (Extends out.old.items out.new.items) }
{
    for number in numbers {
        push_number(alloc, out, *number as u128)?;
    }
    Ok(())
}

/// Pushes a complete system; where memory is wanting, a part of it may be there.
fn push_rules(
    alloc: Global,
    out: &mut Vec<u8>,
    names: &[List<u8>],
    rules: &Rules,
) -> Result<(), NoMemory>
    ensures pushed { OnOk result (out.new.items
        ≡ out.old.items ++ spaced (rules_pieces names.now rules.now)) }
    ensures part { OnErr result (Extends out.old.items out.new.items) }
{
    push_piece(out, b"complete")?;
    push_piece(out, b":")?;
    push_pairs(alloc, out, names, rules.pairs())
}

/// Pushes rules with commas between them.
fn push_pairs(
    alloc: Global,
    out: &mut Vec<u8>,
    names: &[List<u8>],
    pairs: &[RulePair],
) -> Result<(), NoMemory>
    ensures pushed { OnOk result (out.new.items
        ≡ out.old.items ++ spaced (listed (map (rule_pieces names.now) pairs.now))) }
    ensures part { OnErr result (Extends out.old.items out.new.items) }
{
    match pairs {
        [] => Ok(()),
        [first, others @ ..] => {
            push_pair(alloc, out, names, first)?;
            push_more_pairs(alloc, out, names, others)
        }
    }
}

/// Pushes rules that stand behind others.
fn push_more_pairs(
    alloc: Global,
    out: &mut Vec<u8>,
    names: &[List<u8>],
    pairs: &[RulePair],
) -> Result<(), NoMemory>
    ensures pushed { OnOk result (out.new.items
        ≡ out.old.items ++ spaced (more_listed (map (rule_pieces names.now) pairs.now))) }
    ensures part { OnErr result (Extends out.old.items out.new.items) }
{
    for pair in pairs {
        push_comma(out)?;
        push_pair(alloc, out, names, pair)?;
    }
    Ok(())
}

/// Pushes a rule: its sides with an arrow between them.
fn push_pair(
    alloc: Global,
    out: &mut Vec<u8>,
    names: &[List<u8>],
    pair: &RulePair,
) -> Result<(), NoMemory>
    ensures pushed { OnOk result (out.new.items
        ≡ out.old.items ++ spaced (rule_pieces names.now pair.now)) }
    ensures part { OnErr result (Extends out.old.items out.new.items) }
{
    push_word(alloc, out, names, &pair.left)?;
    push_piece(out, b"->")?;
    push_word(alloc, out, names, &pair.right)
}
