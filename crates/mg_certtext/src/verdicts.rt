//! The texts of verdicts.
ghost use Rattle.std.specs.Prelude.{◌≡◌, [], ◌∷◌, ◌++◌, IfOk, OnOk};
ghost use Rattle.mg_certs.specs.Claim.{affirmed, derivation};
ghost use Rattle.mg_certs.specs.Values.{model_value, verdict_of};
ghost use Rattle.mg_certtext.specs.Pieces.{spaced};
ghost use Rattle.mg_certtext.specs.Verdicts.{symbol_piece, no_text, verdict_text};

use crate::logs::print_log;
use crate::models::push_model;
use crate::pieces::{push_bytes, push_count, push_piece};
use crate::signs::push_sign;
use crate::words::push_run;
use mg_certs::{No, Verdict, Yes};
use mg_derive::{Derivation, Symbol};
use mg_lists::{List, NoMemory};
use std::alloc::Global;

/// Pushes a symbol of a derivation.
fn push_symbol(
    alloc: Global,
    out: &mut Vec<u8>,
    names: &[List<u8>],
    symbol: Symbol,
) -> Result<(), NoMemory>
    ensures { OnOk result (out.new.items
        ≡ out.old.items ++ spaced (symbol_piece names.now symbol ∷ [])) }
{
    match symbol {
        Symbol::Letter(letter) => push_run(alloc, out, names, letter, 1),
        Symbol::Relator { place, inverse } => push_sign(alloc, out, b"r", place, b"", inverse),
        Symbol::Member { place, inverse } => push_sign(alloc, out, b"[", place, b"]", inverse),
        Symbol::Cut => push_piece(out, b";"),
    }
}

/// The text of YES with a derivation.
fn print_derivation(
    alloc: Global,
    text: &Derivation,
    names: &[List<u8>],
) -> Result<Vec<u8>, NoMemory>
    ensures { IfOk result (λ printed. printed.items
        ≡ verdict_text names.now (affirmed (derivation text.now.symbols))) }
{
    let mut out = Vec::new(alloc);
    push_bytes(&mut out, b"yes derivation")?;
    for symbol in text.symbols() {
        push_symbol(alloc, &mut out, names, *symbol)?;
    }
    Ok(out)
}

/// The text of NO: the goal, counted from 1, and the model.
fn print_no(alloc: Global, no: &No, names: &[List<u8>]) -> Result<Vec<u8>, NoMemory>
    ensures { IfOk result (λ printed. printed.items
        ≡ no_text names.now no.now.goal (model_value no.now.model)) }
{
    let mut out = Vec::new(alloc);
    push_bytes(&mut out, b"no")?;
    push_count(alloc, &mut out, b"goal", no.goal as u128 + 1)?;
    push_model(alloc, &mut out, names, &no.model)?;
    Ok(out)
}

/// The text of a verdict, where the generators have these names in order. It has no end of a line.
pub fn print(alloc: Global, verdict: &Verdict, names: &[List<u8>]) -> Result<Vec<u8>, NoMemory>
    ensures { IfOk result (λ printed. printed.items
        ≡ verdict_text names.now (verdict_of verdict.now)) }
{
    match verdict {
        Verdict::Yes(Yes::Derivation(text)) => print_derivation(alloc, text, names),
        Verdict::Yes(Yes::RuleLog(log)) => print_log(alloc, log, names),
        Verdict::No(no) => print_no(alloc, no, names),
    }
}
