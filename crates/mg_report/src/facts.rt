//! The text of the facts of a log.
ghost use Rattle.std.specs.Prelude.{◌≡◌, ◌+◌, ◌++◌, IfOk, OnOk, map, codes};
ghost use Rattle.std.specs.Fmt.{decimal};
ghost use Rattle.mg_certs.specs.Claim.{settled, model_of};
ghost use Rattle.mg_certs.specs.Values.{model_value, verdict_of};
ghost use Rattle.mg_report.specs.Log.{numbered, standard_names, fact_line, model_line, fact_text, facts_text};
ghost use Rattle.mg_report.specs.Values.{fact_of};

use crate::asks::{push_ask, push_group, push_verdict};
use mg_certs::{Model, Verdict};
use mg_certtext::{push_bytes, push_model, push_number, push_piece};
use mg_lists::{List, NoMemory};
use mg_present::{Ask, Presentation};
use std::alloc::Global;

/// A fact of a log.
#[derive(Clone, Copy, Debug)]
pub enum FactBlock<'a> {
    /// What is asked is settled by the verdict.
    Settled(&'a Ask, &'a Verdict),
    /// The model is one of the group.
    ModelOf(&'a Presentation, &'a Model),
}

/// The text of these facts, numbered from 1, with generators named x1, x2 and so on.
pub fn report_facts(alloc: Global, facts: &[FactBlock]) -> Result<Vec<u8>, NoMemory>
    ensures { IfOk result (λ text. text.items ≡ facts_text (map fact_of facts.now)) }
{
    let mut out = Vec::new(alloc);
    push_bytes(&mut out, b"facts\n")?;
    push_facts(alloc, &mut out, facts)?;
    push_bytes(&mut out, b"end\n")?;
    Ok(out)
}

/// Pushes the lines of facts, numbered from 1.
fn push_facts(alloc: Global, out: &mut Vec<u8>, facts: &[FactBlock]) -> Result<(), NoMemory>
    ensures { OnOk result (out.new.items
        ≡ out.old.items ++ numbered fact_text 1 (map fact_of facts.now)) }
{
    for (place, fact) in facts.iter().enumerate() {
        push_fact(alloc, out, place as u64 + 1, fact)?;
    }
    Ok(())
}

/// Pushes the lines of a fact with its number.
fn push_fact(
    alloc: Global,
    out: &mut Vec<u8>,
    number: u64,
    fact: &FactBlock,
) -> Result<(), NoMemory>
    ensures { OnOk result (out.new.items ≡ out.old.items ++ fact_text number (fact_of fact.now)) }
{
    match *fact {
        FactBlock::Settled(ask, verdict) => push_settled(alloc, out, number, ask, verdict),
        FactBlock::ModelOf(group, model) => push_model_of(alloc, out, number, group, model),
    }
}

/// Pushes the lines of an Ask with its verdict.
fn push_settled(
    alloc: Global,
    out: &mut Vec<u8>,
    number: u64,
    ask: &Ask,
    verdict: &Verdict,
) -> Result<(), NoMemory>
    ensures { OnOk result (out.new.items
        ≡ out.old.items ++ fact_text number (settled ask.now (verdict_of verdict.now))) }
{
    let names = numbered_names(alloc, ask.group().generators())?;
    push_fact_line(alloc, out, number, b"settled")?;
    push_ask(alloc, out, names.as_slice(), ask)?;
    push_verdict(alloc, out, names.as_slice(), verdict)
}

/// Pushes the lines of a group with a model of it.
fn push_model_of(
    alloc: Global,
    out: &mut Vec<u8>,
    number: u64,
    group: &Presentation,
    model: &Model,
) -> Result<(), NoMemory>
    ensures { OnOk result (out.new.items
        ≡ out.old.items ++ fact_text number (model_of group.now (model_value model.now))) }
{
    let names = numbered_names(alloc, group.generators())?;
    push_fact_line(alloc, out, number, b"model")?;
    push_group(alloc, out, names.as_slice(), group.relators().as_slice())?;
    push_model_line(alloc, out, names.as_slice(), model)
}

/// Pushes the line that says which fact it is, and of which kind.
fn push_fact_line(
    alloc: Global,
    out: &mut Vec<u8>,
    number: u64,
    kind: &[u8],
) -> Result<(), NoMemory>
    ensures { OnOk result (out.new.items ≡ out.old.items ++ fact_line number kind.now) }
{
    push_bytes(out, b"fact")?;
    push_number(alloc, out, number as u128)?;
    push_piece(out, kind)?;
    push_bytes(out, b"\n")
}

/// Pushes the line of a model.
#[tactic(auto, unfolding(crate::specs::Log::model_line))]
fn push_model_line(
    alloc: Global,
    out: &mut Vec<u8>,
    names: &[List<u8>],
    model: &Model,
) -> Result<(), NoMemory>
    ensures { OnOk result (out.new.items
        ≡ out.old.items ++ model_line names.now (model_value model.now)) }
{
    push_bytes(out, b"model")?;
    push_model(alloc, out, names, model)?;
    push_bytes(out, b"\n")
}

/// The names x1, x2 and so on of so many generators.
fn numbered_names(alloc: Global, generators: u32) -> Result<List<List<u8>>, NoMemory>
    ensures { IfOk result (λ names. names ≡ standard_names generators) }
{
    let mut names = List::new(alloc);
    for place in 0..generators {
        names.push(numbered_name(alloc, place + 1)?)?;
    }
    Ok(names)
}

/// The letter x with this number behind it.
fn numbered_name(alloc: Global, number: u32) -> Result<List<u8>, NoMemory>
    ensures { IfOk result (λ name. name ≡ codes "x" ++ decimal number) }
{
    let digits = number.to_string(alloc)?;
    let mut name = List::new(alloc);
    name.push(b'x')?;
    for digit in digits.as_bytes() {
        name.push(*digit)?;
    }
    Ok(name)
}
