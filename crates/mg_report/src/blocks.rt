//! The text of a report.
ghost use Rattle.std.specs.Prelude.{◌≡◌, [], ◌∷◌, ◌++◌, IfOk, OnOk, map, codes};
ghost use Rattle.std.specs.List.{flat_map};
ghost use Rattle.std.specs.Fmt.{decimal};
ghost use Rattle.mg_certtext.specs.Pieces.{spaced};
ghost use Rattle.mg_certs.specs.Values.{verdict_of};
ghost use Rattle.mg_report.specs.Report.{answer_piece, standing, found_line, units_pieces, procedure_piece, limit_piece, end_pieces, search_text, question_text, block_text, report_text};
ghost use Rattle.mg_report.specs.Values.{search_of, found_of, block_of};

use crate::asks::{push_ask, push_verdict};
use mg_certs::Verdict;
use mg_certtext::{push_bytes, push_count, push_number, push_piece};
use mg_ledger::Account;
use mg_lists::{List, NoMemory};
use mg_present::Ask;
use mg_turn::Limit;
use mg_words::Procedure;
use mg_workers::End;
use std::alloc::Global;

/// What a report says of one search of a question.
#[derive(Clone, Copy, Debug, PartialEq, Eq)]
pub struct SearchLine {
    /// The procedure.
    pub procedure: Procedure,
    /// Its units.
    pub account: Account,
    /// How it stands.
    pub end: End,
}

/// A list of what a report says of searches.
pub type SearchLines = List<SearchLine>;

/// What a report says of one question.
#[derive(Drop)]
pub struct QuestionBlock<'a> {
    /// The name of the question.
    pub name: &'a [u8],
    /// The names of the group's generators, in order.
    pub names: &'a [List<u8>],
    /// What is asked.
    pub ask: &'a Ask,
    /// The verdict, with the number of its fact.
    pub verdict: Option<(u64, &'a Verdict)>,
    /// Its searches, in the order of the procedures.
    pub searches: SearchLines,
}

// The word for a procedure.
pub(crate) fn procedure_bytes(procedure: Procedure) -> &'static [u8]
    ensures { result.now ≡ procedure_piece procedure }
{
    match procedure {
        Procedure::Derive => b"derive",
        Procedure::Act => b"act",
        Procedure::Residue => b"residue",
        Procedure::Rewrite => b"rewrite",
        Procedure::Cosets => b"cosets",
        Procedure::Nielsen => b"nielsen",
        Procedure::Recall => b"recall",
    }
}

fn answer_bytes(verdict: &Verdict) -> &'static [u8]
    ensures { result.now ≡ answer_piece (verdict_of verdict.now) }
{
    match verdict {
        Verdict::Yes(_) => b"YES",
        Verdict::No(_) => b"NO",
    }
}

fn limit_bytes(limit: Limit) -> &'static [u8]
    ensures { result.now ≡ limit_piece limit }
{
    match limit {
        Limit::Rules => b"rules",
        Limit::Letters => b"letters",
        Limit::Entries => b"entries",
        Limit::Moves => b"moves",
        Limit::Symbols => b"symbols",
    }
}

/// Pushes how a search stands.
fn push_end(alloc: Global, out: &mut Vec<u8>, end: End) -> Result<(), NoMemory>
    ensures { OnOk result (out.new.items ≡ out.old.items ++ spaced (end_pieces end)) }
{
    match end {
        End::Fresh => push_piece(out, b"fresh"),
        End::More => push_piece(out, b"more"),
        End::Found => push_piece(out, b"found"),
        End::Closed => push_piece(out, b"closed"),
        End::Idle => push_piece(out, b"idle"),
        End::Stopped => push_piece(out, b"stopped"),
        End::Full { what, count } => push_full(alloc, out, what, count),
        End::Cancelled => push_piece(out, b"cancelled"),
    }
}

/// Pushes which quantity would pass its limit.
fn push_full(alloc: Global, out: &mut Vec<u8>, what: Limit, count: u64) -> Result<(), NoMemory>
    ensures { OnOk result (out.new.items
        ≡ out.old.items ++ spaced (codes "full" ∷ limit_piece what ∷ decimal count ∷ [])) }
{
    push_piece(out, b"full")?;
    push_piece(out, limit_bytes(what))?;
    push_number(alloc, out, count as u128)
}

/// Pushes the line of a search.
#[tactic(auto, unfolding(crate::specs::Report::search_text))]
fn push_search(alloc: Global, out: &mut Vec<u8>, search: &SearchLine) -> Result<(), NoMemory>
    ensures { OnOk result (out.new.items ≡ out.old.items ++ search_text (search_of search.now)) }
{
    push_bytes(out, b"search")?;
    push_piece(out, procedure_bytes(search.procedure))?;
    push_units(alloc, out, search.account)?;
    push_piece(out, b"end")?;
    push_end(alloc, out, search.end)?;
    push_bytes(out, b"\n")
}

/// Pushes the units of a search.
fn push_units(alloc: Global, out: &mut Vec<u8>, account: Account) -> Result<(), NoMemory>
    ensures { OnOk result (out.new.items ≡ out.old.items ++ spaced (units_pieces account)) }
{
    push_count(alloc, out, b"granted", account.granted)?;
    push_count(alloc, out, b"spent", account.spent as u128)?;
    push_count(alloc, out, b"held", account.held as u128)?;
    push_count(alloc, out, b"returned", account.returned)
}

/// Pushes the lines of searches.
fn push_searches(alloc: Global, out: &mut Vec<u8>, searches: &[SearchLine]) -> Result<(), NoMemory>
    ensures { OnOk result (out.new.items
        ≡ out.old.items ++ flat_map search_text (map search_of searches.now)) }
{
    for search in searches {
        push_search(alloc, out, search)?;
    }
    Ok(())
}

/// Pushes whether a question is open, or which fact is its verdict.
fn push_standing(
    alloc: Global,
    out: &mut Vec<u8>,
    verdict: Option<(u64, &Verdict)>,
) -> Result<(), NoMemory>
    ensures { OnOk result (out.new.items
        ≡ out.old.items ++ spaced (standing (found_of verdict.entry))) }
{
    match verdict {
        None => push_piece(out, b"OPEN"),
        Some((number, verdict)) => {
            push_piece(out, answer_bytes(verdict))?;
            push_count(alloc, out, b"fact", number as u128)
        }
    }
}

/// Pushes the line that says whether a question is open.
#[tactic(auto, unfolding(crate::specs::Report::question_text))]
fn push_question(
    alloc: Global,
    out: &mut Vec<u8>,
    name: &[u8],
    verdict: Option<(u64, &Verdict)>,
) -> Result<(), NoMemory>
    ensures { OnOk result (out.new.items
        ≡ out.old.items ++ question_text name.now (found_of verdict.entry)) }
{
    push_bytes(out, b"question")?;
    push_piece(out, name)?;
    push_standing(alloc, out, verdict)?;
    push_bytes(out, b"\n")
}

/// Pushes the line of a question's verdict, where it has one.
#[tactic(auto, unfolding(crate::specs::Report::found_line))]
fn push_found(
    alloc: Global,
    out: &mut Vec<u8>,
    names: &[List<u8>],
    verdict: Option<(u64, &Verdict)>,
) -> Result<(), NoMemory>
    ensures { OnOk result (out.new.items
        ≡ out.old.items ++ found_line names.now (found_of verdict.entry)) }
{
    match verdict {
        None => Ok(()),
        Some((_, verdict)) => push_verdict(alloc, out, names, verdict),
    }
}

/// Pushes the lines of a question.
#[tactic(auto, unfolding(crate::specs::Report::block_text))]
fn push_block(alloc: Global, out: &mut Vec<u8>, block: &QuestionBlock) -> Result<(), NoMemory>
    ensures { OnOk result (out.new.items ≡ out.old.items ++ block_text (block_of block.now)) }
{
    push_question(alloc, out, block.name, block.verdict)?;
    push_ask(alloc, out, block.names, block.ask)?;
    push_found(alloc, out, block.names, block.verdict)?;
    push_searches(alloc, out, block.searches.as_slice())
}

/// The text of a report of these questions, with all the units that were funded and those left in the
/// purse.
pub fn report(
    alloc: Global,
    funded: u64,
    purse: u64,
    blocks: &[QuestionBlock],
) -> Result<Vec<u8>, NoMemory>
    ensures { IfOk result (λ text. text.items
        ≡ report_text funded purse (map block_of blocks.now)) }
{
    let mut out = Vec::new(alloc);
    push_bytes(&mut out, b"report\nfunded")?;
    push_number(alloc, &mut out, funded as u128)?;
    push_count(alloc, &mut out, b"purse", purse as u128)?;
    push_bytes(&mut out, b"\n")?;
    push_blocks(alloc, &mut out, blocks)?;
    push_bytes(&mut out, b"end\n")?;
    Ok(out)
}

/// Pushes the lines of questions.
fn push_blocks(alloc: Global, out: &mut Vec<u8>, blocks: &[QuestionBlock]) -> Result<(), NoMemory>
    ensures { OnOk result (out.new.items
        ≡ out.old.items ++ flat_map block_text (map block_of blocks.now)) }
{
    for block in blocks {
        push_block(alloc, out, block)?;
    }
    Ok(())
}
