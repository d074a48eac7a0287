//! The lines of what is asked, and of a verdict.
ghost use Rattle.std.specs.Prelude.{◌≡◌, ◌++◌, OnOk};
ghost use Rattle.mg_words.specs.Word.{letters_of};
ghost use Rattle.mg_certs.specs.Values.{verdict_of};
ghost use Rattle.mg_report.specs.Report.{verdict_line, group_text, words_text, ask_text};

use mg_certs::Verdict;
use mg_certtext::{print, push_bytes, push_names, push_piece, push_words};
use mg_lists::{List, NoMemory};
use mg_present::Ask;
use mg_words::{Word, Words};
use std::alloc::Global;

// Pushes the line of a group.
#[tactic(auto, unfolding(crate::specs::Report::group_text))]
pub(crate) fn push_group(
    alloc: Global,
    out: &mut Vec<u8>,
    names: &[List<u8>],
    relators: &[Word],
) -> Result<(), NoMemory>
    ensures { OnOk result (out.new.items
        ≡ out.old.items ++ group_text names.now (letters_of relators.now)) }
{
    push_bytes(out, b"group <")?;
    push_names(out, names)?;
    push_piece(out, b"|")?;
    push_words(alloc, out, names, relators)?;
    push_bytes(out, b" >\n")
}

/// Pushes a line of words between angle brackets.
#[tactic(auto, unfolding(crate::specs::Report::words_text))]
fn push_words_line(
    alloc: Global,
    out: &mut Vec<u8>,
    title: &[u8],
    names: &[List<u8>],
    words: &Words,
) -> Result<(), NoMemory>
    ensures { OnOk result (out.new.items
        ≡ out.old.items ++ words_text title.now names.now words.now) }
{
    push_bytes(out, title)?;
    push_piece(out, b"<")?;
    push_words(alloc, out, names, words.as_slice())?;
    push_bytes(out, b" >\n")
}

// Pushes the lines of what is asked.
#[tactic(auto, unfolding(crate::specs::Report::ask_text))]
pub(crate) fn push_ask(
    alloc: Global,
    out: &mut Vec<u8>,
    names: &[List<u8>],
    ask: &Ask,
) -> Result<(), NoMemory>
    ensures { OnOk result (out.new.items ≡ out.old.items ++ ask_text names.now ask.now) }
{
    push_group(alloc, out, names, ask.group().relators().as_slice())?;
    push_words_line(alloc, out, b"subgroup", names, ask.subgroup())?;
    push_words_line(alloc, out, b"goals", names, ask.goals())
}

// Pushes the line of a verdict.
#[tactic(auto, unfolding(crate::specs::Report::verdict_line))]
pub(crate) fn push_verdict(
    alloc: Global,
    out: &mut Vec<u8>,
    names: &[List<u8>],
    verdict: &Verdict,
) -> Result<(), NoMemory>
    ensures { OnOk result (out.new.items
        ≡ out.old.items ++ verdict_line names.now (verdict_of verdict.now)) }
{
    push_bytes(out, print(alloc, verdict, names)?.as_slice())?;
    push_bytes(out, b"\n")
}
