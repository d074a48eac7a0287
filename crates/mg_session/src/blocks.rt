//! What a report says of questions.
ghost use Rattle.std.specs.Prelude.{◌≡◌, ◌==◌, ◌<◌, ◌≤◌, ◌++◌, IfOk, OnOk, length, map, filter, take, slice_get, Some};
ghost use Rattle.mg_names.specs.IsPlan.{IsPlan};
ghost use Rattle.mg_names.specs.Plan.{PlanQuestion as QuestionOf};
ghost use Rattle.mg_report.specs.Values.{search_of, block_of};
ghost use Rattle.mg_session.specs.Output.{procedure_place, line_of, lines_of, IsBlock, AreBlocks};

use crate::state::Session;
use mg_lists::NoMemory;
use mg_names::{Asked, Plan};
use mg_report::{QuestionBlock, SearchLine, SearchLines};
use mg_words::Procedure;
use std::alloc::Global;

/// What a report says of the first questions, as many as this.
pub(crate) fn first_blocks<'a>(
    alloc: Global,
    plan: &'a Plan,
    session: &'a Session,
    questions: u32,
) -> Result<Vec<QuestionBlock<'a>>, NoMemory>
    requires plan { IsPlan plan.now }
    requires there { questions ≤ length plan.now.questions }
    ensures { IfOk result (λ blocks.
        AreBlocks plan.now session.now 0 (take questions plan.now.questions)
        (map block_of blocks.items)) }
{
    let mut blocks = Vec::new(alloc);
    for place in 0..questions {
        blocks.push(block_at(alloc, plan, session, place)?)?;
    }
    Ok(blocks)
}

/// What a report says of the question at a place.
fn block_at<'a>(
    alloc: Global,
    plan: &'a Plan,
    session: &'a Session,
    place: u32,
) -> Result<QuestionBlock<'a>, NoMemory>
    requires plan { IsPlan plan.now }
    requires there { place < length plan.now.questions }
    ensures { IfOk result (λ block. (question : QuestionOf) ×
        (slice_get plan.now.questions place ≡ Some question) ×
        IsBlock plan.now session.now place question (block_of block)) }
{
    let question = &plan.questions.as_slice()[place as usize];
    let group = &plan.groups.as_slice()[question.group as usize];
    let Asked::Plain(ask) = &question.asked;
    let searches = search_lines(alloc, session, place)?;
    Ok(QuestionBlock {
        name: question.name.as_slice(),
        names: group.generators.as_slice(),
        ask,
        verdict: session.verdict(ask),
        searches,
    })
}

/// What a report says of the searches of a question, in the order of the procedures.
fn search_lines(alloc: Global, session: &Session, question: u32) -> Result<SearchLines, NoMemory>
    ensures { IfOk result (λ lines. map search_of lines ≡ lines_of question session.now.searches) }
{
    let own = own_lines(alloc, session, question)?;
    let mut lines = SearchLines::new(alloc);
    push_lines(&mut lines, own.as_slice(), Procedure::Derive)?;
    push_lines(&mut lines, own.as_slice(), Procedure::Act)?;
    push_lines(&mut lines, own.as_slice(), Procedure::Residue)?;
    push_lines(&mut lines, own.as_slice(), Procedure::Rewrite)?;
    push_lines(&mut lines, own.as_slice(), Procedure::Cosets)?;
    push_lines(&mut lines, own.as_slice(), Procedure::Nielsen)?;
    push_lines(&mut lines, own.as_slice(), Procedure::Recall)?;
    Ok(lines)
}

/// What a report says of the searches of a question, in the order of their numbers.
fn own_lines(alloc: Global, session: &Session, question: u32) -> Result<SearchLines, NoMemory>
    ensures { IfOk result (λ lines. map search_of lines ≡
        map line_of (filter (λ search. search.question == question) session.now.searches)) }
{
    let mut lines = SearchLines::new(alloc);
    for place in 0..session.count() {
        if session.question(place) == question {
            lines.push(session.line(place))?;
        }
    }
    Ok(lines)
}

/// Pushes those of these lines that are of a procedure.
fn push_lines(
    lines: &mut SearchLines,
    own: &[SearchLine],
    procedure: Procedure,
) -> Result<(), NoMemory>
    ensures { OnOk result (map search_of lines.new ≡ map search_of lines.old ++
        filter (λ line. procedure_place line.procedure == procedure_place procedure)
        (map search_of own.now)) }
{
    for line in own {
        if line.procedure == procedure {
            lines.push(*line)?;
        }
    }
    Ok(())
}
