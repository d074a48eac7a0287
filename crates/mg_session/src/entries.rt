//! What is printed of a session's log.
ghost use Rattle.std.specs.Prelude.{◌≡◌, ◌<◌, IfOk, true, length, map, slice_get, Some};
ghost use Rattle.std.specs.List.{AllByRecursion};
ghost use Rattle.mg_core.specs.Streaks.{entry_seen};
ghost use Rattle.mg_workers.specs.Rows.{EachPair};
ghost use Rattle.mg_report.specs.Values.{fate_of, entry_of, sum_of};
ghost use Rattle.mg_report.specs.Log.{entry_line};
ghost use Rattle.mg_names.specs.Plan.{PlanQuestion as QuestionOf};
ghost use Rattle.mg_session.specs.State.{SearchState};
ghost use Rattle.mg_session.specs.Output.{IsEntryLine, IsSumLine};
ghost use Rattle.mg_session.specs.StateOk.{StateOk};
ghost use Rattle.mg_session.specs.Lookups.{IsTooLate, HasCause, IsCause};

use crate::state::Session;
use mg_certs::Claim;
use mg_core::EntryView;
use mg_lists::NoMemory;
use mg_names::Plan;
use mg_report::{EntryLine, Fate, SumLine};
use std::alloc::Global;

/// What is printed of the entries of the log.
pub(crate) fn entry_lines(alloc: Global, session: &Session) -> Result<Vec<EntryLine>, NoMemory>
    requires { AllByRecursion (HasCause session.now) session.now.log }
    ensures { IfOk result (λ lines.
        EachPair (IsEntryLine session.now) session.now.log (map entry_of lines.items)) }
{
    let mut lines = Vec::new(alloc);
    let mut entries = session.entries();
    while let Some(entry) = entries.next() {
        lines.push(line_of(session, &entry))?;
    }
    Ok(lines)
}

/// What is printed of an entry.
fn line_of(session: &Session, entry: &EntryView<'_, Claim>) -> EntryLine
    requires { HasCause session.now (entry_seen entry.now) }
    ensures { IsEntryLine session.now (entry_seen entry.now) (entry_of result) }
{
    EntryLine {
        pass: entry.pass,
        search: entry.search,
        turn: entry.turn,
        units: entry.units,
        fate: fate_of_turn(session, entry),
    }
}

/// What became of the turn of an entry.
fn fate_of_turn(session: &Session, entry: &EntryView<'_, Claim>) -> Fate
    requires { HasCause session.now (entry_seen entry.now) }
    ensures { IsEntryLine session.now (entry_seen entry.now) (entry_line (entry_seen entry.now)
        (fate_of result)) }
{
    if entry.dropped {
        let fact = cause_of(session, entry);
        return Fate::DroppedBy { fact };
    }
    let records = entry.records.len() as u64;
    Fate::Kept { records }
}

/// The number of the fact that the turn of an entry came too late for.
fn cause_of(session: &Session, entry: &EntryView<'_, Claim>) -> u64
    requires { IsTooLate session.now (entry_seen entry.now) }
    ensures { IsCause session.now (entry_seen entry.now) result }
{
    match session.verdict(session.ask(entry.search - 1)) {
        Some((fact, _)) => fact,
        None => unreachable!(),
    }
}

/// What is printed of the searches: the units of the entries of each, which are all that it has spent.
pub(crate) fn sum_lines<'a>(
    alloc: Global,
    plan: &'a Plan,
    session: &Session,
) -> Result<Vec<SumLine<'a>>, NoMemory>
    requires { StateOk plan.now 1 session.now }
    ensures { IfOk result (λ lines.
        EachPair (IsSumLine plan.now session.now) session.now.searches (map sum_of lines.items)) }
{
    let mut lines = Vec::new(alloc);
    for place in 0..session.count() {
        lines.push(sum_at(plan, session, place))?;
    }
    Ok(lines)
}

/// What is printed of the search at a place.
fn sum_at<'a>(plan: &'a Plan, session: &Session, place: u32) -> SumLine<'a>
    requires ok { StateOk plan.now 1 session.now }
    requires there { place < length session.now.searches }
    ensures { (search : SearchState) × (slice_get session.now.searches place ≡ Some search) ×
        IsSumLine plan.now session.now search (sum_of result) }
{
    let line = session.line(place);
    SumLine {
        search: session.number(place),
        name: name_of(plan, session.question(place)),
        procedure: line.procedure,
        units: line.account.spent,
    }
}

/// The name of the question at a place.
fn name_of(plan: &Plan, place: u32) -> &[u8]
    requires { place < length plan.now.questions }
    ensures { (question : QuestionOf) × (slice_get plan.now.questions place ≡ Some question) ×
        (result.now ≡ question.name) }
{
    let question = &plan.questions.as_slice()[place as usize];
    question.name.as_slice()
}
