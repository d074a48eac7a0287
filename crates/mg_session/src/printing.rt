//! What the steps print that show a session.
ghost use Rattle.std.specs.Prelude.{ℕ, ◌≤◌, List, IfOk, length};
ghost use Rattle.mg_names.specs.Plan.{Plan as PlanOf, report as print_blocks, report_facts as print_facts, report_log as print_log};
ghost use Rattle.mg_names.specs.IsPlan.{IsPlan};
ghost use Rattle.mg_session.specs.Output.{TextOf};
ghost use Rattle.mg_session.specs.StateOk.{StateOk};
ghost use Rattle.mg_session.specs.Built.{no_turns};

use crate::blocks::first_blocks;
use crate::entries::{entry_lines, sum_lines};
use crate::facts::fact_blocks;
use crate::state::Session;
use mg_lists::NoMemory;
use mg_names::Plan;
use mg_report::{report, report_facts, report_log};
use std::alloc::Global;

/// What `report` prints, of the first questions, as many as this.
pub(crate) fn report_text(
    alloc: Global,
    plan: &Plan,
    session: &Session,
    questions: u32,
) -> Result<Vec<u8>, NoMemory>
    requires plan { IsPlan plan.now }
    requires there { questions ≤ length plan.now.questions }
    ensures { IfOk result (λ text. (shown : List ℕ) →
        TextOf plan.now no_turns shown (print_blocks questions) session.now text.items shown) }
{
    let blocks = first_blocks(alloc, plan, session, questions)?;
    report(alloc, session.funded(), session.purse(), blocks.as_slice())
}

/// What `report facts` prints.
pub(crate) fn facts_text(alloc: Global, session: &Session) -> Result<Vec<u8>, NoMemory>
    ensures { IfOk result (λ text. (plan : PlanOf) (shown : List ℕ) →
        TextOf plan no_turns shown print_facts session.now text.items shown) }
{
    report_facts(alloc, fact_blocks(alloc, session)?.as_slice())
}

/// What `report log` prints.
pub(crate) fn log_text(alloc: Global, plan: &Plan, session: &Session) -> Result<Vec<u8>, NoMemory>
    requires { StateOk plan.now 1 session.now }
    ensures { IfOk result (λ text. (shown : List ℕ) →
        TextOf plan.now no_turns shown print_log session.now text.items shown) }
{
    let entries = entry_lines(alloc, session)?;
    let sums = sum_lines(alloc, plan, session)?;
    report_log(alloc, entries.as_slice(), sums.as_slice())
}
