//! Whole sessions.
ghost use Rattle.std.specs.Prelude.{◌≡◌, ◌<◌, ◌≤◌, ◌++◌, IfOk, OnOk, length};
ghost use Rattle.mg_names.specs.IsPlan.{IsPlan, IsStep};
ghost use Rattle.mg_names.specs.Values.{step_of};
ghost use Rattle.mg_session.specs.StateOk.{StateOk};
ghost use Rattle.mg_session.specs.Output.{Prints};
ghost use Rattle.mg_session.specs.At.{AreCounted};
ghost use Rattle.mg_session.specs.Stepped.{IsStepped};

use crate::printing::{facts_text, log_text, report_text};
use crate::state::Session;
use mg_core::NoMemory;
use mg_lex::Text;
use mg_names::{Plan, PlanStep};
use mg_policy::Sizes;
use std::alloc::Global;

/// A session after a step.
#[derive(Drop)]
struct Stepped {
    /// The session.
    session: Session,
    /// What the step printed.
    text: Vec<u8>,
}

/// Takes a step of a session.
fn take_step<P: Sizes>(
    alloc: Global,
    plan: &Plan,
    policy: &P,
    mut session: Session,
    step: PlanStep,
) -> Result<Stepped, NoMemory>
    requires plan { IsPlan plan.now }
    requires policy { P.fit policy.now }
    requires step { IsStep plan.now (step_of step) }
    requires ok { StateOk plan.now 1 session }
    requires few { length session.searches < u32.MAX }
    requires counted { AreCounted session }
    ensures { IfOk result (λ stepped.
        IsStepped plan.now (P.is_size policy.now)
        (step_of step) session stepped.session stepped.text.items) }
{
    match step {
        PlanStep::Fund(units) => {
            let text = session.fund(alloc, units)?;
            Ok(Stepped { session, text })
        }
        PlanStep::Grant {
            question,
            procedure,
            units,
        } => {
            let text = session.grant(alloc, plan, question, procedure, units)?;
            Ok(Stepped { session, text })
        }
        PlanStep::Run { bound } => {
            let session = session.run(alloc, policy, bound)?;
            let text = Vec::new(alloc);
            Ok(Stepped { session, text })
        }
        PlanStep::Cancel {
            question,
            procedure,
        } => {
            let text = session.cancel(alloc, question, procedure)?;
            Ok(Stepped { session, text })
        }
        PlanStep::Report { questions } => {
            let text = report_text(alloc, plan, &session, questions)?;
            Ok(Stepped { session, text })
        }
        PlanStep::ReportFacts => {
            let text = facts_text(alloc, &session)?;
            Ok(Stepped { session, text })
        }
        PlanStep::ReportLog => {
            let text = log_text(alloc, plan, &session)?;
            Ok(Stepped { session, text })
        }
    }
}

/// Runs a plan with so many workers and a policy, and answers what its steps print, in order. As yet one worker makes the
/// turns of all searches.
pub fn run_plan<P: Sizes>(
    alloc: Global,
    plan: &Plan,
    _workers: u64,
    policy: &P,
) -> Result<Text, NoMemory>
    requires plan { IsPlan plan.now }
    requires workers { 1 ≤ _workers }
    requires policy { P.fit policy.now }
    ensures { IfOk result (λ output. Prints plan.now
        (record { workers = _workers; IsSize = P.is_size policy.now }) output) }
{
    let mut session = Session::new(alloc);
    let mut output = Text::new(alloc);
    let steps = plan.steps.as_slice();
    for step in steps {
        let stepped = take_step(alloc, plan, policy, session, *step)?;
        session = stepped.session;
        output.extend_from_slice(stepped.text.as_slice())?;
    }
    Ok(output)
}
