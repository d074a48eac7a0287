//! Which goal a complete system refutes first.
ghost use Rattle.std.specs.Prelude.{◌≡◌, ◌↔◌, ◌<◌, [], IfOk, IsTrue, length};
ghost use Rattle.mg_rules.specs.Complete.{IsComplete, Refutes};
ghost use Rattle.mg_rules.specs.Index.{IsIndexOf};
ghost use Rattle.mg_certs.specs.Claim.{complete};
ghost use Rattle.mg_certs.specs.Refuting.{IsFirstRefuted};

use mg_core::NoMemory;
use mg_present::Ask;
use mg_rules::{RuleIndex, Rules, normal_form_with};
use std::alloc::Global;

/// The first goal that a system refutes which is complete for the group. The system isn't tested.
pub(crate) fn first_refuted(
    alloc: Global,
    ask: &Ask,
    rules: &Rules,
) -> Result<Option<u32>, NoMemory>
    requires { IsComplete ask.now.group rules.now }
    ensures { IfOk result (IsFirstRefuted ask.now (complete rules.now)) }
{
    if ask.subgroup().len() > 0 {
        return Ok(None);
    }
    let index = RuleIndex::make(alloc, rules)?;
    for goal in 0..ask.goals().len() as u32 {
        if leaves_letters(alloc, ask, rules, &index, goal)? {
            return Ok(Some(goal));
        }
    }
    Ok(None)
}

/// Whether the normal descendant of a goal isn't empty.
fn leaves_letters(
    alloc: Global,
    ask: &Ask,
    rules: &Rules,
    index: &RuleIndex,
    goal: u32,
) -> Result<bool, NoMemory>
    requires of_group { IsComplete ask.now.group rules.now }
    requires alone { ask.now.subgroup ≡ [] }
    requires there { goal < length ask.now.goals }
    requires index { IsIndexOf rules.now index.now }
    ensures { IfOk result (λ answer. IsTrue answer ↔ Refutes ask.now goal rules.now) }
{
    let remains = normal_form_with(alloc, rules, index, ask.goals().at(goal as usize))?;
    Ok(remains.letters().len() > 0)
}
