//! Which goal a finite action refutes first.
ghost use Rattle.mg_action.specs.Action.{IsAction};
ghost use Rattle.mg_certs.specs.Claim.{action as action_of};
ghost use Rattle.mg_certs.specs.Refuting.{IsFirstRefuted};

use mg_action::{Action, refutes};
use mg_present::Ask;

/// The first goal that an action of the group refutes.
pub(crate) fn first_refuted(ask: &Ask, action: &Action) -> Option<u32>
    requires { IsAction ask.now.group action.now }
    ensures { IsFirstRefuted ask.now (action_of action.now) result }
{
    for goal in 0..ask.goals().len() as u32 {
        if refutes(ask, goal, action) {
            return Some(goal);
        }
    }
    None
}
