//! What an accepted log shows. The law stands on a function without a body.
ghost use Rattle.std.specs.Prelude.{[]};
ghost use Rattle.std.specs.List.{AllByRecursion};
ghost use Rattle.mg_present.specs.Ask.{Inquiry};
ghost use Rattle.mg_present.specs.Same.{Same, Holds};
ghost use Rattle.mg_rulelog.specs.Acceptance.{IsAccepted};
ghost use Rattle.mg_rulelog.specs.declared.log.RuleLog.{RuleLog as Log};

/// Where a log is accepted both sides of each of its rules are the same in the group and each goal is the same as the
/// empty word, so that each goal lies in the subgroup, whatever words generate it.
pub fn accepted_logs_hold()
    ensures rules { (ask : Inquiry) (log : Log) → IsAccepted ask log →
        AllByRecursion (λ rule. Same ask.group rule.left rule.right) log.rules }
    ensures goals { (ask : Inquiry) (log : Log) → IsAccepted ask log →
        AllByRecursion (λ goal. Same ask.group goal []) ask.goals }
    ensures holds { (ask : Inquiry) (log : Log) → IsAccepted ask log → Holds ask }
{}
