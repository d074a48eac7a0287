//! Laws of the rule for words. Each stands on a function without a body.
ghost use Rattle.std.specs.Prelude.{◌≡◌, ℕ, List};
ghost use Rattle.mg_command.specs.Words.{Says, Lacks, Reads};

use crate::command::{Command, UsageCause};

/// Each list of words says a command, or has a cause for which it says none.
pub fn each_list_says_one_thing()
    ensures { (words : List (List ℕ)) → Reads words }
{}

/// No list of words says two commands, or has two causes, or says a command and has a cause.
pub fn no_list_says_two()
    ensures commands { (words : List (List ℕ)) (c d : Command) →
        Says words c → Says words d → c ≡ d }
    ensures causes { (words : List (List ℕ)) (c d : UsageCause) →
        Lacks words c → Lacks words d → c ≡ d }
    ensures both { (words : List (List ℕ)) (c : Command) (cause : UsageCause) →
        Says words c → Lacks words cause → ⊥ }
{}
