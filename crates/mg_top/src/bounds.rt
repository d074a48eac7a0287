//! The limits of the program.
ghost use Rattle.std.specs.Prelude.{◌≡◌, ◌^◌};
ghost use Rattle.mg_io.specs.declared.whole.TheConstants.{MOST_READ};
ghost use Rattle.mg_ledger.specs.declared.ledger.TheConstants.{MOST_FUNDED};
ghost use Rattle.mg_lex.specs.declared.limits.TheConstants.{LINE_LIMIT, NAME_LIMIT, NUMBER_LIMIT};
ghost use Rattle.mg_terms.specs.declared.limits.TheConstants.{WORD_LIMIT, DEPTH_LIMIT};
ghost use Rattle.mg_script.specs.declared.counted.TheConstants.{MOST_GROUPS, MOST_WORDS, MOST_SUBGROUPS, MOST_MAPS, MOST_QUESTIONS, MOST_REPORTS, LETTER_LIMIT};
ghost use Rattle.mg_present.specs.declared.presentation.TheConstants.{MOST_GENERATORS, MOST_RELATORS};
ghost use Rattle.mg_present.specs.declared.ask.TheConstants.{MOST_SUBGROUP_WORDS, MOST_GOALS};
ghost use Rattle.mg_questions.specs.declared.question.TheConstants.{MOST_GOAL_LETTERS};
ghost use Rattle.mg_names.specs.declared.limits.TheConstants.{ASK_LETTER_LIMIT, REWRITE_LIMIT, COSET_LIMIT};
ghost use Rattle.mg_names.specs.declared.plan.TheConstants.{MOST_SEARCHES};
ghost use Rattle.mg_turn.specs.declared.bounds.TheConstants.{MOST_RULES, MOST_SIDE_LETTERS, MOST_LETTERS, MOST_ENTRIES, MOST_MOVES, MOST_SYMBOLS};
ghost use Rattle.mg_policy.specs.declared.sizes.TheConstants.{MOST_EVEN, MOST_DOUBLINGS};

use crate::status::MOST_SCRIPT_BYTES;

/// All limits of the program, by their values: those of a script's text, of what it declares and asks, of the units that
/// it funds, and of what searches keep.
pub fn the_limits()
    ensures script { MOST_SCRIPT_BYTES ≡ 1048576 }
    ensures read { MOST_READ ≡ 67108864 }
    ensures line { LINE_LIMIT ≡ 65536 }
    ensures name { NAME_LIMIT ≡ 32 }
    ensures number { NUMBER_LIMIT ≡ 2 ^ 62 }
    ensures word { WORD_LIMIT ≡ 10000 }
    ensures depth { DEPTH_LIMIT ≡ 256 }
    ensures goal { MOST_GOAL_LETTERS ≡ 40000 }
    ensures groups { MOST_GROUPS ≡ 64 }
    ensures words { MOST_WORDS ≡ 1024 }
    ensures subgroups { MOST_SUBGROUPS ≡ 256 }
    ensures maps { MOST_MAPS ≡ 256 }
    ensures questions { MOST_QUESTIONS ≡ 1024 }
    ensures reports { MOST_REPORTS ≡ 64 }
    ensures generators { MOST_GENERATORS ≡ 64 }
    ensures relators { MOST_RELATORS ≡ 256 }
    ensures subgroup_words { MOST_SUBGROUP_WORDS ≡ 64 }
    ensures goals { MOST_GOALS ≡ 4096 }
    ensures script_letters { LETTER_LIMIT ≡ 1000000 }
    ensures ask_letters { ASK_LETTER_LIMIT ≡ 8000000 }
    ensures searches { MOST_SEARCHES ≡ 2048 }
    ensures completions { REWRITE_LIMIT ≡ 64 }
    ensures enumerations { COSET_LIMIT ≡ 64 }
    ensures funds { MOST_FUNDED ≡ 2 ^ 62 }
    ensures even { MOST_EVEN ≡ 1024 }
    ensures doublings { MOST_DOUBLINGS ≡ 20 }
    ensures rules { MOST_RULES ≡ 4096 }
    ensures side_letters { MOST_SIDE_LETTERS ≡ 2000 }
    ensures letters { MOST_LETTERS ≡ 4000000 }
    ensures entries { MOST_ENTRIES ≡ 4000000 }
    ensures moves { MOST_MOVES ≡ 1000000 }
    ensures symbols { MOST_SYMBOLS ≡ 1000000 }
{}
