use super::*;
use mg_action::Action;
use mg_certs::{Model, No, Verdict, Yes};
use mg_cyclic::Residues;
use mg_derive::{Derivation, Symbol};
use mg_fixtures::word;
use mg_lists::List;
use mg_rulelog::{GoalMoves, LoggedRule, LoggedRules, Move, RuleLog, copy_moves};
use mg_rules::{RulePair, Rules};
use mg_words::{Letter, Word};
use std::alloc::{AllocError, Global};
use std::test::*;

const A: Letter = Letter {
    generator: 1,
    inverse: false,
};

const A_BACK: Letter = Letter {
    generator: 1,
    inverse: true,
};

const B: Letter = Letter {
    generator: 2,
    inverse: false,
};

const B_BACK: Letter = Letter {
    generator: 2,
    inverse: true,
};

/// The names `a` and `b`.
fn a_and_b(alloc: Global) -> Result<List<List<u8>>, NoMemory> {
    let mut names = List::new(alloc);
    for byte in b"ab" {
        let mut name = List::new(alloc);
        name.push(*byte)?;
        names.push(name)?;
    }
    Ok(names)
}

/// Whether this is the list of these words.
fn words_print(alloc: Global, lists: &[&[Letter]], text: &[u8]) -> Result<bool, NoMemory> {
    let names = a_and_b(alloc)?;
    let mut words = List::new(alloc);
    for list in lists {
        words.push(Word::from_letters(alloc, list)?)?;
    }
    let mut out = Vec::new(alloc);
    push_words(alloc, &mut out, names.as_slice(), words.as_slice())?;
    Ok(out.as_slice() == text)
}

/// Whether this is the text of the derivation with these symbols.
fn derivation_prints(alloc: Global, symbols: &[Symbol], text: &[u8]) -> Result<bool, NoMemory> {
    let names = a_and_b(alloc)?;
    let derivation = Derivation::from_symbols(alloc, symbols)?;
    let verdict = Verdict::Yes(Yes::Derivation(derivation));
    let out = print(alloc, &verdict, names.as_slice())?;
    Ok(out.as_slice() == text)
}

/// The action of two generators with a number from 1 to 100.
fn action(alloc: Global, number: u64) -> Result<Model, NoMemory> {
    if number < 1 || number > 100 {
        return Err(AllocError);
    }
    let mut action = Action::of_one_point(alloc, 2)?;
    action.put_number(number);
    Ok(Model::Action(action))
}

/// Whether this is the text of NO for the goal at a place, from 0, by the model.
fn no_prints(alloc: Global, goal: u32, model: Model, text: &[u8]) -> Result<bool, NoMemory> {
    let out = print(alloc, &Verdict::No(No { goal, model }), &[])?;
    Ok(out.as_slice() == text)
}

#[test]
fn image_lists_have_commas_between_them(rt: HostRuntime) -> Result<(), Fail> {
    let alloc = rt.alloc();
    assert!(rt;
        no_prints(
            alloc,
            0,
            action(alloc, 15)?,
            b"no goal 1 action 3 : 0 2 1 , 1 2 0"
        )?
    );
    let no_generator = Model::Action(Action::of_one_point(alloc, 0)?);
    assert!(rt; no_prints(alloc, 2, no_generator, b"no goal 3 action 1 :")?);
    Ok(())
}

#[test]
fn residues_have_none(rt: HostRuntime) -> Result<(), Fail> {
    let map = Residues::from_images(rt.alloc(), 12, &[1, 0])?;
    assert!(rt;
        no_prints(
            rt.alloc(),
            0,
            Model::Residues(map),
            b"no goal 1 residues 12 : 1 0"
        )?
    );
    Ok(())
}

/// The rules with these left and right sides.
fn system(alloc: Global, pairs: &[(&str, &str)]) -> Result<Model, NoMemory> {
    let mut rules = Rules::from_pairs(List::new(alloc));
    for (left, right) in pairs {
        rules.push(RulePair {
            left: word(alloc, left),
            right: word(alloc, right),
        })?;
    }
    Ok(Model::Complete(rules))
}

/// Whether this is the text of NO for the first goal by the rules.
fn system_prints(alloc: Global, pairs: &[(&str, &str)], text: &[u8]) -> Result<bool, NoMemory> {
    let names = a_and_b(alloc)?;
    let no = No {
        goal: 0,
        model: system(alloc, pairs)?,
    };
    let out = print(alloc, &Verdict::No(no), names.as_slice())?;
    Ok(out.as_slice() == text)
}

#[test]
fn rules_have_an_arrow_and_commas_between_them(rt: HostRuntime) -> Result<(), Fail> {
    let alloc = rt.alloc();
    let pairs = [("A", "a"), ("aa", "1")];
    assert!(rt; system_prints(alloc, &pairs, b"no goal 1 complete : a^-1 -> a , a^2 -> 1")?);
    assert!(rt;
        system_prints(
            alloc,
            &[("aAb", "b")],
            b"no goal 1 complete : a a^-1 b -> b"
        )?
    );
    assert!(rt; system_prints(alloc, &[], b"no goal 1 complete :")?);
    Ok(())
}

#[test]
fn words_are_runs(rt: HostRuntime) -> Result<(), Fail> {
    let relators: [&[Letter]; 3] = [&[A, A], &[B, B, B], &[A, B, A, B]];
    assert!(rt; words_print(rt.alloc(), &relators, b" a^2 , b^3 , a b a b")?);
    assert!(rt; words_print(rt.alloc(), &[], b"")?);
    Ok(())
}

#[test]
fn a_run_has_one_sign(rt: HostRuntime) -> Result<(), Fail> {
    assert!(rt; words_print(rt.alloc(), &[&[A_BACK, A_BACK, B]], b" a^-2 b")?);
    assert!(rt;
        words_print(
            rt.alloc(),
            &[&[], &[A_BACK], &[A, A_BACK]],
            b" 1 , a^-1 , a a^-1"
        )?
    );
    Ok(())
}

#[test]
fn names_have_commas_between_them(rt: HostRuntime) -> Result<(), Fail> {
    let names = a_and_b(rt.alloc())?;
    let mut out = Vec::new(rt.alloc());
    push_names(&mut out, names.as_slice())?;
    assert_eq!(rt; out.as_slice(), b" a , b".as_slice());
    Ok(())
}

#[test]
fn a_conjugated_relator(rt: HostRuntime) -> Result<(), Fail> {
    let sign = Symbol::Relator {
        place: 1,
        inverse: false,
    };
    let symbols = [Symbol::Letter(B), sign, Symbol::Letter(B_BACK), Symbol::Cut];
    assert!(rt; derivation_prints(rt.alloc(), &symbols, b"yes derivation b r1 b^-1 ;")?);
    Ok(())
}

#[test]
fn inverse_signs(rt: HostRuntime) -> Result<(), Fail> {
    let sign = Symbol::Relator {
        place: 12,
        inverse: true,
    };
    let member = Symbol::Member {
        place: 1,
        inverse: true,
    };
    assert!(rt; derivation_prints(rt.alloc(), &[sign, member], b"yes derivation r12^-1 [1]^-1")?);
    assert!(rt; derivation_prints(rt.alloc(), &[], b"yes derivation")?);
    Ok(())
}

#[test]
fn pieces_stand_behind_spaces(rt: HostRuntime) -> Result<(), Fail> {
    let mut out = Vec::new(rt.alloc());
    push_bytes(&mut out, b"funded")?;
    push_number(rt.alloc(), &mut out, 1000)?;
    push_count(rt.alloc(), &mut out, b"purse", 889)?;
    push_piece(&mut out, b"|")?;
    assert_eq!(rt; out.as_slice(), b"funded 1000 purse 889 |".as_slice());
    Ok(())
}

/// The rule with these sides and moves.
fn shown(alloc: Global, left: &str, right: &str, moves: &[Move]) -> Result<LoggedRule, NoMemory> {
    Ok(LoggedRule {
        left: word(alloc, left),
        right: word(alloc, right),
        moves: copy_moves(alloc, moves)?,
    })
}

/// Whether this is the text of YES by the rules, with these moves for the one goal.
fn log_prints(
    alloc: Global,
    rules: LoggedRules,
    moves: &[Move],
    text: &[u8],
) -> Result<bool, NoMemory> {
    let names = a_and_b(alloc)?;
    let mut goals = GoalMoves::new(alloc);
    goals.push(copy_moves(alloc, moves)?)?;
    let verdict = Verdict::Yes(Yes::RuleLog(RuleLog { rules, goals }));
    let out = print(alloc, &verdict, names.as_slice())?;
    Ok(out.as_slice() == text)
}

const OUT_A: Move = Move::OutPair {
    letter: A,
    place: 0,
};

const OUT_A_BACK: Move = Move::OutPair {
    letter: A_BACK,
    place: 0,
};

const OUT_RELATOR: Move = Move::OutRelator {
    relator: 1,
    inverse: false,
    place: 0,
};

/// The pairs of `a`, and the relator `a^2`.
fn three_rules(alloc: Global) -> Result<LoggedRules, NoMemory> {
    let mut rules = LoggedRules::new(alloc);
    rules.push(shown(alloc, "aA", "1", &[OUT_A])?)?;
    rules.push(shown(alloc, "Aa", "1", &[OUT_A_BACK])?)?;
    rules.push(shown(alloc, "aa", "1", &[OUT_RELATOR])?)?;
    Ok(rules)
}

#[test]
fn a_goal_by_a_rule_twice(rt: HostRuntime) -> Result<(), Fail> {
    let alloc = rt.alloc();
    let by = Move::By { rule: 3, place: 0 };
    let text =
        b"yes rulelog rule a a^-1 -> 1 : out a 0 ; rule a^-1 a -> 1 : out a^-1 0 ; rule a^2 -> 1 : out r1 0 ; goal by 3 0 , by 3 0 ;";
    assert!(rt; log_prints(alloc, three_rules(alloc)?, &[by, by], text)?);
    Ok(())
}

#[test]
fn a_rule_backwards(rt: HostRuntime) -> Result<(), Fail> {
    let alloc = rt.alloc();
    let moves = [
        Move::Back { rule: 3, place: 0 },
        Move::By { rule: 1, place: 1 },
    ];
    let mut rules = LoggedRules::new(alloc);
    rules.push(shown(alloc, "A", "a", &moves)?)?;
    let text = b"yes rulelog rule a^-1 -> a : back 3 0 , by 1 1 ; goal ;";
    assert!(rt; log_prints(alloc, rules, &[], text)?);
    Ok(())
}

#[test]
fn pieces_are_put_in(rt: HostRuntime) -> Result<(), Fail> {
    let alloc = rt.alloc();
    let moves = [
        Move::InPair {
            letter: B,
            place: 0,
        },
        Move::InRelator {
            relator: 3,
            inverse: true,
            place: 12,
        },
    ];
    let text = b"yes rulelog goal in b 0 , in r3^-1 12 ;";
    assert!(rt; log_prints(alloc, LoggedRules::new(alloc), &moves, text)?);
    Ok(())
}
