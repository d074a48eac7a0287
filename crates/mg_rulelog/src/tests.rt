//! Logs over the group of order two, and what is refused of them.
use super::*;
use mg_fixtures::{ask, word};
use mg_lists::List;
use mg_words::Letter;
use std::alloc::Global;

const A: Letter = Letter {
    generator: 1,
    inverse: false,
};

const A_BACK: Letter = Letter {
    generator: 1,
    inverse: true,
};

const B: Letter = Letter {
    generator: 2,
    inverse: false,
};

const FOURTH_POWER: &str = "1 aa | | aaaa";

fn take_out(letter: Letter) -> Move {
    Move::OutPair { letter, place: 0 }
}

fn take_relator(place: u32) -> Move {
    Move::OutRelator {
        relator: 1,
        inverse: false,
        place,
    }
}

fn by(rule: u32, place: u32) -> Move {
    Move::By { rule, place }
}

fn back(rule: u32, place: u32) -> Move {
    Move::Back { rule, place }
}

// Appends a rule with its moves.
fn push(alloc: Global, log: &mut RuleLog, left: &str, right: &str, moves: &[Move]) -> Option<()> {
    let rule = LoggedRule {
        left: word(alloc, left),
        right: word(alloc, right),
        moves: copy_moves(alloc, moves).ok()?,
    };
    log.rules.push(rule).ok()
}

// A log with the pairs of the generator as its first rules.
fn pairs(alloc: Global) -> Option<RuleLog> {
    let mut log = RuleLog {
        rules: List::new(alloc),
        goals: List::new(alloc),
    };
    push(alloc, &mut log, "aA", "", &[take_out(A)])?;
    push(alloc, &mut log, "Aa", "", &[take_out(A_BACK)])?;
    Some(log)
}

// Whether a log of the pairs, of a third rule from the square of the generator to the empty word, and of these
// moves of one goal is accepted for the Ask.
fn with_third(alloc: Global, text: &str, third: &[Move], goal: &[Move]) -> Option<bool> {
    let mut log = pairs(alloc)?;
    push(alloc, &mut log, "aa", "", third)?;
    log.goals.push(copy_moves(alloc, goal).ok()?).ok()?;
    accepts(alloc, &ask(alloc, text)?, &log).ok()
}

// The same for the fourth power and the rule that takes the relator out.
fn with_goal(alloc: Global, goal: &[Move]) -> Option<bool> {
    with_third(alloc, FOURTH_POWER, &[take_relator(0)], goal)
}

// The same where the goal is rewritten by the third rule.
fn with_reason(alloc: Global, third: &[Move]) -> Option<bool> {
    with_third(alloc, FOURTH_POWER, third, &[by(3, 0), by(3, 0)])
}

// Whether the inverse square is shown by a fourth rule, from the inverse of the generator to the generator.
fn by_a_fourth_rule(alloc: Global) -> Option<bool> {
    let mut log = pairs(alloc)?;
    push(alloc, &mut log, "aa", "", &[take_relator(0)])?;
    push(alloc, &mut log, "A", "a", &[back(3, 0), by(1, 1)])?;
    log.goals
        .push(copy_moves(alloc, &[by(4, 0), by(1, 0)]).ok()?)
        .ok()?;
    let copy = log.copy(alloc).ok()?;
    accepts(alloc, &ask(alloc, "1 aa | | AA")?, &copy).ok()
}

#[test]
fn a_log_is_accepted(rt: HostRuntime) {
    let alloc = rt.alloc();
    assert!(rt; with_goal(alloc, &[by(3, 0), by(3, 0)]) == Some(true));
    assert!(rt; with_goal(alloc, &[by(3, 2), by(3, 0)]) == Some(true));
    assert!(rt; by_a_fourth_rule(alloc) == Some(true));
}

#[test]
fn subgroup_words_play_no_part(rt: HostRuntime) {
    let text = "1 aa | a | aaaa";
    let goal = [by(3, 0), by(3, 0)];
    assert!(rt; with_third(rt.alloc(), text, &[take_relator(0)], &goal) == Some(true));
}

#[test]
fn a_rule_uses_rules_before_it(rt: HostRuntime) {
    assert!(rt; with_reason(rt.alloc(), &[by(3, 0)]) == Some(false));
    assert!(rt; with_reason(rt.alloc(), &[by(4, 0)]) == Some(false));
    assert!(rt; with_reason(rt.alloc(), &[by(0, 0)]) == Some(false));
}

#[test]
fn a_reason_leads_from_the_left_side(rt: HostRuntime) {
    assert!(rt; with_reason(rt.alloc(), &[]) == Some(false));
    assert!(rt; with_reason(rt.alloc(), &[take_relator(1)]) == Some(false));
    assert!(rt; with_reason(rt.alloc(), &[take_out(A)]) == Some(false));
}

#[test]
fn goals_are_rewritten_by_rules_alone(rt: HostRuntime) {
    let alloc = rt.alloc();
    let put = Move::InPair {
        letter: A,
        place: 0,
    };
    assert!(rt; with_goal(alloc, &[put, by(1, 0), by(3, 0), by(3, 0)]) == Some(false));
    assert!(rt; with_goal(alloc, &[back(1, 0), by(1, 0), by(3, 0), by(3, 0)]) == Some(false));
    assert!(rt; with_goal(alloc, &[by(3, 3), by(3, 0)]) == Some(false));
}

#[test]
fn letters_are_of_the_group(rt: HostRuntime) {
    let put = Move::InPair {
        letter: B,
        place: 0,
    };
    let takes = [put, take_out(B), take_relator(0)];
    assert!(rt; with_reason(rt.alloc(), &takes) == Some(false));
}

#[test]
fn a_pair_is_put_in_at_the_end(rt: HostRuntime) {
    let put = Move::InPair {
        letter: A,
        place: 2,
    };
    assert!(rt; with_reason(rt.alloc(), &[put, by(1, 2), take_relator(0)]) == Some(true));
    let past = Move::InPair {
        letter: A,
        place: 3,
    };
    assert!(rt; with_reason(rt.alloc(), &[past, by(1, 2), take_relator(0)]) == Some(false));
}

// Whether a log with so many lists for one goal is accepted, where a list without moves rewrites the empty word.
fn with_lists(alloc: Global, count: u32) -> Option<bool> {
    let mut log = pairs(alloc)?;
    for _ in 0..count {
        log.goals.push(List::new(alloc)).ok()?;
    }
    let group = ask(alloc, "1 aa | | ")?;
    accepts(alloc, &group, &log).ok()
}

#[test]
fn there_are_as_many_lists_as_goals(rt: HostRuntime) {
    assert!(rt; with_lists(rt.alloc(), 0) == Some(true));
    assert!(rt; with_lists(rt.alloc(), 1) == Some(false));
}
