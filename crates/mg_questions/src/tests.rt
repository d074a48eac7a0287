//! The Asks of worked questions, which are written as texts: the kind of question, the group, and what
//! else it is about, with bars between them. For a map the group is the one of the images.
use super::*;
use mg_fixtures::{are_words, copies, gen_map, group, part, power, word, words};
use mg_present::{Ask, GenMap};
use mg_words::Words;
use std::alloc::Global;

fn one(alloc: Global, text: &str) -> Option<Question> {
    let group = group(alloc, part(text, 1))?;
    let word = word(alloc, part(text, 2));
    Some(Question::WordIsOne { group, word })
}

fn equal(alloc: Global, text: &str) -> Option<Question> {
    let group = group(alloc, part(text, 1))?;
    let left = word(alloc, part(text, 2));
    let right = word(alloc, part(text, 3));
    Some(Question::WordsEqual { group, left, right })
}

fn inside(alloc: Global, text: &str) -> Option<Question> {
    let group = group(alloc, part(text, 1))?;
    let subgroup = words(alloc, part(text, 2));
    let word = word(alloc, part(text, 3));
    Some(Question::InSubgroup {
        group,
        subgroup,
        word,
    })
}

fn trivial(alloc: Global, text: &str) -> Option<Question> {
    let group = group(alloc, part(text, 1))?;
    Some(Question::Trivial { group })
}

fn abelian(alloc: Global, text: &str) -> Option<Question> {
    let group = group(alloc, part(text, 1))?;
    Some(Question::Abelian { group })
}

fn central(alloc: Global, text: &str) -> Option<Question> {
    let group = group(alloc, part(text, 1))?;
    let word = word(alloc, part(text, 2));
    Some(Question::Central { group, word })
}

fn normal(alloc: Global, text: &str) -> Option<Question> {
    let group = group(alloc, part(text, 1))?;
    let subgroup = words(alloc, part(text, 2));
    Some(Question::Normal { group, subgroup })
}

fn onto(alloc: Global, text: &str) -> Option<Question> {
    let target = group(alloc, part(text, 1))?;
    let map = gen_map(alloc, part(text, 2));
    Some(Question::Onto { target, map })
}

fn kernel(alloc: Global, text: &str, map: GenMap) -> Option<Question> {
    let target = group(alloc, part(text, 1))?;
    let word = word(alloc, part(text, 3));
    Some(Question::InKernel { target, map, word })
}

fn extends(alloc: Global, text: &str, map: GenMap) -> Option<Question> {
    let target = group(alloc, part(text, 1))?;
    let source = group(alloc, part(text, 3))?;
    Some(Question::Extends {
        source,
        target,
        map,
    })
}

// The question that is written so.
fn question(alloc: Global, text: &str) -> Option<Question> {
    match part(text, 0) {
        "one" => one(alloc, text),
        "equal" => equal(alloc, text),
        "inside" => inside(alloc, text),
        "trivial" => trivial(alloc, text),
        "abelian" => abelian(alloc, text),
        "central" => central(alloc, text),
        "normal" => normal(alloc, text),
        "onto" => onto(alloc, text),
        "kernel" => kernel(alloc, text, gen_map(alloc, part(text, 2))),
        "extends" => extends(alloc, text, gen_map(alloc, part(text, 2))),
        _ => None,
    }
}

// The Ask of a question, if it is fit and has one.
fn ask(alloc: Global, question: &Question) -> Option<Ask> {
    if !is_fit(question) {
        return None;
    }
    ask_of(alloc, question).ok()
}

// Whether the question that is written before the arrow has the goals that are written behind it.
fn asks_for(alloc: Global, line: &str) -> Option<bool> {
    let (text, goals) = line.split_once("->")?;
    let ask = ask(alloc, &question(alloc, text)?)?;
    Some(are_words(alloc, ask.goals(), goals))
}

const WORKED: &str = "equal | 2 | ab | ba -> abAB
equal | 2 | ab | b -> a
one | 2 | ab -> ab
inside | 2 aa bbb abab | b | aba -> aba
normal | 2 aa bbb abab | a -> a a baB Bab
central | 2 aa bbb abab | b -> BAba 1
abelian | 2 aa bbb abab -> ABab
trivial | 2 aa bbb abab -> a b
extends | 1 aaaa | aa | 1 aa -> aaaa
onto | 1 aaaa | aa -> a
kernel | 1 aaaa | aa | a -> aa
trivial | 0 ->
abelian | 1 ->
central | 0 | 1 ->
onto | 0 | ->
normal | 2 | ->
normal | 0 | 1 ->
extends | 1 aaaa | aa | 1 ->";

#[test]
fn questions_ask_for_their_goals(rt: HostRuntime) {
    for line in WORKED.lines() {
        assert!(rt; asks_for(rt.alloc(), line) == Some(true), "{line}");
    }
}

#[test]
fn a_word_that_is_not_reduced_is_unfit(rt: HostRuntime) {
    let unfit = match question(rt.alloc(), "equal | 2 | aA | a") {
        Some(question) => !is_fit(&question),
        None => false,
    };
    assert!(rt; unfit);
}

// Whether the Ask of the question has so many goals.
fn has_goals(alloc: Global, question: Option<Question>, count: usize) -> bool {
    match question {
        Some(question) => match ask(alloc, &question) {
            Some(ask) => ask.goals().len() == count,
            None => false,
        },
        None => false,
    }
}

// Whether the question is fit and refused so.
fn is_refused(alloc: Global, question: Option<Question>, fault: AskFault) -> bool {
    let Some(question) = question else {
        return false;
    };
    if !is_fit(&question) {
        return false;
    }
    match ask_of(alloc, &question) {
        Ok(_) => false,
        Err(found) => found == fault,
    }
}

// Whether so many copies of a subgroup word are normal in the group.
fn copies_are_normal(alloc: Global, in_group: &str, member: &str, count: u32) -> Option<Question> {
    let group = group(alloc, in_group)?;
    let subgroup = copies(alloc, member, count);
    Some(Question::Normal { group, subgroup })
}

#[test]
fn an_ask_has_at_most_4096_goals(rt: HostRuntime) {
    let alloc = rt.alloc();
    assert!(rt;
        has_goals(
            alloc,
            copies_are_normal(alloc, "2 aa bbb abab", "b", 64),
            256
        )
    );
    assert!(rt; has_goals(alloc, copies_are_normal(alloc, "64", "a", 32), 4_096));
    let many = AskFault::TooManyGoals { count: 4_224 };
    assert!(rt; is_refused(alloc, copies_are_normal(alloc, "64", "a", 33), many));
}

// The map that takes a to its power of 8000.
fn long_map(alloc: Global) -> GenMap {
    let mut images = Words::new(alloc);
    let _ = images.push(power(alloc, "a", 8_000));
    GenMap::new(images)
}

// The fault of a goal of 48,000 letters at this place.
fn too_long(goal: u32) -> AskFault {
    AskFault::GoalTooLong {
        goal,
        length: 48_000,
    }
}

#[test]
fn a_goal_has_at_most_40000_letters(rt: HostRuntime) {
    let alloc = rt.alloc();
    let within = kernel(alloc, "kernel | 1 | | aaaaa", long_map(alloc));
    assert!(rt; has_goals(alloc, within, 1));
    let beyond = kernel(alloc, "kernel | 1 | | aaaaaa", long_map(alloc));
    assert!(rt; is_refused(alloc, beyond, too_long(0)));
    let second = extends(
        alloc,
        "extends | 1 | | 1 aaaaa aaaaaa aaaaaaa",
        long_map(alloc),
    );
    assert!(rt; is_refused(alloc, second, too_long(1)));
}
