//! Scripts, resolved: the causes of refusals with their places, and plans. In a script that is written
//! in one line its lines end with semicolons.
use crate::plan::{Asked, Plan};
use crate::resolving::{ResolveRefused, resolve};
use mg_fixtures::are_words;
use mg_lex::Text;
use mg_script::parse;
use std::alloc::Global;

// What the script, which isn't too long, comes to. None where it is no script.
fn resolved(alloc: Global, script: &Text) -> Option<Result<Plan, ResolveRefused>> {
    let bytes = script.as_slice();
    if bytes.len() > 1_000_000 {
        return None;
    }
    match parse(alloc, bytes) {
        Ok(script) => Some(resolve(alloc, script)),
        Err(_) => None,
    }
}

// The plan of the script, if it has one.
fn plan_of(alloc: Global, script: &Text) -> Option<Plan> {
    match resolved(alloc, script) {
        Some(Ok(plan)) => Some(plan),
        _ => None,
    }
}

// Whether the script is refused with this message.
fn is_refused(alloc: Global, script: &Text, message: &str) -> bool {
    match resolved(alloc, script) {
        Some(Err(refused)) => match format!(in alloc; "{refused}") {
            Ok(found) => found.as_str() == message,
            Err(_) => false,
        },
        _ => false,
    }
}

// The script that is written in one line. It is shorter where memory fails.
fn script_of(alloc: Global, line: &str) -> Text {
    let mut text = Text::new(alloc);
    for byte in line.bytes() {
        let _ = text.push(if byte == b';' { b'\n' } else { byte });
    }
    text
}

// Whether the script behind the arrow is refused with the message before it.
fn refuses(alloc: Global, row: &str) -> bool {
    match row.split_once(" => ") {
        Some((message, line)) => is_refused(alloc, &script_of(alloc, line), message),
        None => false,
    }
}

const REFUSALS: &str = "line 2, column 7: NameTaken => group G = < a >;group G = < b >;
line 1, column 9: UnknownName => ask q : G trivial;group G = < a >;
line 3, column 9: WrongKind => group G = < a >;word w in G = a;ask q : w trivial;
line 2, column 9: UnknownGenerator => group G = < a | a^2 >;ask q : c = 1 in G;
line 1, column 16: GeneratorTwice => group G = < a, a >;
line 2, column 20: ImageMissing => group G = < a >;map f : G -> G = [ ];
line 3, column 9: ProcedureDoesNotApply => group G = < a | a^2 >;ask q : G trivial;grant q nielsen 1;
line 3, column 10: ProcedureDoesNotApply => group G = < a | a^2 >;ask q : G trivial;cancel q nielsen;
line 4, column 5: WordTooLong => group G = < a >;group X = < x >;map f : G -> X = [ a -> x^10000 ];ask q : a^5 in kernel f;
line 1, column 18: UnknownName => ask q : a = 1 in G;group G = < a >;";

#[test]
fn scripts_are_refused(rt: HostRuntime) {
    for row in REFUSALS.lines() {
        assert!(rt; refuses(rt.alloc(), row), "{row}");
    }
}

// Whether the script has a plan with so many steps.
fn has_steps(alloc: Global, line: &str, count: usize) -> bool {
    match plan_of(alloc, &script_of(alloc, line)) {
        Some(plan) => plan.steps.as_slice().len() == count,
        None => false,
    }
}

const WITHIN: &str =
    "group G = < a >;group X = < x >;map f : G -> X = [ a -> x^10000 ];ask q : a^4 in kernel f;";

const SESSION: &str =
    "group S = < a, b | a^2, b^3, (a b)^2 >;ask q : a b = b a in S;fund 9;grant q derive 5;run;report;cancel q derive;";

#[test]
fn a_session_has_its_steps(rt: HostRuntime) {
    assert!(rt; has_steps(rt.alloc(), WITHIN, 0));
    assert!(rt; has_steps(rt.alloc(), SESSION, 5));
}

// Whether these are the relators of the first group of the script.
fn has_relators(alloc: Global, line: &str, relators: &str) -> bool {
    let Some(plan) = plan_of(alloc, &script_of(alloc, line)) else {
        return false;
    };
    match plan.groups.as_slice() {
        [group, ..] => are_words(alloc, group.group.relators(), relators),
        [] => false,
    }
}

// Whether the first question of the script has this one goal.
fn has_goal(alloc: Global, line: &str, goal: &str) -> bool {
    let Some(plan) = plan_of(alloc, &script_of(alloc, line)) else {
        return false;
    };
    match plan.questions.as_slice() {
        [question, ..] => {
            let Asked::Plain(ask) = &question.asked;
            are_words(alloc, ask.goals(), goal)
        }
        [] => false,
    }
}

#[test]
fn words_are_written_out(rt: HostRuntime) {
    let alloc = rt.alloc();
    let group = "group S3 = < a, b | a^2, b^3, (a b)^2 >";
    assert!(rt; has_relators(alloc, group, "aa bbb abab"));
    let declared = "group G = < a | a^2 >;word w in G = a a^-1 a;ask q : w = 1 in G;";
    assert!(rt; has_goal(alloc, declared, "a"));
    let equal = "group G = < a, b | >;ask q : a b = (b^-1 a^-1)^-1 in G;";
    assert!(rt; has_goal(alloc, equal, "1"));
}

// Appends a part of a script.
fn push(text: &mut Text, part: &str) {
    let _ = text.extend_from_slice(part.as_bytes());
}

// Appends a name: a byte and a number below 1,000, in three digits.
fn push_name(text: &mut Text, first: u8, number: u32) {
    let hundreds = b'0' + (number / 100 % 10) as u8;
    let tens = b'0' + (number / 10 % 10) as u8;
    let _ = text.extend_from_slice(&[first, hundreds, tens, b'0' + (number % 10) as u8]);
}

// A group of 64 generators with a subgroup of so many words, which is asked normal.
fn normal(alloc: Global, words: u32) -> Text {
    let mut text = Text::new(alloc);
    push(&mut text, "group G = < a001");
    for number in 2..65 {
        push(&mut text, ", ");
        push_name(&mut text, b'a', number);
    }
    push(&mut text, " >\nsubgroup H of G = < a001");
    for _ in 1..words {
        push(&mut text, ", a001");
    }
    push(&mut text, " >\nask q : H normal\n");
    text
}

// Whether the script has a plan.
fn resolves(alloc: Global, script: &Text) -> bool {
    plan_of(alloc, script).is_some()
}

#[test]
fn goals_are_not_too_many(rt: HostRuntime) {
    let alloc = rt.alloc();
    assert!(rt; resolves(alloc, &normal(alloc, 32)));
    assert!(rt; is_refused(alloc, &normal(alloc, 33), "line 3, column 5: TooMany"));
}

// So many questions about a group with a relator of 9,999 letters.
fn questions(alloc: Global, count: u32) -> Text {
    let mut text = Text::new(alloc);
    push(&mut text, "group G = < a | a^9999 >\n");
    for number in 0..count {
        push(&mut text, "ask ");
        push_name(&mut text, b'q', number);
        push(&mut text, " : a = 1 in G\n");
    }
    text
}

#[test]
fn letters_of_asks_are_not_too_many(rt: HostRuntime) {
    let alloc = rt.alloc();
    assert!(rt; resolves(alloc, &questions(alloc, 800)));
    assert!(rt; is_refused(alloc, &questions(alloc, 801), "line 802, column 5: TooMany"));
}

// Appends a grant of cosets to each of so many questions.
fn push_grants(text: &mut Text, count: u32) {
    for number in 0..count {
        push(text, "grant ");
        push_name(text, b'q', number);
        push(text, " cosets 1\n");
    }
}

// Questions and grants of cosets to 64 of them, twice, after which one without a grant is cancelled.
fn most_searches(alloc: Global) -> Text {
    let mut text = questions(alloc, 65);
    push_grants(&mut text, 64);
    push_grants(&mut text, 64);
    push(&mut text, "cancel q064 cosets\n");
    text
}

// Questions and a grant of cosets to each of 65.
fn more_searches(alloc: Global) -> Text {
    let mut text = questions(alloc, 65);
    push_grants(&mut text, 65);
    text
}

#[test]
fn searches_are_not_too_many(rt: HostRuntime) {
    let alloc = rt.alloc();
    assert!(rt; resolves(alloc, &most_searches(alloc)));
    assert!(rt; is_refused(alloc, &more_searches(alloc), "line 131, column 12: TooMany"));
}
