//! What the program does by its words.
use super::{ROW_WORDS, SQUARE, SQUARE_REPORT, ends_by};
use crate::*;
use mg_command::UsageCause;
use std::sync::Wait;
use std::test::Fail;
use std::thread::Threads;

/// Whether these words have the cause, and nothing is written for them.
fn lack<R: AllocGlobal + Threads + Wait + Sync>(
    rt: &R,
    words: &[&str],
    cause: UsageCause,
) -> Result<bool, Fail> {
    ends_by(rt, words, SQUARE, Status::Usage(cause), b"")
}

fn are_bad<R: AllocGlobal + Threads + Wait + Sync>(rt: &R, words: &[&str]) -> Result<bool, Fail> {
    lack(rt, words, UsageCause::BadWords)
}

fn run<R: AllocGlobal + Threads + Wait + Sync>(rt: &R, words: &[&str]) -> Result<bool, Fail> {
    ends_by(rt, words, SQUARE, Status::Done, SQUARE_REPORT)
}

fn are_not_built<R: AllocGlobal + Threads + Wait + Sync>(
    rt: &R,
    words: &[&str],
) -> Result<bool, Fail> {
    ends_by(rt, words, SQUARE, Status::NotBuilt { line: 0 }, b"")
}

#[test]
fn words_that_name_no_command_are_told(rt: HostRuntime) -> Result<(), Fail> {
    assert!(rt; lack(&rt, &[], UsageCause::NoCommand)?);
    assert!(rt; lack(&rt, &["paint"], UsageCause::UnknownCommand)?);
    assert!(rt; lack(&rt, &["--help"], UsageCause::UnknownCommand)?);
    Ok(())
}

#[test]
fn wrong_workers_are_told(rt: HostRuntime) -> Result<(), Fail> {
    for value in ["65", "0", "00000000004", "x"] {
        assert!(rt; are_bad(&rt, &["run", "--workers", value])?);
    }
    assert!(rt; are_bad(&rt, &["run", "--workers"])?);
    assert!(rt; are_bad(&rt, &["run", "--workers="])?);
    assert!(rt; are_bad(&rt, &["run", "--workers", "2", "--workers", "2"])?);
    Ok(())
}

#[test]
fn wrong_options_of_run_are_told(rt: HostRuntime) -> Result<(), Fail> {
    for word in ["--pool", "--", "run", "--help", "-w"] {
        assert!(rt; are_bad(&rt, &["run", word])?);
    }
    for (option, value) in [
        ("--policy", "Even"),
        ("--policy", "growing"),
        ("-w", "2"),
        ("--work", "2"),
    ] {
        assert!(rt; are_bad(&rt, &["run", option, value])?);
    }
    Ok(())
}

#[test]
fn wrong_words_of_other_commands_are_told(rt: HostRuntime) -> Result<(), Fail> {
    assert!(rt; are_bad(&rt, &["check", "x"])?);
    assert!(rt; are_bad(&rt, &["sample"])?);
    assert!(rt; are_bad(&rt, &["sample", "4611686018427387905"])?);
    assert!(rt; are_bad(&rt, &["sample", "--run", "0", "--run"])?);
    Ok(())
}

#[test]
fn forms_of_run_are_run(rt: HostRuntime) -> Result<(), Fail> {
    assert!(rt; run(&rt, &["run"])?);
    assert!(rt; run(&rt, &["run", "--workers", "0000000004"])?);
    assert!(rt; run(&rt, &["run", "--policy=doubling", "--workers=64"])?);
    Ok(())
}

#[test]
fn other_commands_are_not_built(rt: HostRuntime) -> Result<(), Fail> {
    assert!(rt; are_not_built(&rt, &["check"])?);
    assert!(rt; are_not_built(&rt, &["sample", "0"])?);
    assert!(rt; are_not_built(&rt, &["sample", "--run", "4611686018427387904"])?);
    Ok(())
}

const THOUSAND: &[u8] = b"group G = < a, b | a b a^-1 b^-2, b a b^-1 a^-2 >
ask t : G trivial
fund 1000
grant t derive 1000
run
report log
";

const THOUSAND_LOG: &[u8] = b"log
entry 1 pass 1 search 1 turn 0 units 1 kept 0
entry 2 pass 1 search 1 turn 1 units 2 kept 0
entry 3 pass 1 search 1 turn 2 units 4 kept 0
entry 4 pass 1 search 1 turn 3 units 8 kept 0
entry 5 pass 1 search 1 turn 4 units 16 kept 0
entry 6 pass 1 search 1 turn 5 units 32 kept 0
entry 7 pass 1 search 1 turn 6 units 64 kept 0
entry 8 pass 1 search 1 turn 7 units 128 kept 0
entry 9 pass 1 search 1 turn 8 units 256 kept 0
entry 10 pass 1 search 1 turn 9 units 489 kept 0
sum 1 t derive units 1000
end
";

const SYMMETRIC: &[u8] = b"group S3 = < a, b | a^2, b^3, (a b)^2 >
ask q : a b a b = 1 in S3
fund 200
grant q derive 200
run
report log
";

const SYMMETRIC_LOG: &[u8] = b"log
entry 1 pass 1 search 1 turn 0 units 1 kept 0
entry 2 pass 1 search 1 turn 1 units 2 kept 0
entry 3 pass 1 search 1 turn 2 units 4 kept 0
entry 4 pass 1 search 1 turn 3 units 8 kept 0
entry 5 pass 1 search 1 turn 4 units 16 kept 0
entry 6 pass 1 search 1 turn 5 units 32 kept 0
entry 7 pass 1 search 1 turn 6 units 48 kept 1
sum 1 q derive units 111
end
";

const FIVE_THOUSAND: &[u8] = b"group G = < a, b | a b a^-1 b^-2, b a b^-1 a^-2 >
ask t : G trivial
fund 5000
grant t derive 5000
run
report log
";

const FIVE_THOUSAND_LOG: &[u8] = b"log
entry 1 pass 1 search 1 turn 0 units 1024 kept 0
entry 2 pass 1 search 1 turn 1 units 1024 kept 0
entry 3 pass 1 search 1 turn 2 units 1024 kept 0
entry 4 pass 1 search 1 turn 3 units 1024 kept 0
entry 5 pass 1 search 1 turn 4 units 904 kept 0
sum 1 t derive units 5000
end
";

const DOUBLING: &[&str] = &["run", "--workers", "1", "--policy", "doubling"];

#[test]
fn doubling_turns_grow(rt: HostRuntime) -> Result<(), Fail> {
    assert!(rt; ends_by(&rt, DOUBLING, THOUSAND, Status::Done, THOUSAND_LOG)?);
    assert!(rt; ends_by(&rt, DOUBLING, SYMMETRIC, Status::Done, SYMMETRIC_LOG)?);
    Ok(())
}

#[test]
fn even_turns_are_alike(rt: HostRuntime) -> Result<(), Fail> {
    assert!(rt;
        ends_by(
            &rt,
            ROW_WORDS,
            FIVE_THOUSAND,
            Status::Done,
            FIVE_THOUSAND_LOG
        )?
    );
    Ok(())
}
