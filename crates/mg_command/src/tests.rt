use super::*;
use std::alloc::Global;
use std::test::Fail;

fn runs(alloc: Global, words: &[&str], workers: u64, policy: PolicyName) -> bool {
    read_words(alloc, words) == Ok(Command::Run { workers, policy })
}

fn samples(alloc: Global, words: &[&str], number: u64, runs: bool) -> bool {
    read_words(alloc, words) == Ok(Command::Sample { number, runs })
}

fn lacks(alloc: Global, words: &[&str], cause: UsageCause) -> bool {
    read_words(alloc, words) == Err(WordsRefused::Usage(cause))
}

fn are_bad(alloc: Global, words: &[&str]) -> bool {
    lacks(alloc, words, UsageCause::BadWords)
}

#[test]
fn settings_come_in_any_order(rt: HostRuntime) -> Result<(), Fail> {
    assert!(rt; runs(rt.alloc(), &["run"], 4, PolicyName::Even));
    assert!(rt;
        runs(
            rt.alloc(),
            &["run", "--workers", "0000000004"],
            4,
            PolicyName::Even
        )
    );
    assert!(rt;
        runs(
            rt.alloc(),
            &["run", "--policy=doubling", "--workers=64"],
            64,
            PolicyName::Doubling
        )
    );
    assert!(rt;
        runs(
            rt.alloc(),
            &["run", "--workers", "8", "--policy", "doubling"],
            8,
            PolicyName::Doubling
        )
    );
    assert!(rt;
        runs(
            rt.alloc(),
            &["run", "--policy", "even", "--workers=1"],
            1,
            PolicyName::Even
        )
    );
    Ok(())
}

#[test]
fn a_sample_is_run_before_or_behind(rt: HostRuntime) -> Result<(), Fail> {
    assert!(rt; samples(rt.alloc(), &["sample", "0"], 0, false));
    assert!(rt;
        samples(
            rt.alloc(),
            &["sample", "--run", "4611686018427387904"],
            1 << 62,
            true
        )
    );
    assert!(rt; samples(rt.alloc(), &["sample", "7", "--run"], 7, true));
    assert!(rt; read_words(rt.alloc(), &["check"]) == Ok(Command::Check));
    Ok(())
}

#[test]
fn a_command_is_named(rt: HostRuntime) -> Result<(), Fail> {
    assert!(rt; lacks(rt.alloc(), &[], UsageCause::NoCommand));
    assert!(rt; lacks(rt.alloc(), &["paint"], UsageCause::UnknownCommand));
    assert!(rt; lacks(rt.alloc(), &["--help"], UsageCause::UnknownCommand));
    assert!(rt; lacks(rt.alloc(), &[""], UsageCause::UnknownCommand));
    Ok(())
}

#[test]
fn workers_are_from_one_to_sixty_four(rt: HostRuntime) -> Result<(), Fail> {
    for value in ["65", "0", "00000000004", "x", "", "-1", "+4", "4 "] {
        assert!(rt; are_bad(rt.alloc(), &["run", "--workers", value]));
    }
    assert!(rt; are_bad(rt.alloc(), &["run", "--workers"]));
    assert!(rt; are_bad(rt.alloc(), &["run", "--workers="]));
    assert!(rt; are_bad(rt.alloc(), &["run", "--workers", "2", "--workers", "2"]));
    Ok(())
}

#[test]
fn policies_have_their_names(rt: HostRuntime) -> Result<(), Fail> {
    for value in ["Even", "growing", "", "evens"] {
        assert!(rt; are_bad(rt.alloc(), &["run", "--policy", value]));
    }
    assert!(rt; are_bad(rt.alloc(), &["run", "--policy=even", "--policy=even"]));
    Ok(())
}

#[test]
fn other_words_are_bad(rt: HostRuntime) -> Result<(), Fail> {
    for word in ["--pool", "--", "run", "--help", "-h", "--version", ""] {
        assert!(rt; are_bad(rt.alloc(), &["run", word]));
    }
    assert!(rt; are_bad(rt.alloc(), &["run", "-w", "2"]));
    assert!(rt; are_bad(rt.alloc(), &["run", "--work", "2"]));
    assert!(rt; are_bad(rt.alloc(), &["run", "--workers=2", "--policy=even", "--"]));
    assert!(rt; are_bad(rt.alloc(), &["check", "x"]));
    Ok(())
}

#[test]
fn samples_have_one_number(rt: HostRuntime) -> Result<(), Fail> {
    assert!(rt; are_bad(rt.alloc(), &["sample"]));
    assert!(rt; are_bad(rt.alloc(), &["sample", "4611686018427387905"]));
    assert!(rt; are_bad(rt.alloc(), &["sample", "00000000000000000001"]));
    assert!(rt; are_bad(rt.alloc(), &["sample", "--run"]));
    assert!(rt; are_bad(rt.alloc(), &["sample", "--run", "0", "--run"]));
    assert!(rt; are_bad(rt.alloc(), &["sample", "1", "2"]));
    Ok(())
}
