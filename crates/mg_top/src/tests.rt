ghost use Rattle.std.specs.Prelude.{◌≤◌};

use super::*;
use mg_command::UsageCause;
use mg_io::{MemorySink, MemorySource};
use mg_lex::{Cause, Refused};
use std::sync::Wait;
use std::test::Fail;
use std::thread::Threads;

mod completed;
mod limits;
mod recalled;
mod reduced;
mod refuted;
mod rows;
mod tabled;
mod words;

/// The words by which rows are run.
const ROW_WORDS: &[&str] = &["run", "--workers", "1"];

const SQUARE: &[u8] =
    b"group G = < a | a^2 >\nask q : a^2 = 1 in G\nfund 100\ngrant q derive 21\nrun\nreport\n";

/// The status and what was written by these words, where the source fails at some reads and the sink, which takes at
/// most so many bytes a call, at some writes.
fn run_on<R: AllocGlobal + Threads + Wait + Sync>(
    rt: &R,
    words: &[&str],
    script: &[u8],
    failing_reads: &[u64],
    most: usize,
    failing_writes: &[u64],
) -> Result<(Status, Vec<u8>), Fail>
    requires { 1 ≤ most }
{
    let alloc = rt.alloc();
    let bytes = Vec::from_slice(alloc, script)?;
    let mut source = MemorySource::new(alloc, bytes, 4096, Vec::from_slice(alloc, failing_reads)?);
    let mut sink = MemorySink::new(alloc, most, Vec::from_slice(alloc, failing_writes)?);
    let status = magnus(rt, alloc, words, &mut source, &mut sink, &NoGate);
    Ok((status, Vec::from_slice(alloc, sink.taken())?))
}

const SQUARE_REPORT: &[u8] =
    b"report\nfunded 100 purse 79\nquestion q YES fact 1\ngroup < a | a^2 >\nsubgroup < >\ngoals < a^2 >\nyes derivation r1 ;\nsearch derive granted 21 spent 21 held 0 returned 0 end found\nend\n";

const TWENTY: &[u8] =
    b"group G = < a | a^2 >\nask q : a^2 = 1 in G\nfund 100\ngrant q derive 20\nrun\nreport\n";

const TWENTY_REPORT: &[u8] =
    b"report\nfunded 100 purse 80\nquestion q OPEN\ngroup < a | a^2 >\nsubgroup < >\ngoals < a^2 >\nsearch derive granted 20 spent 20 held 0 returned 0 end more\nend\n";

const CONJUGATE: &[u8] =
    b"group G = < a, b | a^2 >\nask q : b a^2 b^-1 = 1 in G\nfund 1310\ngrant q derive 1310\nrun\nreport\n";

const CONJUGATE_REPORT: &[u8] =
    b"report\nfunded 1310 purse 0\nquestion q YES fact 1\ngroup < a , b | a^2 >\nsubgroup < >\ngoals < b a^2 b^-1 >\nyes derivation b r1 b^-1 ;\nsearch derive granted 1310 spent 1310 held 0 returned 0 end found\nend\n";

const NOTHING: &[u8] =
    b"group G = < a | a^2 >\nask q : a^2 = 1 in G\nfund 5\ngrant q derive 0\nrun\nreport\n";

const NOTHING_REPORT: &[u8] =
    b"report\nfunded 5 purse 5\nquestion q OPEN\ngroup < a | a^2 >\nsubgroup < >\ngoals < a^2 >\nsearch derive granted 0 spent 0 held 0 returned 0 end fresh\nend\n";

const REFUSED: &[u8] = b"group G = < a >\nask q : c = 1 in G\n";

/// Whether a script ends with this status when these calls fail, and this was written then.
fn ends<R: AllocGlobal + Threads + Wait + Sync>(
    rt: &R,
    script: &[u8],
    failing_reads: &[u64],
    failing_writes: &[u64],
    status: Status,
    output: &[u8],
) -> Result<bool, Fail> {
    let (ended, taken) = run_on(rt, ROW_WORDS, script, failing_reads, 10, failing_writes)?;
    Ok(ended == status && taken.as_slice() == output)
}

/// Whether a script ends with this status by these words, and this was written then.
fn ends_by<R: AllocGlobal + Threads + Wait + Sync>(
    rt: &R,
    words: &[&str],
    script: &[u8],
    status: Status,
    output: &[u8],
) -> Result<bool, Fail> {
    let (ended, taken) = run_on(rt, words, script, &[], 10, &[])?;
    Ok(ended == status && taken.as_slice() == output)
}

#[test]
fn scripts_give_their_outputs(rt: HostRuntime) -> Result<(), Fail> {
    assert!(rt; ends(&rt, SQUARE, &[], &[], Status::Done, SQUARE_REPORT)?);
    assert!(rt; ends(&rt, TWENTY, &[], &[], Status::Done, TWENTY_REPORT)?);
    Ok(())
}

#[test]
fn all_units_or_none_are_spent(rt: HostRuntime) -> Result<(), Fail> {
    assert!(rt; ends(&rt, CONJUGATE, &[], &[], Status::Done, CONJUGATE_REPORT)?);
    assert!(rt; ends(&rt, NOTHING, &[], &[], Status::Done, NOTHING_REPORT)?);
    Ok(())
}

#[test]
fn refused_scripts_are_told(rt: HostRuntime) -> Result<(), Fail> {
    assert!(rt;
        ends(
            &rt,
            REFUSED,
            &[],
            &[],
            refused_at(2, 9, Cause::UnknownGenerator),
            b""
        )?
    );
    Ok(())
}

#[test]
fn faults_are_told(rt: HostRuntime) -> Result<(), Fail> {
    assert!(rt; ends(&rt, SQUARE, &[1], &[], Status::ReadFault, b"")?);
    assert!(rt; ends(&rt, SQUARE, &[], &[1], Status::WriteFault, b"report\nfun")?);
    Ok(())
}

fn refused_at(line: u32, column: u32, cause: Cause) -> Status {
    Status::ScriptRefused(Refused {
        line,
        column,
        cause,
    })
}

/// Whether a status has this exit status, and this is said of it.
fn tells<R: AllocGlobal>(rt: &R, status: Status, exit: u8, said: &[u8]) -> Result<bool, Fail> {
    let text = message(rt.alloc(), &status)?;
    Ok(code(&status) == exit && text.as_slice() == said)
}

#[test]
fn faults_have_their_exits(rt: HostRuntime) -> Result<(), Fail> {
    assert!(rt; tells(&rt, Status::Done, 0, b"")?);
    assert!(rt; tells(&rt, Status::ReadFault, 1, b"magnus: read fault")?);
    assert!(rt; tells(&rt, Status::WriteFault, 1, b"magnus: write fault")?);
    Ok(())
}

#[test]
fn words_have_their_exits(rt: HostRuntime) -> Result<(), Fail> {
    for (cause, said) in [
        (UsageCause::NoCommand, &b"magnus: usage: NoCommand"[..]),
        (
            UsageCause::UnknownCommand,
            &b"magnus: usage: UnknownCommand"[..],
        ),
        (UsageCause::BadWords, &b"magnus: usage: BadWords"[..]),
    ] {
        assert!(rt; tells(&rt, Status::Usage(cause), 2, said)?);
    }
    Ok(())
}

#[test]
fn limits_have_their_exits(rt: HostRuntime) -> Result<(), Fail> {
    assert!(rt; tells(&rt, Status::TooLong, 3, b"magnus: input too long")?);
    assert!(rt; tells(&rt, Status::NoMemory, 4, b"magnus: no memory")?);
    Ok(())
}

#[test]
fn refusals_have_their_exits(rt: HostRuntime) -> Result<(), Fail> {
    let first = refused_at(2, 9, Cause::UnknownGenerator);
    assert!(rt;
        tells(
            &rt,
            first,
            3,
            b"magnus: line 2 column 9: S11 UnknownGenerator"
        )?
    );
    let second = refused_at(10, 65_537, Cause::LineTooLong);
    assert!(rt;
        tells(
            &rt,
            second,
            3,
            b"magnus: line 10 column 65537: S4 LineTooLong"
        )?
    );
    Ok(())
}

#[test]
fn words_that_are_not_built_have_their_exits(rt: HostRuntime) -> Result<(), Fail> {
    assert!(rt;
        tells(
            &rt,
            Status::NotBuilt { line: 0 },
            6,
            b"magnus: line 0: not built"
        )?
    );
    Ok(())
}
