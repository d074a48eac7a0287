//! Whole scripts with all that they print.
use super::{ends, refused_at};
use crate::*;
use mg_lex::Cause;
use std::sync::Wait;
use std::test::Fail;
use std::thread::Threads;

const TRIVIAL: &[u8] = b"group G = < | >
ask t : G trivial
fund 1
grant t derive 1
run
report
";

const TRIVIAL_REPORT: &[u8] = b"report
funded 1 purse 0
question t YES fact 1
group < | >
subgroup < >
goals < >
yes derivation
search derive granted 1 spent 1 held 0 returned 0 end found
end
";

const ONE_MORE: &[u8] = b"group G = < a | a^2 >
ask q : a^2 = 1 in G
fund 100
grant q derive 20
run
report
grant q derive 1
run
report
";

const ONE_MORE_REPORT: &[u8] = b"report
funded 100 purse 80
question q OPEN
group < a | a^2 >
subgroup < >
goals < a^2 >
search derive granted 20 spent 20 held 0 returned 0 end more
end
report
funded 100 purse 79
question q YES fact 1
group < a | a^2 >
subgroup < >
goals < a^2 >
yes derivation r1 ;
search derive granted 21 spent 21 held 0 returned 0 end found
end
";

const ALONE: &[u8] = b"group S3 = < a, b | a^2, b^3, (a b)^2 >
ask q : b a b = a in S3
fund 30000
grant q derive 30000
run 3000
run
report
report log
";

const ALONE_REPORT: &[u8] = b"report
funded 30000 purse 6250
question q YES fact 1
group < a , b | a^2 , b^3 , a b a b >
subgroup < >
goals < b a b a^-1 >
yes derivation a r1^-1 r3 a^-1 ;
search derive granted 30000 spent 23750 held 0 returned 6250 end found
end
log
entry 1 pass 1 search 1 turn 0 units 1024 kept 0
entry 2 pass 1 search 1 turn 1 units 1024 kept 0
entry 3 pass 1 search 1 turn 2 units 952 kept 0
entry 4 pass 1 search 1 turn 3 units 1024 kept 0
entry 5 pass 1 search 1 turn 4 units 1024 kept 0
entry 6 pass 1 search 1 turn 5 units 1024 kept 0
entry 7 pass 1 search 1 turn 6 units 1024 kept 0
entry 8 pass 1 search 1 turn 7 units 1024 kept 0
entry 9 pass 1 search 1 turn 8 units 1024 kept 0
entry 10 pass 1 search 1 turn 9 units 1024 kept 0
entry 11 pass 1 search 1 turn 10 units 1024 kept 0
entry 12 pass 1 search 1 turn 11 units 1024 kept 0
entry 13 pass 1 search 1 turn 12 units 1024 kept 0
entry 14 pass 1 search 1 turn 13 units 1024 kept 0
entry 15 pass 1 search 1 turn 14 units 1024 kept 0
entry 16 pass 1 search 1 turn 15 units 1024 kept 0
entry 17 pass 1 search 1 turn 16 units 1024 kept 0
entry 18 pass 1 search 1 turn 17 units 1024 kept 0
entry 19 pass 1 search 1 turn 18 units 1024 kept 0
entry 20 pass 1 search 1 turn 19 units 1024 kept 0
entry 21 pass 1 search 1 turn 20 units 1024 kept 0
entry 22 pass 1 search 1 turn 21 units 1024 kept 0
entry 23 pass 1 search 1 turn 22 units 1024 kept 0
entry 24 pass 1 search 1 turn 23 units 270 kept 1
sum 1 q derive units 23750
end
";

const IDENTITY: &[u8] = b"group G = < a | a^2 >
ask q : 1 = 1 in G
fund 100
grant q derive 100
run
report
";

const IDENTITY_REPORT: &[u8] = b"report
funded 100 purse 94
question q YES fact 1
group < a | a^2 >
subgroup < >
goals < 1 >
yes derivation ;
search derive granted 100 spent 6 held 0 returned 94 end found
end
";

const SYMMETRIC: &[u8] = b"group S3 = < a, b | a^2, b^3, (a b)^2 >
ask q : a b a b = 1 in S3
fund 1000
grant q derive 200
run
report
report facts
report log
";

const SYMMETRIC_REPORT: &[u8] = b"report
funded 1000 purse 889
question q YES fact 1
group < a , b | a^2 , b^3 , a b a b >
subgroup < >
goals < a b a b >
yes derivation r3 ;
search derive granted 200 spent 111 held 0 returned 89 end found
end
facts
fact 1 settled
group < x1 , x2 | x1^2 , x2^3 , x1 x2 x1 x2 >
subgroup < >
goals < x1 x2 x1 x2 >
yes derivation r3 ;
end
log
entry 1 pass 1 search 1 turn 0 units 111 kept 1
sum 1 q derive units 111
end
";

// Carriage returns, tabs, comments and stars.
const DRESSED: &[u8] = b"group\tS3 = <a,b|a^2,\tb^3,(a b)^2> # three relators\r
ask q : a*b*a*b = 1 in S3 # stars\r
fund\t1000#\r
\r
grant q derive 200\t# all at once\r
run # !\r
report # what came of it\r
report\tfacts# and how\r
report log#";

const SHARED: &[u8] = b"group G = < a | a^2 >
ask p : a^2 = 1 in G
ask q : a a = 1 in G
fund 21
grant p derive 21
run
report
";

const SHARED_REPORT: &[u8] = b"report
funded 21 purse 0
question p YES fact 1
group < a | a^2 >
subgroup < >
goals < a^2 >
yes derivation r1 ;
search derive granted 21 spent 21 held 0 returned 0 end found
question q YES fact 1
group < a | a^2 >
subgroup < >
goals < a^2 >
yes derivation r1 ;
end
";

const HIGMAN: &[u8] = b"group G = < a, b | a b a^-1 b^-2, b a b^-1 a^-2 >
ask t : G trivial
fund 1000
grant t derive 1000
run
report
";

const HIGMAN_REPORT: &[u8] = b"report
funded 1000 purse 0
question t OPEN
group < a , b | a b a^-1 b^-2 , b a b^-1 a^-2 >
subgroup < >
goals < a , b >
search derive granted 1000 spent 1000 held 0 returned 0 end more
end
";

const REFUSED_STEPS: &[u8] = b"group G = < a | a^2 >
ask q : a = 1 in G
fund 5
grant q derive 10
report
cancel q derive
fund 4611686018427387904
fund 4611686018427387899
fund 1
";

const REFUSED_STEPS_REPORT: &[u8] = b"grant refused: purse 5
report
funded 5 purse 5
question q OPEN
group < a | a^2 >
subgroup < >
goals < a >
end
cancel refused: no search
fund refused: funded 5
fund refused: funded 4611686018427387904
";

const MEMBER: &[u8] = b"group S3 = < a, b | a^2, b^3, (a b)^2 >
subgroup H of S3 = < b >
ask q : a b a in H
fund 1691
grant q derive 1691
run
report
";

const MEMBER_REPORT: &[u8] = b"report
funded 1691 purse 0
question q YES fact 1
group < a , b | a^2 , b^3 , a b a b >
subgroup < b >
goals < a b a >
yes derivation r3 [1]^-1 ;
search derive granted 1691 spent 1691 held 0 returned 0 end found
end
";

const FREE: &[u8] = b"group F = < a, b >
subgroup H of F = < a^2, a b >
ask q : b^-1 a in H
fund 703
grant q derive 703
run
report
";

const FREE_REPORT: &[u8] = b"report
funded 703 purse 0
question q YES fact 1
group < a , b | >
subgroup < a^2 , a b >
goals < b^-1 a >
yes derivation [2]^-1 [1] ;
search derive granted 703 spent 703 held 0 returned 0 end found
end
";

const EXTENDS: &[u8] = b"group G = < a | a^2 >
group K = < x | x^4 >
map f : G -> K = [ a -> x^2 ]
ask e : f extends
fund 21
grant e derive 21
run
report
";

const EXTENDS_REPORT: &[u8] = b"report
funded 21 purse 0
question e YES fact 1
group < x | x^4 >
subgroup < >
goals < x^4 >
yes derivation r1 ;
search derive granted 21 spent 21 held 0 returned 0 end found
end
";

const SEVERAL: &[u8] = b"group S3 = < a, b | a^2, b^3, (a b)^2 >
group G = < a | a^2 >
subgroup H of S3 = < b >
ask q : a b a in H
ask p : a^2 = 1 in G
ask s : a a^-1 a^2 = 1 in G
ask o : a = 1 in G
fund 10000
grant q derive 1691
grant p derive 21
grant s derive 500
grant o derive 1500
run
report
report facts
report log
";

const SEVERAL_REPORT: &[u8] = b"report
funded 10000 purse 6767
question q YES fact 2
group < a , b | a^2 , b^3 , a b a b >
subgroup < b >
goals < a b a >
yes derivation r3 [1]^-1 ;
search derive granted 1691 spent 1691 held 0 returned 0 end found
question p YES fact 1
group < a | a^2 >
subgroup < >
goals < a^2 >
yes derivation r1 ;
search derive granted 21 spent 21 held 0 returned 0 end found
question s YES fact 1
group < a | a^2 >
subgroup < >
goals < a^2 >
yes derivation r1 ;
search derive granted 500 spent 21 held 0 returned 479 end stopped
question o OPEN
group < a | a^2 >
subgroup < >
goals < a >
search derive granted 1500 spent 1500 held 0 returned 0 end more
end
facts
fact 1 settled
group < x1 | x1^2 >
subgroup < >
goals < x1^2 >
yes derivation r1 ;
fact 2 settled
group < x1 , x2 | x1^2 , x2^3 , x1 x2 x1 x2 >
subgroup < x2 >
goals < x1 x2 x1 >
yes derivation r3 [1]^-1 ;
end
log
entry 1 pass 1 search 1 turn 0 units 1024 kept 0
entry 2 pass 1 search 2 turn 0 units 21 kept 1
entry 3 pass 1 search 3 turn 0 units 21 dropped by 1
entry 4 pass 1 search 4 turn 0 units 1024 kept 0
entry 5 pass 1 search 1 turn 1 units 667 kept 1
entry 6 pass 1 search 4 turn 1 units 476 kept 0
sum 1 q derive units 1691
sum 2 p derive units 21
sum 3 s derive units 21
sum 4 o derive units 1500
end
";

const RESUMED: &[u8] = b"group G = < a | a^2 >
ask q : a^2 = 1 in G
fund 100
grant q derive 20
run 10
cancel q derive
grant q derive 11
report
run
grant q derive 5
report
run 0
report
";

const RESUMED_REPORT: &[u8] = b"report
funded 100 purse 79
question q OPEN
group < a | a^2 >
subgroup < >
goals < a^2 >
search derive granted 31 spent 10 held 11 returned 10 end more
end
report
funded 100 purse 74
question q YES fact 1
group < a | a^2 >
subgroup < >
goals < a^2 >
yes derivation r1 ;
search derive granted 36 spent 21 held 5 returned 10 end found
end
report
funded 100 purse 79
question q YES fact 1
group < a | a^2 >
subgroup < >
goals < a^2 >
yes derivation r1 ;
search derive granted 36 spent 21 held 0 returned 15 end found
end
";

// The question below the first report isn't in it, and a grant of no units makes a search.
const BELOW: &[u8] = b"group G = < a | a^2 >
ask p : a^2 = 1 in G
report
ask q : a = 1 in G
grant q derive 0
report
";

const BELOW_REPORT: &[u8] = b"report
funded 0 purse 0
question p OPEN
group < a | a^2 >
subgroup < >
goals < a^2 >
end
report
funded 0 purse 0
question p OPEN
group < a | a^2 >
subgroup < >
goals < a^2 >
question q OPEN
group < a | a^2 >
subgroup < >
goals < a >
search derive granted 0 spent 0 held 0 returned 0 end fresh
end
";

const UNKNOWN: &[u8] = b"group G = < a | a^2 >
ask q : c = 1 in G
";

const TOO_LONG_WORD: &[u8] = b"group G = < a | a^2 >
ask q : a^10001 = 1 in G
";

/// Whether a script prints this.
pub(super) fn prints<R: AllocGlobal + Threads + Wait + Sync>(
    rt: &R,
    script: &[u8],
    output: &[u8],
) -> Result<bool, Fail> {
    ends(rt, script, &[], &[], Status::Done, output)
}

#[test]
fn small_scripts_print_their_reports(rt: HostRuntime) -> Result<(), Fail> {
    assert!(rt; prints(&rt, b"", b"")?);
    assert!(rt; prints(&rt, TRIVIAL, TRIVIAL_REPORT)?);
    assert!(rt; prints(&rt, IDENTITY, IDENTITY_REPORT)?);
    Ok(())
}

#[test]
fn facts_and_logs_are_printed(rt: HostRuntime) -> Result<(), Fail> {
    assert!(rt; prints(&rt, SYMMETRIC, SYMMETRIC_REPORT)?);
    assert!(rt; prints(&rt, DRESSED, SYMMETRIC_REPORT)?);
    Ok(())
}

#[test]
fn open_questions_name_their_units(rt: HostRuntime) -> Result<(), Fail> {
    assert!(rt; prints(&rt, ONE_MORE, ONE_MORE_REPORT)?);
    assert!(rt; prints(&rt, HIGMAN, HIGMAN_REPORT)?);
    Ok(())
}

#[test]
fn refused_steps_print_their_lines(rt: HostRuntime) -> Result<(), Fail> {
    assert!(rt; prints(&rt, REFUSED_STEPS, REFUSED_STEPS_REPORT)?);
    assert!(rt; prints(&rt, BELOW, BELOW_REPORT)?);
    Ok(())
}

#[test]
fn subgroups_and_maps_are_asked_about(rt: HostRuntime) -> Result<(), Fail> {
    assert!(rt; prints(&rt, MEMBER, MEMBER_REPORT)?);
    assert!(rt; prints(&rt, FREE, FREE_REPORT)?);
    assert!(rt; prints(&rt, EXTENDS, EXTENDS_REPORT)?);
    Ok(())
}

#[test]
fn searches_share_one_log(rt: HostRuntime) -> Result<(), Fail> {
    assert!(rt; prints(&rt, SHARED, SHARED_REPORT)?);
    assert!(rt; prints(&rt, SEVERAL, SEVERAL_REPORT)?);
    Ok(())
}

#[test]
fn a_search_alone_makes_many_turns(rt: HostRuntime) -> Result<(), Fail> {
    assert!(rt; prints(&rt, ALONE, ALONE_REPORT)?);
    Ok(())
}

#[test]
fn searches_are_resumed(rt: HostRuntime) -> Result<(), Fail> {
    assert!(rt; prints(&rt, RESUMED, RESUMED_REPORT)?);
    Ok(())
}

/// Whether a script ends with this status, and nothing is written.
pub(super) fn fails<R: AllocGlobal + Threads + Wait + Sync>(
    rt: &R,
    script: &[u8],
    status: Status,
) -> Result<bool, Fail> {
    ends(rt, script, &[], &[], status, b"")
}

#[test]
fn scripts_are_refused_at_their_places(rt: HostRuntime) -> Result<(), Fail> {
    assert!(rt; fails(&rt, UNKNOWN, refused_at(2, 9, Cause::UnknownGenerator))?);
    assert!(rt; fails(&rt, TOO_LONG_WORD, refused_at(2, 11, Cause::WordTooLong))?);
    Ok(())
}

/// So many line feeds.
fn feeds<R: AllocGlobal>(rt: &R, count: usize) -> Result<Vec<u8>, Fail> {
    let mut bytes = Vec::new(rt.alloc());
    for _ in 0..count {
        bytes.push(b'\n')?;
    }
    Ok(bytes)
}

#[test]
fn long_inputs_are_refused(rt: HostRuntime) -> Result<(), Fail> {
    let most = feeds(&rt, 1_048_576)?;
    assert!(rt; fails(&rt, most.as_slice(), Status::Done)?);
    let more = feeds(&rt, 1_048_577)?;
    assert!(rt; fails(&rt, more.as_slice(), Status::TooLong)?);
    Ok(())
}

/// Appends bytes.
fn push_bytes(text: &mut Vec<u8>, bytes: &[u8]) -> Result<(), Fail> {
    for byte in bytes {
        text.push(*byte)?;
    }
    Ok(())
}

/// Appends a generator: an `x` and a number below 100.
fn push_generator(text: &mut Vec<u8>, number: u8) -> Result<(), Fail> {
    text.push(b'x')?;
    let tens = number % 100 / 10;
    if tens > 0 {
        text.push(b'0' + tens)?;
    }
    text.push(b'0' + number % 10)?;
    Ok(())
}

/// Appends 64 generators, and four powers of each as relators.
fn push_large(text: &mut Vec<u8>, comma: &[u8]) -> Result<(), Fail> {
    for number in 1..=64 {
        push_bytes(text, if number == 1 { b"" } else { comma })?;
        push_generator(text, number)?;
    }
    push_bytes(text, b" |")?;
    for number in 1..=64 {
        for power in [b"^2", b"^4", b"^6", b"^8"] {
            push_bytes(
                text,
                if number == 1 && power == b"^2" {
                    b" "
                } else {
                    comma
                },
            )?;
            push_generator(text, number)?;
            push_bytes(text, power)?;
        }
    }
    Ok(())
}

/// The report of the one question of a large group, which is open.
fn push_report(text: &mut Vec<u8>, purse: &[u8], search: &[u8]) -> Result<(), Fail> {
    push_bytes(text, b"report\nfunded 100 purse ")?;
    push_bytes(text, purse)?;
    push_bytes(text, b"\nquestion q OPEN\ngroup < ")?;
    push_large(text, b" , ")?;
    push_bytes(
        text,
        b" >\nsubgroup < >\ngoals < x1 x2 >\nsearch derive granted 100 spent 50 ",
    )?;
    push_bytes(text, search)?;
    push_bytes(text, b"\nend\n")
}

const LARGE_STEPS: &[u8] = b" >
ask q : x1 x2 = 1 in G
fund 100
grant q derive 100
run 50
report
cancel q derive
report
";

#[test]
fn large_groups_are_run_with_a_bound(rt: HostRuntime) -> Result<(), Fail> {
    let mut script = Vec::new(rt.alloc());
    push_bytes(&mut script, b"group G = < ")?;
    push_large(&mut script, b", ")?;
    push_bytes(&mut script, LARGE_STEPS)?;
    let mut output = Vec::new(rt.alloc());
    push_report(&mut output, b"0", b"held 50 returned 0 end more")?;
    push_report(&mut output, b"50", b"held 0 returned 50 end cancelled")?;
    assert!(rt; prints(&rt, script.as_slice(), output.as_slice())?);
    Ok(())
}
