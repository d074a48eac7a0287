//! Whole scripts with searches that read what others published.
use super::rows::prints;
use crate::*;
use std::test::Fail;

const BEHIND: &[u8] = b"group S3 = < a, b | a^2, b^3, (a b)^2 >
ask e : b = 1 in S3
ask c : S3 abelian
fund 105
grant e act 100
grant c recall 5
run
report
report log
";

const BEHIND_REPORT: &[u8] = b"report
funded 105 purse 89
question e NO fact 1
group < a , b | a^2 , b^3 , a b a b >
subgroup < >
goals < b >
no goal 1 action 3 : 0 2 1 , 1 2 0
search act granted 100 spent 15 held 0 returned 85 end found
question c NO fact 3
group < a , b | a^2 , b^3 , a b a b >
subgroup < >
goals < a^-1 b^-1 a b >
no goal 1 action 3 : 0 2 1 , 1 2 0
search recall granted 5 spent 1 held 0 returned 4 end found
end
log
entry 1 pass 1 search 1 turn 0 units 15 kept 2
entry 2 pass 1 search 2 turn 0 units 1 kept 2
sum 1 e act units 15
sum 2 c recall units 1
end
";

const BEFORE: &[u8] = b"group S3 = < a, b | a^2, b^3, (a b)^2 >
ask e : b = 1 in S3
ask c : S3 abelian
fund 105
grant c recall 5
grant e act 100
run
report
report log
";

const BEFORE_REPORT: &[u8] = b"report
funded 105 purse 89
question e NO fact 1
group < a , b | a^2 , b^3 , a b a b >
subgroup < >
goals < b >
no goal 1 action 3 : 0 2 1 , 1 2 0
search act granted 100 spent 15 held 0 returned 85 end found
question c NO fact 3
group < a , b | a^2 , b^3 , a b a b >
subgroup < >
goals < a^-1 b^-1 a b >
no goal 1 action 3 : 0 2 1 , 1 2 0
search recall granted 5 spent 1 held 0 returned 4 end found
end
log
entry 1 pass 1 search 1 turn 0 units 0 kept 0
entry 2 pass 1 search 2 turn 0 units 15 kept 2
entry 3 pass 1 search 1 turn 1 units 1 kept 2
sum 1 c recall units 1
sum 2 e act units 15
end
";

const IDLE: &[u8] = b"group S3 = < a, b | a^2, b^3, (a b)^2 >
ask c : b^3 = 1 in S3
ask e : b = 1 in S3
ask f : a = 1 in S3
fund 115
grant c recall 5
grant e act 100
grant f residue 10
run
report log
run
report log
";

const IDLE_REPORT: &[u8] = b"log
entry 1 pass 1 search 1 turn 0 units 0 kept 0
entry 2 pass 1 search 2 turn 0 units 15 kept 2
entry 3 pass 1 search 3 turn 0 units 3 kept 2
entry 4 pass 1 search 1 turn 1 units 2 kept 0
entry 5 pass 1 search 1 turn 2 units 0 kept 0
sum 1 c recall units 2
sum 2 e act units 15
sum 3 f residue units 3
end
log
entry 1 pass 1 search 1 turn 0 units 0 kept 0
entry 2 pass 1 search 2 turn 0 units 15 kept 2
entry 3 pass 1 search 3 turn 0 units 3 kept 2
entry 4 pass 1 search 1 turn 1 units 2 kept 0
entry 5 pass 1 search 1 turn 2 units 0 kept 0
entry 6 pass 1 search 1 turn 3 units 0 kept 0
sum 1 c recall units 2
sum 2 e act units 15
sum 3 f residue units 3
end
";

const LATER: &[u8] = b"group S3 = < a, b | a^2, b^3, (a b)^2 >
ask c : b^3 = 1 in S3
ask e : b = 1 in S3
ask f : a = 1 in S3
fund 115
grant e act 100
grant f residue 10
run
grant c recall 5
run 1
report log
run
report log
";

const LATER_REPORT: &[u8] = b"log
entry 1 pass 1 search 1 turn 0 units 15 kept 2
entry 2 pass 1 search 2 turn 0 units 3 kept 2
entry 3 pass 1 search 3 turn 0 units 1 kept 0
sum 1 e act units 15
sum 2 f residue units 3
sum 3 c recall units 1
end
log
entry 1 pass 1 search 1 turn 0 units 15 kept 2
entry 2 pass 1 search 2 turn 0 units 3 kept 2
entry 3 pass 1 search 3 turn 0 units 1 kept 0
entry 4 pass 1 search 3 turn 1 units 1 kept 0
entry 5 pass 1 search 3 turn 2 units 0 kept 0
sum 1 e act units 15
sum 2 f residue units 3
sum 3 c recall units 2
end
";

const BY_COSETS: &[u8] = b"group S3 = < a, b | a^2, b^3, (a b)^2 >
subgroup H of S3 = < b >
ask q : b^2 in H
ask c : a = 1 in S3
fund 15
grant q cosets 10
grant c recall 5
run
report
report facts
";

const BY_COSETS_REPORT: &[u8] = b"report
funded 15 purse 4
question q OPEN
group < a , b | a^2 , b^3 , a b a b >
subgroup < b >
goals < b^2 >
search cosets granted 10 spent 1 held 9 returned 0 end closed
question c NO fact 2
group < a , b | a^2 , b^3 , a b a b >
subgroup < >
goals < a >
no goal 1 action 2 : 1 0 , 0 1
search recall granted 5 spent 1 held 0 returned 4 end found
end
facts
fact 1 model
group < x1 , x2 | x1^2 , x2^3 , x1 x2 x1 x2 >
model action 2 : 1 0 , 0 1
fact 2 settled
group < x1 , x2 | x1^2 , x2^3 , x1 x2 x1 x2 >
subgroup < >
goals < x1 >
no goal 1 action 2 : 1 0 , 0 1
fact 3 model
group < x1 , x2 | x1^2 , x2^3 , x1 x2 x1 x2 >
model action 2 : 1 0 , 0 1
end
";

const BEHIND_ITS_RIVAL: &[u8] = b"group S3 = < a, b | a^2, b^3, (a b)^2 >
ask q : a = 1 in S3
fund 8
grant q residue 3
grant q recall 5
run
report
report log
";

const BEHIND_ITS_RIVAL_REPORT: &[u8] = b"report
funded 8 purse 4
question q NO fact 1
group < a , b | a^2 , b^3 , a b a b >
subgroup < >
goals < a >
no goal 1 residues 2 : 1 0
search residue granted 3 spent 3 held 0 returned 0 end found
search recall granted 5 spent 1 held 0 returned 4 end stopped
end
log
entry 1 pass 1 search 1 turn 0 units 3 kept 2
entry 2 pass 1 search 2 turn 0 units 1 dropped by 1
sum 1 q residue units 3
sum 2 q recall units 1
end
";

const BEFORE_ITS_RIVAL: &[u8] = b"group S3 = < a, b | a^2, b^3, (a b)^2 >
ask q : a = 1 in S3
fund 8
grant q recall 5
grant q residue 3
run
report log
";

const BEFORE_ITS_RIVAL_REPORT: &[u8] = b"log
entry 1 pass 1 search 1 turn 0 units 0 kept 0
entry 2 pass 1 search 2 turn 0 units 3 kept 2
sum 1 q recall units 0
sum 2 q residue units 3
end
";

const REWRITTEN: &[u8] = b"group T = < | >
ask t : T trivial
fund 10
grant t rewrite 10
run
report
";

const REWRITTEN_REPORT: &[u8] = b"report
funded 10 purse 10
question t YES fact 1
group < | >
subgroup < >
goals < >
yes rulelog
search rewrite granted 10 spent 0 held 0 returned 10 end found
end
";

const REDUCED: &[u8] = b"group T = < | >
ask t : T trivial
fund 10
grant t nielsen 10
run
report
";

const REDUCED_REPORT: &[u8] = b"report
funded 10 purse 10
question t YES fact 1
group < | >
subgroup < >
goals < >
yes derivation
search nielsen granted 10 spent 0 held 0 returned 10 end found
end
";

const UNREAD: &[u8] = b"group T = < | >
ask t : T trivial
fund 10
grant t recall 10
run
report
";

const UNREAD_REPORT: &[u8] = b"report
funded 10 purse 0
question t OPEN
group < | >
subgroup < >
goals < >
search recall granted 10 spent 0 held 10 returned 0 end idle
end
";

const NEVER_NO: &[u8] = b"group C2 = < a | a^2 >
ask c : C2 abelian
fund 30
grant c act 10
grant c residue 10
grant c cosets 10
run
report
";

const NEVER_NO_REPORT: &[u8] = b"report
funded 30 purse 0
question c OPEN
group < a | a^2 >
subgroup < >
goals < >
search act granted 10 spent 10 held 0 returned 0 end more
search residue granted 10 spent 10 held 0 returned 0 end more
search cosets granted 10 spent 1 held 9 returned 0 end closed
end
";

const BY_A_SYSTEM: &[u8] = b"group C2 = < a | a^2 >
ask q : a = 1 in C2
ask c : a^3 = 1 in C2
fund 20
grant q rewrite 10
grant c recall 5
run
report
";

const BY_A_SYSTEM_REPORT: &[u8] = b"report
funded 20 purse 12
question q NO fact 1
group < a | a^2 >
subgroup < >
goals < a >
no goal 1 complete : a a^-1 -> 1 , a^-1 a -> 1 , a^2 -> 1 , a^-1 -> a
search rewrite granted 10 spent 7 held 0 returned 3 end found
question c NO fact 3
group < a | a^2 >
subgroup < >
goals < a^3 >
no goal 1 complete : a a^-1 -> 1 , a^-1 a -> 1 , a^2 -> 1 , a^-1 -> a
search recall granted 5 spent 1 held 0 returned 4 end found
end
";

#[test]
fn what_is_published_is_read(rt: HostRuntime) -> Result<(), Fail> {
    assert!(rt; prints(&rt, BEHIND, BEHIND_REPORT)?);
    Ok(())
}

#[test]
fn an_idle_search_reads_on(rt: HostRuntime) -> Result<(), Fail> {
    assert!(rt; prints(&rt, BEFORE, BEFORE_REPORT)?);
    Ok(())
}

#[test]
fn what_was_read_is_read_once(rt: HostRuntime) -> Result<(), Fail> {
    assert!(rt; prints(&rt, IDLE, IDLE_REPORT)?);
    Ok(())
}

#[test]
fn a_bound_holds_for_what_is_read(rt: HostRuntime) -> Result<(), Fail> {
    assert!(rt; prints(&rt, LATER, LATER_REPORT)?);
    Ok(())
}

#[test]
fn models_of_tables_are_read(rt: HostRuntime) -> Result<(), Fail> {
    assert!(rt; prints(&rt, BY_COSETS, BY_COSETS_REPORT)?);
    Ok(())
}

#[test]
fn a_rival_stops_what_reads(rt: HostRuntime) -> Result<(), Fail> {
    assert!(rt; prints(&rt, BEHIND_ITS_RIVAL, BEHIND_ITS_RIVAL_REPORT)?);
    assert!(rt; prints(&rt, BEFORE_ITS_RIVAL, BEFORE_ITS_RIVAL_REPORT)?);
    Ok(())
}

#[test]
fn complete_systems_are_read(rt: HostRuntime) -> Result<(), Fail> {
    assert!(rt; prints(&rt, BY_A_SYSTEM, BY_A_SYSTEM_REPORT)?);
    Ok(())
}

#[test]
fn questions_without_goals_are_true(rt: HostRuntime) -> Result<(), Fail> {
    assert!(rt; prints(&rt, REWRITTEN, REWRITTEN_REPORT)?);
    assert!(rt; prints(&rt, REDUCED, REDUCED_REPORT)?);
    Ok(())
}

#[test]
fn no_model_refutes_a_question_without_goals(rt: HostRuntime) -> Result<(), Fail> {
    assert!(rt; prints(&rt, UNREAD, UNREAD_REPORT)?);
    assert!(rt; prints(&rt, NEVER_NO, NEVER_NO_REPORT)?);
    Ok(())
}
