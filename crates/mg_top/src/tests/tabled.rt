//! Whole scripts with questions that counting cosets answers.
use super::rows::prints;
use crate::*;
use std::test::Fail;

const SYMMETRIC: &[u8] = b"group S3 = < a, b | a^2, b^3, (a b)^2 >
subgroup H of S3 = < b >
ask q : a in H
fund 10
grant q cosets 10
run
report
";

const SYMMETRIC_REPORT: &[u8] = b"report
funded 10 purse 9
question q NO fact 1
group < a , b | a^2 , b^3 , a b a b >
subgroup < b >
goals < a >
no goal 1 action 2 : 1 0 , 0 1
search cosets granted 10 spent 1 held 0 returned 9 end found
end
";

const CLOSED: &[u8] = b"group S3 = < a, b | a^2, b^3, (a b)^2 >
subgroup H of S3 = < b >
ask q : b^2 in H
fund 10
grant q cosets 10
run
report
report facts
report log
";

const CLOSED_REPORT: &[u8] = b"report
funded 10 purse 0
question q OPEN
group < a , b | a^2 , b^3 , a b a b >
subgroup < b >
goals < b^2 >
search cosets granted 10 spent 1 held 9 returned 0 end closed
end
facts
fact 1 model
group < x1 , x2 | x1^2 , x2^3 , x1 x2 x1 x2 >
model action 2 : 1 0 , 0 1
end
log
entry 1 pass 1 search 1 turn 0 units 1 kept 1
sum 1 q cosets units 1
end
";

const RESUMED: &[u8] = b"group S3 = < a, b | a^2, b^3, (a b)^2 >
group C2 = < a | a^2 >
group Z = < a >
ask q : a = 1 in S3
ask c : C2 abelian
ask z : a = 1 in Z
fund 100
grant q cosets 3
grant c cosets 5
grant z cosets 50
run
grant q cosets 2
run
report
";

const RESUMED_REPORT: &[u8] = b"report
funded 100 purse 40
question q NO fact 2
group < a , b | a^2 , b^3 , a b a b >
subgroup < >
goals < a >
no goal 1 action 6 : 1 0 5 4 3 2 , 2 4 3 0 5 1
search cosets granted 5 spent 5 held 0 returned 0 end found
question c OPEN
group < a | a^2 >
subgroup < >
goals < >
search cosets granted 5 spent 1 held 4 returned 0 end closed
question z OPEN
group < a | >
subgroup < >
goals < a >
search cosets granted 50 spent 50 held 0 returned 0 end more
end
";

// Units and actions as a literal model of the definitions has them.
const TABLE: &[u8] = b"group S3 = < a, b | a^2, b^3, (a b)^2 >
group A4 = < a, b | a^2, b^3, (a b)^3 >
group S3x = < a, b | b a^2 b^-1, b^3, (a b)^2 >
group Q = < s, t, u | s^2 (s t u)^-1, t^3 (s t u)^-1, u^3 (s t u)^-1 >
group Z = < a >
group F = < a, b >
group C6 = < a | a^12, a^18 >
group U = < a, b | a b a^-1 b^-2, b a b^-1 a^-2 >
group V = < a, b | [a,b]^-1 a [a,b] a^-2, [b,a]^-1 b [b,a] b^-2 >
subgroup Sa of S3 = < a >
subgroup Sab of S3 = < a, b >
subgroup Ab of A4 = < b >
subgroup Qs of Q = < s >
subgroup Z64 of Z = < a^6, a^4 >
subgroup Z69 of Z = < a^6, a^9 >
subgroup Z35 of Z = < a^3, a^5 >
subgroup Fs of F = < a^2, b, a b a^-1 >
ask s1 : a = 1 in S3
ask s2 : b in Sa
ask s3 : a in Sab
ask s4 : a in Ab
ask s5 : a = 1 in S3x
ask s6 : s = 1 in Q
ask s7 : t in Qs
ask s8 : a in Z64
ask s9 : a in Z69
ask t1 : a in Z35
ask t2 : a in Fs
ask t3 : a = 1 in C6
ask t4 : a = 1 in U
ask t5 : a = 1 in V
fund 14000
grant s1 cosets 1000
grant s2 cosets 1000
grant s3 cosets 1000
grant s4 cosets 1000
grant s5 cosets 1000
grant s6 cosets 1000
grant s7 cosets 1000
grant s8 cosets 1000
grant s9 cosets 1000
grant t1 cosets 1000
grant t2 cosets 1000
grant t3 cosets 1000
grant t4 cosets 1000
grant t5 cosets 1000
run
report
";

const TABLE_REPORT: &[u8] = b"report
funded 14000 purse 9923
question s1 NO fact 1
group < a , b | a^2 , b^3 , a b a b >
subgroup < >
goals < a >
no goal 1 action 6 : 1 0 5 4 3 2 , 2 4 3 0 5 1
search cosets granted 1000 spent 5 held 0 returned 995 end found
question s2 NO fact 3
group < a , b | a^2 , b^3 , a b a b >
subgroup < a >
goals < b >
no goal 1 action 3 : 0 2 1 , 1 2 0
search cosets granted 1000 spent 2 held 0 returned 998 end found
question s3 OPEN
group < a , b | a^2 , b^3 , a b a b >
subgroup < a , b >
goals < a >
search cosets granted 1000 spent 0 held 1000 returned 0 end closed
question s4 NO fact 6
group < a , b | a^2 , b^3 , a b a b a b >
subgroup < b >
goals < a >
no goal 1 action 4 : 1 0 3 2 , 0 2 3 1
search cosets granted 1000 spent 3 held 0 returned 997 end found
question s5 NO fact 8
group < a , b | b a^2 b^-1 , b^3 , a b a b >
subgroup < >
goals < a >
no goal 1 action 6 : 1 0 5 4 3 2 , 2 4 3 0 5 1
search cosets granted 1000 spent 6 held 0 returned 994 end found
question s6 NO fact 10
group < s , t , u | s^2 u^-1 t^-1 s^-1 , t^3 u^-1 t^-1 s^-1 , u^2 t^-1 s^-1 >
subgroup < >
goals < s >
no goal 1 action 24 : 1 7 0 14 5 16 20 2 21 10 11 12 9 15 13 3 17 4 23 22 8 6 18 19 , 3 8 6 16 0 19 9 13 11 1 23 2 22 4 10 12 7 18 20 21 5 17 14 15 , 5 10 12 1 15 8 0 17 7 20 13 21 3 2 18 19 14 6 4 16 23 22 9 11
search cosets granted 1000 spent 36 held 0 returned 964 end found
question s7 NO fact 12
group < s , t , u | s^2 u^-1 t^-1 s^-1 , t^3 u^-1 t^-1 s^-1 , u^2 t^-1 s^-1 >
subgroup < s >
goals < t >
no goal 1 action 6 : 0 4 3 2 1 5 , 1 2 0 5 3 4 , 3 0 4 1 5 2
search cosets granted 1000 spent 5 held 0 returned 995 end found
question s8 NO fact 14
group < a | >
subgroup < a^6 , a^4 >
goals < a >
no goal 1 action 2 : 1 0
search cosets granted 1000 spent 3 held 0 returned 997 end found
question s9 NO fact 16
group < a | >
subgroup < a^6 , a^9 >
goals < a >
no goal 1 action 3 : 1 2 0
search cosets granted 1000 spent 5 held 0 returned 995 end found
question t1 OPEN
group < a | >
subgroup < a^3 , a^5 >
goals < a >
search cosets granted 1000 spent 2 held 998 returned 0 end closed
question t2 NO fact 19
group < a , b | >
subgroup < a^2 , b , a b a^-1 >
goals < a >
no goal 1 action 2 : 1 0 , 0 1
search cosets granted 1000 spent 1 held 0 returned 999 end found
question t3 NO fact 21
group < a | a^12 , a^18 >
subgroup < >
goals < a >
no goal 1 action 6 : 1 3 0 5 2 4
search cosets granted 1000 spent 11 held 0 returned 989 end found
question t4 OPEN
group < a , b | a b a^-1 b^-2 , b a b^-1 a^-2 >
subgroup < >
goals < a >
search cosets granted 1000 spent 9 held 991 returned 0 end closed
question t5 OPEN
group < a , b | b^-1 a^-1 b a b^-1 a b a^-2 , a^-1 b^-1 a b a^-1 b a b^-2 >
subgroup < >
goals < a >
search cosets granted 1000 spent 283 held 717 returned 0 end closed
end
";

#[test]
fn a_coset_table_answers_no(rt: HostRuntime) -> Result<(), Fail> {
    assert!(rt; prints(&rt, SYMMETRIC, SYMMETRIC_REPORT)?);
    Ok(())
}

#[test]
fn a_table_that_refutes_nothing_is_a_model(rt: HostRuntime) -> Result<(), Fail> {
    assert!(rt; prints(&rt, CLOSED, CLOSED_REPORT)?);
    Ok(())
}

#[test]
fn tables_are_resumed(rt: HostRuntime) -> Result<(), Fail> {
    assert!(rt; prints(&rt, RESUMED, RESUMED_REPORT)?);
    Ok(())
}

#[test]
fn rows_and_actions_are_those_of_the_definitions(rt: HostRuntime) -> Result<(), Fail> {
    assert!(rt; prints(&rt, TABLE, TABLE_REPORT)?);
    Ok(())
}
