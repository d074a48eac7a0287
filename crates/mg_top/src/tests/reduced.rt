//! Whole scripts with questions about free groups that Nielsen's steps answer.
use super::refused_at;
use super::rows::{fails, prints};
use crate::*;
use mg_lex::Cause;
use std::test::Fail;

const MEMBER: &[u8] = b"group F = < a, b >
subgroup H of F = < a^2, a b >
ask q : b^-1 a in H
fund 100
grant q nielsen 100
run
report
";

const MEMBER_REPORT: &[u8] = b"report
funded 100 purse 99
question q YES fact 1
group < a , b | >
subgroup < a^2 , a b >
goals < b^-1 a >
yes derivation [2]^-1 [1] ;
search nielsen granted 100 spent 1 held 0 returned 99 end found
end
";

const CLOSED: &[u8] = b"group F = < a, b >
subgroup H of F = < a^2, a b >
ask q : a in H
fund 10
grant q nielsen 10
run
report
report facts
report log
";

const CLOSED_REPORT: &[u8] = b"report
funded 10 purse 0
question q OPEN
group < a , b | >
subgroup < a^2 , a b >
goals < a >
search nielsen granted 10 spent 0 held 10 returned 0 end closed
end
facts
end
log
entry 1 pass 1 search 1 turn 0 units 0 kept 0
sum 1 q nielsen units 0
end
";

const POWERS: &[u8] = b"group Z = < a >
subgroup E of Z = < a^6, a^4 >
subgroup O of Z = < a^3, a^5 >
subgroup T of Z = < a^6, a^10, a^15 >
ask e : a^2 in E
ask f : a in E
ask o : a in O
ask t : a in T
fund 40
grant e nielsen 10
grant f nielsen 10
grant o nielsen 10
grant t nielsen 10
run
report
";

const POWERS_REPORT: &[u8] = b"report
funded 40 purse 25
question e YES fact 1
group < a | >
subgroup < a^6 , a^4 >
goals < a^2 >
yes derivation [1] [2]^-1 ;
search nielsen granted 10 spent 1 held 0 returned 9 end found
question f OPEN
group < a | >
subgroup < a^6 , a^4 >
goals < a >
search nielsen granted 10 spent 3 held 7 returned 0 end closed
question o YES fact 2
group < a | >
subgroup < a^3 , a^5 >
goals < a >
yes derivation [1] [1] [2]^-1 ;
search nielsen granted 10 spent 2 held 0 returned 8 end found
question t YES fact 3
group < a | >
subgroup < a^6 , a^10 , a^15 >
goals < a >
yes derivation [1] [2] [3]^-1 ;
search nielsen granted 10 spent 2 held 0 returned 8 end found
end
";

const NO_GOALS: &[u8] = b"group Z = < a >
group T = < | >
ask z : Z abelian
ask t : T trivial
ask e : 1 = 1 in Z
ask n : a = 1 in Z
fund 4
grant z nielsen 1
grant t nielsen 1
grant e nielsen 1
grant n nielsen 1
run
report
";

const NO_GOALS_REPORT: &[u8] = b"report
funded 4 purse 3
question z YES fact 1
group < a | >
subgroup < >
goals < >
yes derivation
search nielsen granted 1 spent 0 held 0 returned 1 end found
question t YES fact 2
group < | >
subgroup < >
goals < >
yes derivation
search nielsen granted 1 spent 0 held 0 returned 1 end found
question e YES fact 3
group < a | >
subgroup < >
goals < 1 >
yes derivation ;
search nielsen granted 1 spent 0 held 0 returned 1 end found
question n OPEN
group < a | >
subgroup < >
goals < a >
search nielsen granted 1 spent 0 held 1 returned 0 end closed
end
";

const RELATOR: &[u8] = b"group C2 = < a | a^2 >
ask q : a = 1 in C2
grant q nielsen 1
";

#[test]
fn peeling_answers_yes(rt: HostRuntime) -> Result<(), Fail> {
    assert!(rt; prints(&rt, MEMBER, MEMBER_REPORT)?);
    assert!(rt; prints(&rt, NO_GOALS, NO_GOALS_REPORT)?);
    Ok(())
}

#[test]
fn searches_close_where_nothing_shortens(rt: HostRuntime) -> Result<(), Fail> {
    assert!(rt; prints(&rt, CLOSED, CLOSED_REPORT)?);
    assert!(rt; prints(&rt, POWERS, POWERS_REPORT)?);
    Ok(())
}

#[test]
fn nielsen_takes_no_relators(rt: HostRuntime) -> Result<(), Fail> {
    assert!(rt; fails(&rt, RELATOR, refused_at(3, 9, Cause::ProcedureDoesNotApply))?);
    Ok(())
}
