//! Whole scripts with questions that are answered NO.
use super::refused_at;
use super::rows::{fails, prints};
use crate::*;
use mg_lex::Cause;
use std::test::Fail;

const INVOLUTION: &[u8] = b"group S3 = < a, b | a^2, b^3, (a b)^2 >
ask q : a = 1 in S3
fund 3
grant q residue 3
run
report
report facts
report log
";

const INVOLUTION_REPORT: &[u8] = b"report
funded 3 purse 0
question q NO fact 1
group < a , b | a^2 , b^3 , a b a b >
subgroup < >
goals < a >
no goal 1 residues 2 : 1 0
search residue granted 3 spent 3 held 0 returned 0 end found
end
facts
fact 1 settled
group < x1 , x2 | x1^2 , x2^3 , x1 x2 x1 x2 >
subgroup < >
goals < x1 >
no goal 1 residues 2 : 1 0
fact 2 model
group < x1 , x2 | x1^2 , x2^3 , x1 x2 x1 x2 >
model residues 2 : 1 0
end
log
entry 1 pass 1 search 1 turn 0 units 3 kept 2
sum 1 q residue units 3
end
";

// The element of order 3 is in the commutator subgroup, so no map to residues refutes it. The second question is the first.
const ROTATION: &[u8] = b"group S3 = < a, b | a^2, b^3, (a b)^2 >
ask q : b = 1 in S3
ask p : b b b^-1 = 1 in S3
fund 1015
grant q residue 1000
run
report
grant q act 15
run 7
run 7
run 7
report
report log
";

const ROTATION_REPORT: &[u8] = b"report
funded 1015 purse 15
question q OPEN
group < a , b | a^2 , b^3 , a b a b >
subgroup < >
goals < b >
search residue granted 1000 spent 1000 held 0 returned 0 end more
question p OPEN
group < a , b | a^2 , b^3 , a b a b >
subgroup < >
goals < b >
end
report
funded 1015 purse 0
question q NO fact 1
group < a , b | a^2 , b^3 , a b a b >
subgroup < >
goals < b >
no goal 1 action 3 : 0 2 1 , 1 2 0
search act granted 15 spent 15 held 0 returned 0 end found
search residue granted 1000 spent 1000 held 0 returned 0 end stopped
question p NO fact 1
group < a , b | a^2 , b^3 , a b a b >
subgroup < >
goals < b >
no goal 1 action 3 : 0 2 1 , 1 2 0
end
log
entry 1 pass 1 search 1 turn 0 units 1000 kept 0
entry 2 pass 1 search 2 turn 0 units 7 kept 0
entry 3 pass 1 search 2 turn 1 units 7 kept 0
entry 4 pass 1 search 2 turn 2 units 1 kept 2
sum 1 q residue units 1000
sum 2 q act units 15
end
";

const FREE_BY_RESIDUES: &[u8] = b"group F = < a, b >
subgroup H of F = < a^2, a b >
ask q : a in H
fund 4
grant q residue 4
run
report
";

const FREE_BY_RESIDUES_REPORT: &[u8] = b"report
funded 4 purse 0
question q NO fact 1
group < a , b | >
subgroup < a^2 , a b >
goals < a >
no goal 1 residues 2 : 1 1
search residue granted 4 spent 4 held 0 returned 0 end found
end
";

const FREE_BY_ACTIONS: &[u8] = b"group F = < a, b >
subgroup H of F = < a^2, a b >
ask q : a in H
fund 5
grant q act 5
run
report
";

const FREE_BY_ACTIONS_REPORT: &[u8] = b"report
funded 5 purse 0
question q NO fact 1
group < a , b | >
subgroup < a^2 , a b >
goals < a >
no goal 1 action 2 : 1 0 , 1 0
search act granted 5 spent 5 held 0 returned 0 end found
end
";

// The least goal that doesn't lie is named.
const GOALS: &[u8] = b"group S3 = < a, b | a^2, b^3, (a b)^2 >
subgroup H of S3 = < a >
ask n : H normal
ask c : b central in S3
fund 30
grant n act 15
grant c act 15
run
report
";

const GOALS_REPORT: &[u8] = b"report
funded 30 purse 0
question n NO fact 1
group < a , b | a^2 , b^3 , a b a b >
subgroup < a >
goals < a , a , b a b^-1 , b^-1 a b >
no goal 3 action 3 : 0 2 1 , 1 2 0
search act granted 15 spent 15 held 0 returned 0 end found
question c NO fact 3
group < a , b | a^2 , b^3 , a b a b >
subgroup < >
goals < b^-1 a^-1 b a , 1 >
no goal 1 action 3 : 0 2 1 , 1 2 0
search act granted 15 spent 15 held 0 returned 0 end found
end
";

const MAPS: &[u8] = b"group G = < a | a^2 >
group K = < x | x^4 >
map f : G -> K = [ a -> x^2 ]
ask o : f onto
ask k : a in kernel f
ask g : G abelian
fund 1000009
grant o residue 2
grant k residue 7
grant g act 1000000
run
report
";

const MAPS_REPORT: &[u8] = b"report
funded 1000009 purse 0
question o NO fact 1
group < x | x^4 >
subgroup < x^2 >
goals < x >
no goal 1 residues 2 : 1
search residue granted 2 spent 2 held 0 returned 0 end found
question k NO fact 3
group < x | x^4 >
subgroup < >
goals < x^2 >
no goal 1 residues 4 : 1
search residue granted 7 spent 7 held 0 returned 0 end found
question g OPEN
group < a | a^2 >
subgroup < >
goals < >
search act granted 1000000 spent 1000000 held 0 returned 0 end more
end
";

const RIVALS: &[u8] = b"group S3 = < a, b | a^2, b^3, (a b)^2 >
ask q : a = 1 in S3
fund 2000
grant q derive 1000
grant q residue 1000
run
report
report log
";

const RIVALS_REPORT: &[u8] = b"report
funded 2000 purse 997
question q NO fact 1
group < a , b | a^2 , b^3 , a b a b >
subgroup < >
goals < a >
no goal 1 residues 2 : 1 0
search derive granted 1000 spent 1000 held 0 returned 0 end stopped
search residue granted 1000 spent 3 held 0 returned 997 end found
end
log
entry 1 pass 1 search 1 turn 0 units 1000 kept 0
entry 2 pass 1 search 2 turn 0 units 3 kept 2
sum 1 q derive units 1000
sum 2 q residue units 3
end
";

const TURNED: &[u8] = b"group S3 = < a, b | a^2, b^3, (a b)^2 >
ask q : a = 1 in S3
fund 2000
grant q residue 1000
grant q derive 1000
run
report log
";

const TURNED_REPORT: &[u8] = b"log
entry 1 pass 1 search 1 turn 0 units 3 kept 2
entry 2 pass 1 search 2 turn 0 units 1000 dropped by 1
sum 1 q residue units 3
sum 2 q derive units 1000
end
";

// The alternating group of degree 5 by elements of order 2 and 3.
const ICOSAHEDRAL: &[u8] = b"group A5 = < a, b | a^2, b^3, (a b)^5 >
ask q : a = 1 in A5
fund 5000
grant q act 5000
run
report
report log
";

const ICOSAHEDRAL_REPORT: &[u8] = b"report
funded 5000 purse 1374
question q NO fact 1
group < a , b | a^2 , b^3 , a b a b a b a b a b >
subgroup < >
goals < a >
no goal 1 action 5 : 1 0 2 4 3 , 0 2 3 1 4
search act granted 5000 spent 3626 held 0 returned 1374 end found
end
log
entry 1 pass 1 search 1 turn 0 units 1024 kept 0
entry 2 pass 1 search 1 turn 1 units 1024 kept 0
entry 3 pass 1 search 1 turn 2 units 1024 kept 0
entry 4 pass 1 search 1 turn 3 units 554 kept 2
sum 1 q act units 3626
end
";

const LARGER: &[u8] = b"group P = < a, b | a^2, b^4, (a b)^5 >
group S4 = < a, b | a^2, b^3, (a b)^4 >
group Q = < a, b | a^6, b^9 >
subgroup H of S4 = < a, b a b^-1 >
subgroup C of Q = < a >
ask p : a b a^-1 b^-1 = 1 in P
ask s : b in H
ask c : b^3 in C
fund 1089
grant p act 810
grant s act 74
grant c residue 205
run
report
";

const LARGER_REPORT: &[u8] = b"report
funded 1089 purse 0
question p NO fact 1
group < a , b | a^2 , b^4 , a b a b a b a b a b >
subgroup < >
goals < a b a^-1 b^-1 >
no goal 1 action 5 : 0 1 2 4 3 , 3 0 1 2 4
search act granted 810 spent 810 held 0 returned 0 end found
question s NO fact 3
group < a , b | a^2 , b^3 , a b a b a b a b >
subgroup < a , b a b^-1 >
goals < b >
no goal 1 action 4 : 0 1 3 2 , 1 2 0 3
search act granted 74 spent 74 held 0 returned 0 end found
question c NO fact 5
group < a , b | a^6 , b^9 >
subgroup < a >
goals < b^3 >
no goal 1 residues 9 : 0 1
search residue granted 205 spent 205 held 0 returned 0 end found
end
";

const NO_GENERATOR: &[u8] = b"group T = < | >
ask t : T trivial
grant t act 1
";

#[test]
fn a_residue_map_answers_no(rt: HostRuntime) -> Result<(), Fail> {
    assert!(rt; prints(&rt, INVOLUTION, INVOLUTION_REPORT)?);
    assert!(rt; prints(&rt, FREE_BY_RESIDUES, FREE_BY_RESIDUES_REPORT)?);
    assert!(rt; prints(&rt, MAPS, MAPS_REPORT)?);
    Ok(())
}

#[test]
fn an_action_answers_no(rt: HostRuntime) -> Result<(), Fail> {
    assert!(rt; prints(&rt, ROTATION, ROTATION_REPORT)?);
    assert!(rt; prints(&rt, FREE_BY_ACTIONS, FREE_BY_ACTIONS_REPORT)?);
    assert!(rt; prints(&rt, GOALS, GOALS_REPORT)?);
    Ok(())
}

#[test]
fn rivals_are_stopped_by_a_no(rt: HostRuntime) -> Result<(), Fail> {
    assert!(rt; prints(&rt, RIVALS, RIVALS_REPORT)?);
    assert!(rt; prints(&rt, TURNED, TURNED_REPORT)?);
    Ok(())
}

#[test]
fn larger_models_are_found(rt: HostRuntime) -> Result<(), Fail> {
    assert!(rt; prints(&rt, ICOSAHEDRAL, ICOSAHEDRAL_REPORT)?);
    assert!(rt; prints(&rt, LARGER, LARGER_REPORT)?);
    Ok(())
}

#[test]
fn actions_need_a_generator(rt: HostRuntime) -> Result<(), Fail> {
    assert!(rt;
        fails(
            &rt,
            NO_GENERATOR,
            refused_at(3, 9, Cause::ProcedureDoesNotApply)
        )?
    );
    Ok(())
}
