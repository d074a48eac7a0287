//! Whole scripts with questions that completion answers. Units, rules and moves are those of a model of the definitions
//! apart from the program.
use super::refused_at;
use super::rows::{fails, prints};
use crate::*;
use mg_fixtures::ask;
use mg_lex::Cause;
use mg_lists::List;
use mg_rulelog::{RuleLog, accepts};
use std::alloc::Global;
use std::test::Fail;

const FOURTH: &[u8] = b"group C2 = < a | a^2 >
ask q : a^4 = 1 in C2
fund 100
grant q rewrite 100
run
report
report log
";

const FOURTH_REPORT: &[u8] = b"report
funded 100 purse 100
question q YES fact 1
group < a | a^2 >
subgroup < >
goals < a^4 >
yes rulelog rule a a^-1 -> 1 : out a 0 ; rule a^-1 a -> 1 : out a^-1 0 ; rule a^2 -> 1 : out r1 0 ; goal by 3 0 , by 3 0 ;
search rewrite granted 100 spent 0 held 0 returned 100 end found
end
log
entry 1 pass 1 search 1 turn 0 units 0 kept 1
sum 1 q rewrite units 0
end
";

const INVERSES: &[u8] = b"group C2 = < a | a^2 >
ask q : a^-2 = 1 in C2
fund 100
grant q rewrite 100
run
report
";

const INVERSES_REPORT: &[u8] = b"report
funded 100 purse 97
question q YES fact 1
group < a | a^2 >
subgroup < >
goals < a^-2 >
yes rulelog rule a a^-1 -> 1 : out a 0 ; rule a^-1 a -> 1 : out a^-1 0 ; rule a^2 -> 1 : out r1 0 ; rule a^-1 -> a : back 3 0 , by 1 1 ; goal by 4 0 , by 1 0 ;
search rewrite granted 100 spent 3 held 0 returned 97 end found
end
";

const INVOLUTION: &[u8] = b"group C2 = < a | a^2 >
ask q : a = 1 in C2
fund 100
grant q rewrite 100
run
report
report facts
";

const INVOLUTION_REPORT: &[u8] = b"report
funded 100 purse 93
question q NO fact 1
group < a | a^2 >
subgroup < >
goals < a >
no goal 1 complete : a a^-1 -> 1 , a^-1 a -> 1 , a^2 -> 1 , a^-1 -> a
search rewrite granted 100 spent 7 held 0 returned 93 end found
end
facts
fact 1 settled
group < x1 | x1^2 >
subgroup < >
goals < x1 >
no goal 1 complete : x1 x1^-1 -> 1 , x1^-1 x1 -> 1 , x1^2 -> 1 , x1^-1 -> x1
fact 2 model
group < x1 | x1^2 >
model complete : x1 x1^-1 -> 1 , x1^-1 x1 -> 1 , x1^2 -> 1 , x1^-1 -> x1
end
";

const ENOUGH: &[u8] = b"group C2 = < a | a^2 >
ask q : a = 1 in C2
fund 7
grant q rewrite 7
run
report
";

const ENOUGH_REPORT: &[u8] = b"report
funded 7 purse 0
question q NO fact 1
group < a | a^2 >
subgroup < >
goals < a >
no goal 1 complete : a a^-1 -> 1 , a^-1 a -> 1 , a^2 -> 1 , a^-1 -> a
search rewrite granted 7 spent 7 held 0 returned 0 end found
end
";

const RESUMED: &[u8] = b"group C2 = < a | a^2 >
ask q : a = 1 in C2
fund 7
grant q rewrite 6
run
report
grant q rewrite 1
run
report
report log
";

const RESUMED_REPORT: &[u8] = b"report
funded 7 purse 1
question q OPEN
group < a | a^2 >
subgroup < >
goals < a >
search rewrite granted 6 spent 6 held 0 returned 0 end more
end
report
funded 7 purse 0
question q NO fact 1
group < a | a^2 >
subgroup < >
goals < a >
no goal 1 complete : a a^-1 -> 1 , a^-1 a -> 1 , a^2 -> 1 , a^-1 -> a
search rewrite granted 7 spent 7 held 0 returned 0 end found
end
log
entry 1 pass 1 search 1 turn 0 units 6 kept 0
entry 2 pass 1 search 1 turn 1 units 1 kept 2
sum 1 q rewrite units 7
end
";

const FREE: &[u8] = b"group F = < a, b >
ask q : a = 1 in F
fund 10
grant q rewrite 10
run
report
";

const FREE_REPORT: &[u8] = b"report
funded 10 purse 6
question q NO fact 1
group < a , b | >
subgroup < >
goals < a >
no goal 1 complete : a a^-1 -> 1 , a^-1 a -> 1 , b b^-1 -> 1 , b^-1 b -> 1
search rewrite granted 10 spent 4 held 0 returned 6 end found
end
";

const SYMMETRIC: &[u8] = b"group S3 = < a, b | a^2, b^3, (a b)^2 >
ask q : b a b a = 1 in S3
ask p : b = 1 in S3
fund 200
grant q rewrite 100
grant p rewrite 100
run
report
";

const SYMMETRIC_REPORT: &[u8] = b"report
funded 200 purse 121
question q YES fact 1
group < a , b | a^2 , b^3 , a b a b >
subgroup < >
goals < b a b a >
yes rulelog rule a a^-1 -> 1 : out a 0 ; rule a^-1 a -> 1 : out a^-1 0 ; rule b b^-1 -> 1 : out b 0 ; rule b^-1 b -> 1 : out b^-1 0 ; rule a^2 -> 1 : out r1 0 ; rule b^3 -> 1 : out r2 0 ; rule a b a b -> 1 : out r3 0 ; rule a^-1 -> a : back 5 0 , by 1 1 ; rule b^2 -> b^-1 : back 3 2 , by 6 0 ; rule b a b -> a : back 2 0 , by 7 1 , by 8 0 ; goal by 10 0 , by 5 0 ;
search rewrite granted 100 spent 12 held 0 returned 88 end found
question p NO fact 2
group < a , b | a^2 , b^3 , a b a b >
subgroup < >
goals < b >
no goal 1 complete : a a^-1 -> 1 , a^-1 a -> 1 , b b^-1 -> 1 , b^-1 b -> 1 , a^2 -> 1 , b^3 -> 1 , a b a b -> 1 , a^-1 -> a , b^2 -> b^-1 , b a b -> a , a b a -> b^-1 , b^-2 -> b , b a -> a b^-1 , b^-1 a -> a b
search rewrite granted 100 spent 67 held 0 returned 33 end found
end
";

const TRIVIAL: &[u8] = b"group T = < a, b | a b a^-1 b^-2, b a b^-1 a^-2 >
ask q : T trivial
fund 1000
grant q rewrite 1000
run
report
";

const TRIVIAL_REPORT: &[u8] = b"report
funded 1000 purse 918
question q YES fact 1
group < a , b | a b a^-1 b^-2 , b a b^-1 a^-2 >
subgroup < >
goals < a , b >
yes rulelog rule a a^-1 -> 1 : out a 0 ; rule a^-1 a -> 1 : out a^-1 0 ; rule b b^-1 -> 1 : out b 0 ; rule b^-1 b -> 1 : out b^-1 0 ; rule a b a^-1 b^-2 -> 1 : out r1 0 ; rule b a b^-1 a^-2 -> 1 : out r2 0 ; rule b a^-1 b^-2 -> a^-1 : back 2 0 , by 5 1 ; rule a b a^-1 b^-1 -> b : back 4 4 , by 5 0 ; rule b a b^-1 a^-1 -> a : back 2 4 , by 6 0 ; rule a b^-1 a^-2 -> b^-1 : back 4 0 , by 6 1 ; rule a^-1 b^-2 -> b^-1 a^-1 : back 4 0 , by 7 1 ; rule b a^-1 b^-1 -> a^-1 b : back 4 3 , by 7 0 ; rule a b a^-1 -> b^2 : back 4 3 , by 8 0 ; rule b a b^-1 -> a^2 : back 2 3 , by 9 0 ; rule a b^-1 a^-1 -> b^-1 a : back 4 0 , by 9 1 ; rule b^-1 a^-2 -> a^-1 b^-1 : back 2 0 , by 10 1 ; rule b^-2 -> b^-1 a : back 1 0 , by 11 1 , by 15 0 ; rule b^-1 a^-1 b -> a^-1 b^-1 : back 11 0 , by 4 2 ; rule b^-1 a b^-1 -> b^-1 a^2 : back 17 0 , back 10 0 , by 11 3 , by 15 0 , by 15 1 , by 17 0 ; rule a^-1 b^2 -> b a^-1 : back 12 0 , by 4 2 ; rule b^2 a -> a b : back 13 0 , by 2 2 ; rule b^-1 a^2 -> a b^-1 : back 14 1 , by 4 0 ; rule a^2 b -> b a : back 14 0 , by 4 2 ; rule a^-1 b^-1 a -> b^-1 a^-1 : back 15 1 , by 2 0 ; rule a b^-1 a -> a b^-1 : back 17 1 , back 22 0 , back 19 0 , back 15 0 , by 11 2 , by 17 1 , by 1 2 ; rule a^-1 b -> a^-2 : back 12 0 , back 16 1 , by 3 0 ; rule a^-3 b^-1 -> a^-3 : back 26 0 , back 12 0 , back 16 3 , by 7 0 ; rule a^-1 b^-1 a^-1 b^-1 -> a^-1 b^-1 a^-1 : back 16 2 , by 11 0 , by 16 0 ; rule b^-1 a^-1 b^-1 a^-1 -> b^-1 a^-1 b^-1 : back 11 2 , by 16 0 , by 11 0 ; rule b a^-2 b^-1 -> a^-4 : back 16 2 , by 12 0 , by 26 0 ; rule b^-1 -> a : back 3 0 , by 17 1 , by 3 0 ; rule b a -> a : back 23 0 , back 31 0 , back 17 0 , by 4 1 , by 31 0 ; rule a -> 1 : back 32 0 , back 3 1 , back 13 0 , back 17 3 , by 5 0 ; rule a^-1 -> 1 : back 2 1 , back 26 0 , back 12 0 , back 33 0 , back 17 3 , by 8 0 , by 3 0 ; rule b -> 1 : back 34 0 , back 3 0 , by 18 1 , by 34 1 , by 3 0 ; goal by 33 0 ; goal by 35 0 ;
search rewrite granted 1000 spent 82 held 0 returned 918 end found
end
";

const BY_SEVENS: &[u8] = b"group T = < a, b | a b a^-1 b^-2, b a b^-1 a^-2 >
ask q : T trivial
fund 1000
grant q rewrite 1000
run 7
run 7
run 7
run 7
run 7
run 7
run 7
run 7
run 7
run 7
run 7
run 7
report
";

const FULL: &[u8] = b"group C = < a | a^2001 >
ask q : a = 1 in C
fund 10
grant q rewrite 10
run
report
cancel q rewrite
run
report
";

const FULL_REPORT: &[u8] = b"report
funded 10 purse 0
question q OPEN
group < a | a^2001 >
subgroup < >
goals < a >
search rewrite granted 10 spent 0 held 10 returned 0 end full letters 2000
end
report
funded 10 purse 10
question q OPEN
group < a | a^2001 >
subgroup < >
goals < a >
search rewrite granted 10 spent 0 held 0 returned 10 end full letters 2000
end
";

const MANY_RULES: &[u8] = b"group B = < a, b | a b a^-1 b^-3 >
ask q : a = 1 in B
fund 1000000
grant q rewrite 1000000
run
run
report
";

const MANY_RULES_REPORT: &[u8] = b"report
funded 1000000 purse 0
question q OPEN
group < a , b | a b a^-1 b^-3 >
subgroup < >
goals < a >
search rewrite granted 1000000 spent 111655 held 888345 returned 0 end full rules 4096
end
";

const RIVALS: &[u8] = b"group C2 = < a | a^2 >
ask q : a = 1 in C2
fund 200
grant q rewrite 100
grant q residue 100
run
report
report log
";

const RIVALS_REPORT: &[u8] = b"report
funded 200 purse 191
question q NO fact 1
group < a | a^2 >
subgroup < >
goals < a >
no goal 1 complete : a a^-1 -> 1 , a^-1 a -> 1 , a^2 -> 1 , a^-1 -> a
search residue granted 100 spent 2 held 0 returned 98 end stopped
search rewrite granted 100 spent 7 held 0 returned 93 end found
end
log
entry 1 pass 1 search 1 turn 0 units 7 kept 2
entry 2 pass 1 search 2 turn 0 units 2 dropped by 1
sum 1 q rewrite units 7
sum 2 q residue units 2
end
";

const NO_GOALS: &[u8] = b"group T = < | >
group Z = < a >
subgroup H of Z = < >
ask t : T trivial
ask z : Z abelian
ask e : 1 = 1 in Z
ask h : a in H
fund 4
grant t rewrite 1
grant z rewrite 1
grant e rewrite 1
grant h rewrite 1
run
report
";

const NO_GOALS_REPORT: &[u8] = b"report
funded 4 purse 3
question t YES fact 1
group < | >
subgroup < >
goals < >
yes rulelog
search rewrite granted 1 spent 0 held 0 returned 1 end found
question z YES fact 2
group < a | >
subgroup < >
goals < >
yes rulelog rule a a^-1 -> 1 : out a 0 ; rule a^-1 a -> 1 : out a^-1 0 ;
search rewrite granted 1 spent 0 held 0 returned 1 end found
question e YES fact 3
group < a | >
subgroup < >
goals < 1 >
yes rulelog rule a a^-1 -> 1 : out a 0 ; rule a^-1 a -> 1 : out a^-1 0 ; goal ;
search rewrite granted 1 spent 0 held 0 returned 1 end found
question h OPEN
group < a | >
subgroup < >
goals < a >
search rewrite granted 1 spent 1 held 0 returned 0 end more
end
";

const SUBGROUP: &[u8] = b"group C2 = < a | a^2 >
subgroup H of C2 = < a >
ask q : a in H
grant q rewrite 1
";

#[test]
fn a_log_of_rules_answers_yes(rt: HostRuntime) -> Result<(), Fail> {
    assert!(rt; prints(&rt, FOURTH, FOURTH_REPORT)?);
    assert!(rt; prints(&rt, INVERSES, INVERSES_REPORT)?);
    Ok(())
}

#[test]
fn a_complete_system_answers_no(rt: HostRuntime) -> Result<(), Fail> {
    assert!(rt; prints(&rt, INVOLUTION, INVOLUTION_REPORT)?);
    assert!(rt; prints(&rt, FREE, FREE_REPORT)?);
    Ok(())
}

#[test]
fn completions_are_resumed(rt: HostRuntime) -> Result<(), Fail> {
    assert!(rt; prints(&rt, ENOUGH, ENOUGH_REPORT)?);
    assert!(rt; prints(&rt, RESUMED, RESUMED_REPORT)?);
    Ok(())
}

#[test]
fn completion_answers_both_ways(rt: HostRuntime) -> Result<(), Fail> {
    assert!(rt; prints(&rt, SYMMETRIC, SYMMETRIC_REPORT)?);
    Ok(())
}

#[test]
fn turns_of_any_size_find_the_same_log(rt: HostRuntime) -> Result<(), Fail> {
    assert!(rt; prints(&rt, TRIVIAL, TRIVIAL_REPORT)?);
    assert!(rt; prints(&rt, BY_SEVENS, TRIVIAL_REPORT)?);
    Ok(())
}

#[test]
fn completions_are_full_at_their_limits(rt: HostRuntime) -> Result<(), Fail> {
    assert!(rt; prints(&rt, FULL, FULL_REPORT)?);
    assert!(rt; prints(&rt, MANY_RULES, MANY_RULES_REPORT)?);
    Ok(())
}

#[test]
fn a_rival_is_stopped(rt: HostRuntime) -> Result<(), Fail> {
    assert!(rt; prints(&rt, RIVALS, RIVALS_REPORT)?);
    Ok(())
}

#[test]
fn goals_of_nothing_take_no_unit(rt: HostRuntime) -> Result<(), Fail> {
    assert!(rt; prints(&rt, NO_GOALS, NO_GOALS_REPORT)?);
    Ok(())
}

#[test]
fn rewrite_takes_no_subgroup_words(rt: HostRuntime) -> Result<(), Fail> {
    assert!(rt;
        fails(
            &rt,
            SUBGROUP,
            refused_at(4, 9, Cause::ProcedureDoesNotApply)
        )?
    );
    Ok(())
}

// Whether a log without rules and without lists is accepted for the Ask.
fn needs_no_log(alloc: Global, text: &str) -> Option<bool> {
    let ask = ask(alloc, text)?;
    let log = RuleLog {
        rules: List::new(alloc),
        goals: List::new(alloc),
    };
    accepts(alloc, &ask, &log).ok()
}

#[test]
fn a_log_has_a_list_for_each_goal(rt: HostRuntime) -> Result<(), Fail> {
    assert!(rt; needs_no_log(rt.alloc(), "1 aa | | ") == Some(true));
    assert!(rt; needs_no_log(rt.alloc(), "1 aa | | a") == Some(false));
    Ok(())
}
