ghost use Rattle.std.specs.Prelude.{◌≤◌, IfOk, length};
ghost use Rattle.std.specs.List.{AllByRecursion};
ghost use Rattle.mg_present.specs.Ask.{IsReducedOver};
ghost use Rattle.mg_present.specs.Presentation.{IsRelator};

use super::*;
use mg_certs::{Model, No, Verdict, Yes};
use mg_cyclic::Residues;
use mg_derive::{Derivation, Symbol};
use mg_ledger::Account;
use mg_lists::List;
use mg_present::{Ask, Presentation};
use mg_turn::Limit;
use mg_words::{Letter, Procedure, Word, Words, is_over, is_reduced};
use mg_workers::End;
use std::alloc::{AllocError, Global};
use std::test::*;

const A: Letter = Letter {
    generator: 1,
    inverse: false,
};

const B: Letter = Letter {
    generator: 2,
    inverse: false,
};

const A_BACK: Letter = Letter {
    generator: 1,
    inverse: true,
};

/// These words, where each is reduced, over the generators and short; else no memory.
fn words(alloc: Global, generators: u32, lists: &[&[Letter]]) -> Result<Words, NoMemory>
    ensures relators { IfOk result (λ words. AllByRecursion (IsRelator generators) words) }
    ensures members { IfOk result (λ words. AllByRecursion (IsReducedOver generators) words) }
    ensures count { IfOk result (λ words. length words ≤ length lists.now) }
{
    let mut words = Words::new(alloc);
    for list in lists {
        let word = Word::from_letters(alloc, list)?;
        if !is_reduced(&word) || !is_over(generators, &word) || word.letters().len() > 10_000 {
            return Err(AllocError);
        }
        words.push(word)?;
    }
    Ok(words)
}

/// Whether the goal is one in the group of these relators.
fn asks(
    alloc: Global,
    generators: u32,
    relators: &[&[Letter]],
    goal: &[Letter],
) -> Result<Ask, NoMemory> {
    if generators > 64 || relators.len() > 256 {
        return Err(AllocError);
    }
    let group = Presentation::new(generators, words(alloc, generators, relators)?);
    let goals = words(alloc, generators, &[goal])?;
    Ok(Ask::new(group, Words::new(alloc), goals))
}

/// The report of one question of the name `q`, with its one search, over the generators `a` and `b`.
fn report_one(
    alloc: Global,
    ask: &Ask,
    purse: u64,
    verdict: Option<(u64, &Verdict)>,
    line: SearchLine,
) -> Result<Vec<u8>, NoMemory> {
    let mut names = List::new(alloc);
    for name in &b"ab"[..ask.group().generators().min(2) as usize] {
        let mut bytes = List::new(alloc);
        bytes.push(*name)?;
        names.push(bytes)?;
    }
    let mut searches = List::new(alloc);
    searches.push(line)?;
    let blocks = [QuestionBlock {
        name: b"q",
        names: names.as_slice(),
        ask,
        verdict,
        searches,
    }];
    report(alloc, 100, purse, &blocks)
}

const SETTLED: &[u8] =
    b"report\nfunded 100 purse 79\nquestion q YES fact 1\ngroup < a | a^2 >\nsubgroup < >\ngoals < a^2 >\nyes derivation r1 ;\nsearch derive granted 21 spent 21 held 0 returned 0 end found\nend\n";

#[test]
fn a_settled_question(rt: HostRuntime) -> Result<(), Fail> {
    let ask = asks(rt.alloc(), 1, &[&[A, A]], &[A, A])?;
    let sign = Symbol::Relator {
        place: 1,
        inverse: false,
    };
    let text = Derivation::from_symbols(rt.alloc(), &[sign, Symbol::Cut])?;
    let verdict = Verdict::Yes(Yes::Derivation(text));
    let line = SearchLine {
        procedure: Procedure::Derive,
        account: Account {
            granted: 21,
            spent: 21,
            held: 0,
            returned: 0,
        },
        end: End::Found,
    };
    let printed = report_one(rt.alloc(), &ask, 79, Some((1, &verdict)), line)?;
    assert_eq!(rt; printed.as_slice(), SETTLED);
    Ok(())
}

const OPEN: &[u8] =
    b"report\nfunded 100 purse 96\nquestion q OPEN\ngroup < a , b | a^2 , b^3 , a b a b >\nsubgroup < >\ngoals < a^-2 b >\nsearch derive granted 4 spent 1 held 2 returned 1 end full letters 9\nend\n";

#[test]
fn an_open_question(rt: HostRuntime) -> Result<(), Fail> {
    let relators: [&[Letter]; 3] = [&[A, A], &[B, B, B], &[A, B, A, B]];
    let ask = asks(rt.alloc(), 2, &relators, &[A_BACK, A_BACK, B])?;
    let line = SearchLine {
        procedure: Procedure::Derive,
        account: Account {
            granted: 4,
            spent: 1,
            held: 2,
            returned: 1,
        },
        end: End::Full {
            what: Limit::Letters,
            count: 9,
        },
    };
    let printed = report_one(rt.alloc(), &ask, 96, None, line)?;
    assert_eq!(rt; printed.as_slice(), OPEN);
    Ok(())
}

const FACTS: &[u8] =
    b"facts\nfact 1 settled\ngroup < x1 , x2 | x1^2 , x2^3 , x1 x2 x1 x2 >\nsubgroup < >\ngoals < x1 x2 x1 x2 >\nyes derivation r3 ;\nend\n";

#[test]
fn a_fact_of_a_log(rt: HostRuntime) -> Result<(), Fail> {
    let relators: [&[Letter]; 3] = [&[A, A], &[B, B, B], &[A, B, A, B]];
    let ask = asks(rt.alloc(), 2, &relators, &[A, B, A, B])?;
    let sign = Symbol::Relator {
        place: 3,
        inverse: false,
    };
    let text = Derivation::from_symbols(rt.alloc(), &[sign, Symbol::Cut])?;
    let verdict = Verdict::Yes(Yes::Derivation(text));
    let fact = FactBlock::Settled(&ask, &verdict);
    let printed = report_facts(rt.alloc(), &[fact])?;
    assert_eq!(rt; printed.as_slice(), FACTS);
    Ok(())
}

/// The group of S3, in which it is asked whether `a` is one.
fn involution(alloc: Global) -> Result<Ask, NoMemory> {
    asks(alloc, 2, &[&[A, A], &[B, B, B], &[A, B, A, B]], &[A])
}

/// The map that takes the first of two generators to 1 modulo 2, and the second to 0.
fn parity(alloc: Global) -> Result<Model, NoMemory> {
    Ok(Model::Residues(Residues::from_images(alloc, 2, &[1, 0])?))
}

const REFUTED: &[u8] =
    b"report\nfunded 100 purse 97\nquestion q NO fact 1\ngroup < a , b | a^2 , b^3 , a b a b >\nsubgroup < >\ngoals < a >\nno goal 1 residues 2 : 1 0\nsearch residue granted 3 spent 3 held 0 returned 0 end found\nend\n";

#[test]
fn a_refuted_question(rt: HostRuntime) -> Result<(), Fail> {
    let ask = involution(rt.alloc())?;
    let verdict = Verdict::No(No {
        goal: 0,
        model: parity(rt.alloc())?,
    });
    let line = SearchLine {
        procedure: Procedure::Residue,
        account: Account {
            granted: 3,
            spent: 3,
            held: 0,
            returned: 0,
        },
        end: End::Found,
    };
    let printed = report_one(rt.alloc(), &ask, 97, Some((1, &verdict)), line)?;
    assert_eq!(rt; printed.as_slice(), REFUTED);
    Ok(())
}

const MODELS: &[u8] =
    b"facts\nfact 1 settled\ngroup < x1 , x2 | x1^2 , x2^3 , x1 x2 x1 x2 >\nsubgroup < >\ngoals < x1 >\nno goal 1 residues 2 : 1 0\nfact 2 model\ngroup < x1 , x2 | x1^2 , x2^3 , x1 x2 x1 x2 >\nmodel residues 2 : 1 0\nend\n";

#[test]
fn a_model_is_a_fact(rt: HostRuntime) -> Result<(), Fail> {
    let ask = involution(rt.alloc())?;
    let model = parity(rt.alloc())?;
    let verdict = Verdict::No(No {
        goal: 0,
        model: parity(rt.alloc())?,
    });
    let facts = [
        FactBlock::Settled(&ask, &verdict),
        FactBlock::ModelOf(ask.group(), &model),
    ];
    let printed = report_facts(rt.alloc(), &facts)?;
    assert_eq!(rt; printed.as_slice(), MODELS);
    Ok(())
}

const LOG: &[u8] =
    b"log\nentry 1 pass 1 search 1 turn 0 units 111 kept 1\nsum 1 q derive units 111\nend\n";

#[test]
fn a_log_of_one_turn(rt: HostRuntime) -> Result<(), Fail> {
    let entry = EntryLine {
        pass: 1,
        search: 1,
        turn: 0,
        units: 111,
        fate: Fate::Kept { records: 1 },
    };
    let sum = SumLine {
        search: 1,
        name: b"q",
        procedure: Procedure::Derive,
        units: 111,
    };
    let printed = report_log(rt.alloc(), &[entry], &[sum])?;
    assert_eq!(rt; printed.as_slice(), LOG);
    Ok(())
}

const DROPPED: &[u8] =
    b"log\nentry 1 pass 1 search 2 turn 0 units 21 kept 1\nentry 2 pass 4 search 3 turn 5 units 21 dropped by 1\nend\n";

#[test]
fn a_turn_that_came_too_late(rt: HostRuntime) -> Result<(), Fail> {
    let kept = EntryLine {
        pass: 1,
        search: 2,
        turn: 0,
        units: 21,
        fate: Fate::Kept { records: 1 },
    };
    let dropped = EntryLine {
        pass: 4,
        search: 3,
        turn: 5,
        units: 21,
        fate: Fate::DroppedBy { fact: 1 },
    };
    let printed = report_log(rt.alloc(), &[kept, dropped], &[])?;
    assert_eq!(rt; printed.as_slice(), DROPPED);
    Ok(())
}

#[test]
fn refused_steps(rt: HostRuntime) -> Result<(), Fail> {
    let fund = fund_refusal(rt.alloc(), 4_611_686_018_427_387_904)?;
    assert_eq!(rt;
        fund.as_slice(),
        b"fund refused: funded 4611686018427387904\n".as_slice()
    );
    let grant = grant_refusal(rt.alloc(), 5)?;
    assert_eq!(rt; grant.as_slice(), b"grant refused: purse 5\n".as_slice());
    let cancel = cancel_refusal(rt.alloc())?;
    assert_eq!(rt;
        cancel.as_slice(),
        b"cancel refused: no search\n".as_slice()
    );
    Ok(())
}
