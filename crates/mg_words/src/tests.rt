//! Worked values, and each public call once.
ghost use Rattle.std.specs.Prelude.{◌≤◌, nat_abs};

use crate::letter::Letter;
use crate::limits::MOST_EXPONENT;
use crate::operations::{WordFault, commutator, concat, inverse, power};
use crate::procedure::Procedure;
use crate::reduction::{freely_equal, is_over, is_reduced, push_reduced, reduce};
use crate::word::Word;
use crate::words::Words;
use std::alloc::Global;
use std::cmp::Ordering;
use std::test::Fail;

const A: Letter = Letter {
    generator: 1,
    inverse: false,
};

const B: Letter = Letter {
    generator: 2,
    inverse: false,
};

const C: Letter = Letter {
    generator: 3,
    inverse: false,
};

const A_BACK: Letter = Letter {
    generator: 1,
    inverse: true,
};

const B_BACK: Letter = Letter {
    generator: 2,
    inverse: true,
};

#[test]
fn words_are_written_out(rt: HostRuntime) -> Result<(), Fail> {
    let alloc = rt.alloc();
    let a = Word::from_letters(alloc, &[A])?;
    let b = Word::from_letters(alloc, &[B])?;
    let product = concat(alloc, &a, &b)?;
    assert_eq!(rt; product.letters(), [A, B].as_slice());
    let back = inverse(alloc, &product)?;
    assert_eq!(rt; back.letters(), [B_BACK, A_BACK].as_slice());
    let bracket = commutator(alloc, &a, &b)?;
    assert_eq!(rt; bracket.letters(), [A_BACK, B_BACK, A, B].as_slice());
    let square_back = Word::from_letters(alloc, &[B_BACK, A_BACK, B_BACK, A_BACK])?;
    assert_eq!(rt; power(alloc, &product, -2), Ok(square_back));
    assert_eq!(rt;
        power(alloc, &a, 10_001),
        Err(WordFault::TooLong { length: 10_001 })
    );
    Ok(())
}

#[test]
fn words_are_reduced(rt: HostRuntime) -> Result<(), Fail> {
    let alloc = rt.alloc();
    let long = Word::from_letters(alloc, &[A, B, B_BACK, A_BACK, C])?;
    let short = Word::from_letters(alloc, &[C])?;
    assert_eq!(rt; reduce(alloc, &long)?, short);
    assert!(rt; !is_reduced(&long));
    assert!(rt; is_reduced(&short));
    assert!(rt; is_over(3, &long));
    assert!(rt; !is_over(2, &long));
    let mut scratch = Word::new(alloc);
    scratch.reserve(6)?;
    assert!(rt; freely_equal(&long, &short, &mut scratch));
    push_reduced(&mut scratch, A);
    assert_eq!(rt; scratch.letters(), [A].as_slice());
    let mut spare = scratch.copy(alloc)?;
    spare.clear();
    assert!(rt; spare < scratch);
    Ok(())
}

#[test]
fn lists_of_words_are_compared(rt: HostRuntime) -> Result<(), Fail> {
    let alloc = rt.alloc();
    let mut words = Words::new(alloc);
    assert_eq!(rt; words.pop(), None);
    words.push(Word::from_letters(alloc, &[A])?)?;
    words.push(Word::from_letters(alloc, &[A.inverted()])?)?;
    assert_eq!(rt; words.len(), 2);
    assert_eq!(rt; words.at(1).letters(), [A_BACK].as_slice());
    let mut copy = words.copy(alloc)?;
    assert!(rt; copy == words);
    let last = copy.pop();
    assert!(rt; last.is_some());
    assert_eq!(rt; copy.cmp(&words), Ordering::Less);
    assert_eq!(rt; copy.as_slice().len(), 1);
    assert!(rt; A < A_BACK && A_BACK < B && A.undoes(A_BACK));
    assert!(rt; Procedure::Derive < Procedure::Recall);
    Ok(())
}

/// How many letters a power of one letter has; None where there is none.
fn length_of_power(alloc: Global, exponent: i64) -> Option<usize>
    requires { nat_abs exponent ≤ MOST_EXPONENT }
{
    let a = Word::from_letters(alloc, &[A]).ok()?;
    let written = power(alloc, &a, exponent).ok()?;
    Some(written.letters().len())
}

#[test]
fn a_power_has_at_most_10_000_letters(rt: HostRuntime) -> Result<(), Fail> {
    let alloc = rt.alloc();
    assert_eq!(rt; length_of_power(alloc, 9_999), Some(9_999));
    assert_eq!(rt; length_of_power(alloc, -10_000), Some(10_000));
    assert_eq!(rt; length_of_power(alloc, 10_001), None);
    Ok(())
}
