//! What is found among facts and records by going through them.
ghost use Rattle.std.specs.Prelude.{◌≡◌, ◌++◌, ◌↔◌, ◌≤◌, ◌+◌, Some, List, length, IsTrue, IfOk};
ghost use Rattle.std.specs.List.{AllByRecursion};
ghost use Rattle.std.specs.Vec.{vec_len, vec_capacity};
ghost use Rattle.mg_core.specs.Log.{HandedFrom};

use crate::entries::{Facts, Records};
use crate::record::Record;
use mg_lists::NoMemory;
use std::alloc::Global;
use std::cmp::Ordering;

/// Whether the fact is a model of the group.
fn is_model<R: Record>(fact: &R, group: &R::Group) -> bool
    ensures { IsTrue result ↔ (R.recording.model_of fact.now ≡ Some group.now) }
{
    match fact.model_of() {
        Some(modelled) => modelled.cmp(group) == Ordering::Equal,
        None => false,
    }
}

/// How many records these are. Each is looked at, and so known to be valid.
pub(crate) fn count_of<R: Record>(records: &[R]) -> usize
    ensures count { result ≡ length records.now }
    ensures valid { AllByRecursion R.recording.valid records.now }
{
    let mut count = 0;
    for record in records {
        let _key = record.settles();
        count += 1;
    }
    count
}

/// Copies of the first `most` models of the group with a number above `after`.
pub(crate) fn models_above<R: Record>(
    alloc: Global,
    facts: &[R],
    group: &R::Group,
    after: u64,
    most: u32,
) -> Result<Facts<R>, NoMemory>
    ensures { IfOk result (HandedFrom R.recording.model_of facts.now group.now after most) }
{
    let mut records = Records::new(alloc);
    let mut upto = after;
    let mut number = 0;
    let mut count = 0;
    while count < most {
        let Some(fact) = facts.get(number as usize) else {
            return Ok(Facts {
                from: after,
                upto: after.max(number),
                records,
            });
        };
        number += 1;
        if number > after && is_model(fact, group) {
            records.push(fact.copy(alloc)?)?;
            upto = number;
            count += 1;
        }
    }
    Ok(Facts {
        from: after,
        upto,
        records,
    })
}

/// The same facts.
pub(crate) fn copy_of_facts<R: Record>(alloc: Global, facts: &[R]) -> Result<Vec<R>, NoMemory>
    ensures { IfOk result (λ copies. copies.items ≡ facts.now) }
{
    let mut copies = Vec::with_capacity(alloc, facts.len())?;
    for fact in facts {
        copies.push(fact.copy(alloc)?)?;
    }
    Ok(copies)
}

/// Puts records behind the facts, which have room for them.
pub(crate) fn put_records<R: Drop>(facts: &mut Vec<R>, mut records: Records<R>)
    requires { vec_len facts.old + length records ≤ vec_capacity facts.old }
    ensures { facts.new.items ≡ facts.old.items ++ records }
{
    let behind = facts.len();
    while let Some(record) = records.pop() {
        match facts.insert(behind, record) {
            Ok(()) => {}
            Err(_) => unreachable!(),
        }
    }
}
