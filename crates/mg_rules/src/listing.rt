//! Overlaps and inclusions, one by one and as a list.
ghost use Rattle.std.specs.Prelude.{◌≡◌, ◌≢◌, ◌↔◌, ◌⊎◌, ◌≤◌, ◌<◌, ℕ, IsTrue, false, IfNone, IfSome, IfOk, Some, None, max, length};
ghost use Rattle.mg_rules.specs.Rule.{Rule, rule_numbered};
ghost use Rattle.mg_rules.specs.Meeting.{Overlaps, Includes, MeetAt, Meets};
ghost use Rattle.mg_rules.specs.Listing.{ComesBefore, IsNext, Lists, IsBehind, PairBefore, IsOfPair, IsNextPair, IsNextOfPair};

use crate::meeting::{Meeting, Overlap};
use crate::rules::{RulePair, Rules};
use crate::words::are_same;
use mg_lists::{List, NoMemory};
use mg_words::Letter;
use std::alloc::{AllocError, Global};

// Whether the left sides of the rules with these numbers meet at the place.
fn meet_at(i: usize, j: usize, first: &[Letter], second: &[Letter], place: usize) -> bool
    ensures { IsTrue result ↔ MeetAt i j first.now second.now place }
{
    if place > first.len() {
        return false;
    }
    let rest = &first[place..];
    if second.len() <= rest.len() {
        return i != j && are_same(&rest[..second.len()], second);
    }
    if place == 0 {
        return false;
    }
    place < first.len() && are_same(rest, &second[..rest.len()])
}

// The first place behind the last one at which the left sides meet.
fn next_place(
    i: usize,
    j: usize,
    first: &[Letter],
    second: &[Letter],
    last: Option<usize>,
) -> Option<usize>
    ensures none { IfNone result
        ((p : ℕ) → IsBehind last p → MeetAt i j first.now second.now p → ⊥) }
    ensures some { IfSome result (λ place.
        IsBehind last place × MeetAt i j first.now second.now place) }
    ensures least { IfSome result (λ place. (p : ℕ) → IsBehind last p →
        MeetAt i j first.now second.now p → place ≤ p) }
{
    let mut place = match last {
        None => 0,
        Some(last) => {
            if last >= first.len() {
                return None;
            }
            last + 1
        }
    };
    while place <= first.len() {
        if meet_at(i, j, first, second, place) {
            return Some(place);
        }
        place += 1;
    }
    None
}

// The rule with this number, counted from 1.
fn rule_at(rules: &Rules, number: usize) -> Option<&RulePair>
    ensures none { IfNone result (rule_numbered rules.now number ≡ None) }
    ensures some { IfSome result (λ pair. rule_numbered rules.now number ≡ Some pair.now) }
{
    if number == 0 {
        return None;
    }
    rules.pairs().get(number - 1)
}

// The next meeting of two rules behind the last place.
fn next_of_pair(rules: &Rules, i: usize, j: usize, last: Option<usize>) -> Option<Meeting>
    ensures none { IfNone result
        ((m : Meeting) → Meets rules.now m → IsOfPair i j last m → ⊥) }
    ensures some { IfSome result (λ next. IsNextOfPair rules.now i j last next) }
{
    let first = rule_at(rules, i)?;
    let second = rule_at(rules, j)?;
    let place = next_place(i, j, first.left.letters(), second.left.letters(), last)?;
    Some(Meeting {
        first: i,
        second: j,
        place,
    })
}

// The pair of numbers behind a pair, with numbers from 1 up to the count.
fn next_pair(count: usize, i: usize, j: usize) -> Option<(usize, usize)>
    ensures none { IfNone result ((k l : ℕ) → 1 ≤ k → 1 ≤ l → k ≤ count → l ≤ count →
        PairBefore i j k l → ⊥) }
    ensures some { IfSome result (λ pair. IsNextPair count i j pair.0 pair.1) }
{
    let greater = if i < j { j } else { i };
    if greater > count {
        return None;
    }
    if greater > 0 && (i == 0 || j == 0) {
        return Some((1, greater));
    }
    if i < j {
        return Some((j, i));
    }
    if j < i {
        return Some((j + 1, i));
    }
    if i < count {
        return Some((1, i + 1));
    }
    None
}

/// The overlap or inclusion that comes next behind a meeting, in the fixed order; None exactly
/// where there is none. It takes no memory.
pub fn next_overlap(rules: &Rules, from: &Meeting) -> Option<Meeting>
    ensures none { IfNone result ((m : Meeting) → Meets rules.now m → ComesBefore from.now m → ⊥) }
    ensures some { IfSome result (λ next. IsNext rules.now from.now next) }
{
    let count = rules.pairs().len();
    let mut i = from.first;
    let mut j = from.second;
    let mut last = Some(from.place);
    loop {
        if let Some(next) = next_of_pair(rules, i, j, last) {
            return Some(next);
        }
        (i, j) = next_pair(count, i, j)?;
        last = None;
    }
}

// What a list has of a meeting; no memory where a number doesn't fit 32 bits.
fn noted(met: &Meeting) -> Result<Overlap, NoMemory>
    ensures { IfOk result (λ o. o ≡ met.now) }
{
    let numbers = (
        u32::try_from(met.first),
        u32::try_from(met.second),
        u32::try_from(met.place),
    );
    match numbers {
        (Ok(first), Ok(second), Ok(place)) => Ok(Overlap {
            first,
            second,
            place,
        }),
        _ => Err(AllocError),
    }
}

/// The overlaps and inclusions of a system, in the fixed order. A number or a place that doesn't
/// fit 32 bits is answered as want of memory.
pub fn overlaps(alloc: Global, rules: &Rules) -> Result<List<Overlap>, NoMemory>
    ensures { IfOk result (λ list. Lists rules.now list) }
{
    let mut list = List::new(alloc);
    let mut at = Meeting::before_all();
    while let Some(next) = next_overlap(rules, &at) {
        list.push(noted(&next)?)?;
        at = next;
    }
    Ok(list)
}
