//! The index of a book: where the verdict for each settled key stands among the facts, in the order of the keys.
ghost use Rattle.std.specs.Prelude.{◌≡◌, ◌≢◌, ◌+◌, ◌≤◌, ◌<◌, ◌^◌, Some, List, length, IfOk, IfErr};
ghost use Rattle.std.specs.List.{AllByRecursion};
ghost use Rattle.std.specs.Vec.{vec_len, vec_capacity};
ghost use Rattle.mg_core.specs.Index.{PointsTo, IsIndexed, IsBetween, IsPlaceOf, with_place};

use crate::record::{Record, settles_key};
use std::cmp::Ordering;

/// How the key that is settled by the fact at the place compares with this one.
fn compare_at<R: Record>(facts: &[R], place: usize, key: &R::Key) -> Ordering
    requires { (k : R.Key) × PointsTo R.recording.settles facts.now k place }
    ensures { (k : R.Key) → PointsTo R.recording.settles facts.now k place →
        result ≡ R.Key.cmp k key.now }
{
    match facts[place].settles() {
        Some(settled) => settled.cmp(key),
        None => unreachable!(),
    }
}

/// The place of the verdict for the key; where there is none, where in the index it would go.
pub(crate) fn place_for<R: Record>(
    facts: &[R],
    places: &[usize],
    key: &R::Key,
) -> Result<usize, usize>
    requires { IsIndexed R.recording.settles R.Key.cmp facts.now places.now }
    ensures found { IfOk result (PointsTo R.recording.settles facts.now key.now) }
    ensures missed { IfErr result (λ at.
        IsBetween R.recording.settles R.Key.cmp facts.now places.now key.now at at) }
{
    let mut low = 0;
    let mut high = places.len();
    while low < high {
        let middle = low + (high - low) / 2;
        let place = places[middle];
        match compare_at(facts, place, key) {
            Ordering::Less => low = middle + 1,
            Ordering::Equal => return Ok(place),
            Ordering::Greater => high = middle,
        }
    }
    Err(low)
}

/// The place of the first of these records that settles the key, behind so many facts.
pub(crate) fn place_among<R: Record>(records: &[R], key: &R::Key, facts: usize) -> Option<usize>
    requires { facts + length records.now < 2 ^ 64 }
    ensures { IsPlaceOf R.recording.settles records.now key.now facts result }
{
    let mut place = facts;
    for record in records {
        if settles_key(record, key) {
            return Some(place);
        }
        place += 1;
    }
    None
}

/// Puts one more place, if there is one, into an index that has room for it.
pub(crate) fn put_place(places: &mut Vec<usize>, at: usize, place: Option<usize>)
    requires within { at ≤ vec_len places.old }
    requires room { vec_len places.old < vec_capacity places.old }
    ensures { places.new.items ≡ with_place places.old.items at place }
{
    let Some(place) = place else {
        return;
    };
    match places.insert(at, place) {
        Ok(()) => {}
        Err(_) => unreachable!(),
    }
}
