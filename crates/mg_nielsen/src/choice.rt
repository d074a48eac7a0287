//! What leaves the shortest rest, and what shortens a member most. No product is written out: how much cancels is read
//! from the ends of the words.
ghost use Rattle.std.specs.Prelude.{◌≡◌, ◌≢◌, ◌↔◌, ℕ, ◌+◌, ◌*◌, ◌<◌, ◌≤◌, ◌++◌, Bool, Option, None, IsTrue, IfSome, IfNone, length};
ghost use Rattle.mg_words.specs.Word.{inv, IsReduced};
ghost use Rattle.mg_words.specs.Reduction.{free_form};
ghost use Rattle.mg_present.specs.Same.{signed};
ghost use Rattle.mg_nielsen.specs.Expressed.{Expressed as ExpressedOf};
ghost use Rattle.mg_nielsen.specs.Moves.{member_at, IsFactor, peeled, stepped};
ghost use Rattle.mg_nielsen.specs.Choice.{common, quotient_length, AreReduced, numbered, place_of, IsNumber, picked, IsPick, left_by, Leaves, made, IsStep, Gains, GainsMost};
ghost use Rattle.mg_nielsen.specs.declared.choice.Pick.{Pick as PickOf};
ghost use Rattle.mg_nielsen.specs.declared.choice.Pick.TheVariants.{One, Two};

use crate::expressed::Expressed;
use mg_words::Letter;

/// What a rest is peeled by, by the numbers of factors: those of the members come first, and then those of their
/// inverses.
#[derive(Clone, Copy, Debug)]
pub(crate) enum Pick {
    /// One factor.
    One(usize),
    /// The product of two.
    Two(usize, usize),
}

/// A member and the factor that it is multiplied by.
#[derive(Clone, Copy, Debug)]
pub(crate) struct StepPick {
    /// The place of the member.
    pub(crate) place: usize,
    /// The number of the factor.
    pub(crate) number: usize,
    /// Whether the factor stands on the left.
    pub(crate) left: bool,
}

// The best peeling so far, and how many letters it leaves.
#[derive(Clone, Copy)]
struct Peeling {
    left: usize,
    by: Option<Pick>,
}

// The best step so far, and how many letters it takes off.
#[derive(Clone, Copy)]
struct Gain {
    letters: usize,
    by: Option<StepPick>,
}

// Whether two letters are one.
fn same(x: Letter, y: Letter) -> bool
    ensures { IsTrue result ↔ (x ≡ y) }
{
    x == y
}

// How many letters two words have in common at their left ends.
#[tactic(auto, using(crate::proofs::Cancelling::common_more, crate::proofs::Cancelling::common_ends, crate::proofs::Cancelling::common_end, crate::proofs::Cancelling::common_end_too))]
fn common(u: &[Letter], v: &[Letter]) -> usize
    ensures common { result ≡ common u.now v.now }
    ensures first { result ≤ length u.now }
    ensures second { result ≤ length v.now }
{
    let mut n = 0;
    while n < u.len() && n < v.len() && same(u[n], v[n]) {
        n += 1;
    }
    n
}

// How many letters the product of the inverse of a word with another word has.
#[tactic(auto, using(crate::proofs::Cancelling::quotient_counted))]
fn quotient_length(u: &[Letter], v: &[Letter]) -> usize
    requires first { IsReduced u.now }
    requires second { IsReduced v.now }
    ensures { result ≡ quotient_length u.now v.now }
{
    let n = common(u, v);
    (u.len() - n) + (v.len() - n)
}

// The same for a second word that is cut in two.
fn split_quotient_length(u: &[Letter], head: &[Letter], tail: &[Letter]) -> usize
    requires first { IsReduced u.now }
    requires second { IsReduced (head.now ++ tail.now) }
    ensures { result ≡ quotient_length u.now (head.now ++ tail.now) }
{
    let n = common(u, head);
    if n == head.len() {
        quotient_length(&u[n..], tail)
    } else {
        (u.len() - n) + (head.len() - n) + tail.len()
    }
}

// The letters of the factor with a number, or of its inverse.
fn factor(members: &[Expressed], number: usize, inverse: bool) -> &[Letter]
    requires { IsNumber members.now number }
    ensures { result.now ≡ signed inverse (numbered members.now number).word }
{
    if number < members.len() {
        members[number].letters(inverse)
    } else {
        members[number - members.len()].letters(!inverse)
    }
}

// The better of the best peeling so far and another one.
fn better(members: &[Expressed], rest: &[Letter], best: Peeling, pick: Pick, left: usize) -> Peeling
    requires best { Leaves members.now rest.now best.left best.by }
    requires pick { IsPick members.now pick }
    requires left { left ≡ left_by members.now rest.now pick }
    ensures best { Leaves members.now rest.now result.left result.by }
    ensures no_more { result.left ≤ best.left }
    ensures other { result.left ≤ left }
{
    if left < best.left {
        Peeling {
            left,
            by: Some(pick),
        }
    } else {
        best
    }
}

// The best peeling by one factor.
fn best_of_one(members: &[Expressed], rest: &[Letter]) -> Peeling
    requires members { AreReduced members.now }
    requires rest { IsReduced rest.now }
    ensures best { Leaves members.now rest.now result.left result.by }
    ensures all { (n : ℕ) → IsNumber members.now n →
        result.left ≤ left_by members.now rest.now (One n) }
{
    let mut best = Peeling {
        left: rest.len(),
        by: None,
    };
    for number in 0..2 * members.len() {
        let left = quotient_length(factor(members, number, false), rest);
        best = better(members, rest, best, Pick::One(number), left);
    }
    best
}

// The better of the best peeling so far and those by two factors of which this is the first.
fn best_of_two(members: &[Expressed], rest: &[Letter], best: Peeling, first: usize) -> Peeling
    requires members { AreReduced members.now }
    requires rest { IsReduced rest.now }
    requires best { Leaves members.now rest.now best.left best.by }
    requires first { IsNumber members.now first }
    ensures best { Leaves members.now rest.now result.left result.by }
    ensures no_more { result.left ≤ best.left }
    ensures all { (n : ℕ) → IsNumber members.now n →
        result.left ≤ left_by members.now rest.now (Two first n) }
{
    let word = factor(members, first, false);
    let n = common(word, rest);
    let head = &factor(members, first, true)[..word.len() - n];
    let tail = &rest[n..];
    let mut best = best;
    for number in 0..2 * members.len() {
        let left = split_quotient_length(factor(members, number, false), head, tail);
        best = better(members, rest, best, Pick::Two(first, number), left);
    }
    best
}

// The peeling that leaves the shortest rest, if any shortens it.
fn best_peeling(members: &[Expressed], rest: &[Letter]) -> Option<Pick>
    requires members { AreReduced members.now }
    requires rest { IsReduced rest.now }
    ensures some { IfSome result (λ pick. IsPick members.now pick ×
        (left_by members.now rest.now pick < length rest.now)) }
    ensures none { result ≡ None → (p : ExpressedOf) → IsFactor members.now p →
        length rest.now ≤ quotient_length p.word rest.now }
{
    let mut best = best_of_one(members, rest);
    for first in 0..2 * members.len() {
        best = best_of_two(members, rest, best, first);
    }
    best.by
}

/// The first rest that can be peeled, and the peeling of it that leaves the shortest rest.
pub(crate) fn first_peeling(members: &[Expressed], rests: &[Expressed]) -> Option<(usize, Pick)>
    requires members { AreReduced members.now }
    requires rests { AreReduced rests.now }
    ensures some { IfSome result (λ found. (found.0 < length rests.now) ×
        IsPick members.now found.1 ×
        (left_by members.now (member_at rests.now found.0).word found.1 <
        length (member_at rests.now found.0).word)) }
    ensures none { result ≡ None → (goal : ℕ) (p : ExpressedOf) → goal < length rests.now →
        IsFactor members.now p → length (member_at rests.now goal).word ≤
        quotient_length p.word (member_at rests.now goal).word }
{
    for goal in 0..rests.len() {
        let rest = &rests[goal];
        match best_peeling(members, rest.letters(false)) {
            Some(pick) => return Some((goal, pick)),
            None => {}
        }
    }
    None
}

// How many letters the member has after the step.
fn made_length(members: &[Expressed], pick: StepPick) -> usize
    requires members { AreReduced members.now }
    requires there { pick.place < length members.now }
    requires number { IsNumber members.now pick.number }
    ensures { result ≡ length (made members.now pick).word }
{
    let member = &members[pick.place];
    if pick.left {
        quotient_length(factor(members, pick.number, true), member.letters(false))
    } else {
        quotient_length(member.letters(true), factor(members, pick.number, false))
    }
}

// The better of the best step so far and another one.
fn better_step(members: &[Expressed], best: Gain, pick: StepPick) -> Gain
    requires members { AreReduced members.now }
    requires best { Gains members.now best.letters best.by }
    requires pick { IsStep members.now pick }
    ensures best { Gains members.now result.letters result.by }
    ensures no_less { best.letters ≤ result.letters }
    ensures other { GainsMost members.now result.letters pick }
{
    let before = members[pick.place].letters(false).len();
    let after = made_length(members, pick);
    if after < before && best.letters < before - after {
        Gain {
            letters: before - after,
            by: Some(pick),
        }
    } else {
        best
    }
}

// The better of the best step so far and those of a member by a factor.
fn best_by(members: &[Expressed], best: Gain, place: usize, number: usize) -> Gain
    requires members { AreReduced members.now }
    requires best { Gains members.now best.letters best.by }
    requires place { place < length members.now }
    requires number { IsNumber members.now number }
    ensures best { Gains members.now result.letters result.by }
    ensures no_less { best.letters ≤ result.letters }
    ensures all { place_of members.now number ≢ place → (left : Bool) →
        GainsMost members.now result.letters
        (record { place = place; number = number; left = left }) }
{
    let other = if number < members.len() {
        number
    } else {
        number - members.len()
    };
    if other == place {
        return best;
    }
    let right = StepPick {
        place,
        number,
        left: false,
    };
    let best = better_step(members, best, right);
    better_step(
        members,
        best,
        StepPick {
            left: true,
            ..right
        },
    )
}

// The better of the best step so far and those of a member.
fn best_of_member(members: &[Expressed], best: Gain, place: usize) -> Gain
    requires members { AreReduced members.now }
    requires best { Gains members.now best.letters best.by }
    requires place { place < length members.now }
    ensures best { Gains members.now result.letters result.by }
    ensures no_less { best.letters ≤ result.letters }
    ensures all { (n : ℕ) (left : Bool) → IsNumber members.now n →
        place_of members.now n ≢ place →
        GainsMost members.now result.letters
        (record { place = place; number = n; left = left }) }
{
    let mut best = best;
    for number in 0..2 * members.len() {
        best = best_by(members, best, place, number);
    }
    best
}

/// The elementary step that shortens a member most, if any shortens one.
pub(crate) fn best_step(members: &[Expressed]) -> Option<StepPick>
    requires { AreReduced members.now }
    ensures some { IfSome result (λ pick. IsStep members.now pick ×
        (length (made members.now pick).word < length (member_at members.now pick.place).word)) }
    ensures none { result ≡ None → (place other : ℕ) (inverse left : Bool) →
        place < length members.now → other < length members.now → other ≢ place →
        length (member_at members.now place).word ≤
        length (stepped members.now place other inverse left).word }
{
    let mut best = Gain {
        letters: 0,
        by: None,
    };
    for place in 0..members.len() {
        best = best_of_member(members, best, place);
    }
    best.by
}
