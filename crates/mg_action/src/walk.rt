//! A walk through the actions of an Ask's generators in the order of their numbers. Where no action whose image
//! lists begin like those of the action at hand refutes a goal, it passes over all of them at once.
ghost use Rattle.std.specs.Prelude.{◌≡◌, ℕ, ◌-◌, ◌*◌, ◌^◌, ◌≤◌, ◌<◌, IfOk, None, Some, length, min};
ghost use Rattle.mg_numbers.specs.Perms.{factorial};
ghost use Rattle.mg_numbers.specs.declared.blocks.TheConstants.{MOST_NUMBER};
ghost use Rattle.mg_numbers.specs.Plain.{NoneAmong};
ghost use Rattle.mg_action.specs.Action.{Refutes};
ghost use Rattle.mg_action.specs.Number.{IsNumbered, RefutedAt};
ghost use Rattle.mg_action.specs.Walk.{IsWalk, IsBehind, NoneBegin, stretch};

use crate::action::Action;
use crate::depths::refused_depth;
use crate::evidence::{first_refuted, has_letters};
use mg_numbers::{MOST_NUMBER, action_block};
use mg_present::Ask;
use mg_words::NoMemory;
use std::alloc::Global;

/// A walk through the actions of an Ask's generators.
#[derive(Debug, Drop)]
pub(crate) struct Walk {
    /// The number of the first action that isn't passed yet.
    pub(crate) next: u64,
    /// The action with that number, unless the number is too great.
    pub(crate) action: Action,
}

impl Walk {
    /// A walk that has passed no action; where no goal has a letter, it has passed all.
    pub(crate) fn start(alloc: Global, ask: &Ask) -> Result<Walk, NoMemory>
        requires { 1 ≤ ask.now.group.generators }
        ensures walk { IfOk result (λ walk. IsWalk ask.now walk) }
    {
        let next = first_number(ask);
        let mut action = Action::of_one_point(alloc, ask.group().generators())?;
        action.put_number(1);
        Ok(Walk { next, action })
    }

    /// Tests the action with the number `next`. Where it refutes a goal, the first such goal is given; else the
    /// walk passes it, and with it actions after it of which none refutes a goal. It takes no memory.
    pub(crate) fn step(&mut self, ask: &Ask) -> Option<u32>
        requires walk { IsWalk ask.now self.old }
        requires some { 1 ≤ ask.now.group.generators }
        requires most { self.old.next ≤ MOST_NUMBER }
        ensures numbered { (goal : ℕ) → result ≡ Some goal →
            IsNumbered ask.now.group.generators self.new.action self.new.next }
        ensures refutes { (goal : ℕ) → result ≡ Some goal → Refutes ask.now goal self.new.action }
        ensures least { (goal : ℕ) → result ≡ Some goal →
            (k : ℕ) → k < goal → Refutes ask.now k self.new.action → ⊥ }
        ensures stays { (goal : ℕ) → result ≡ Some goal → self.new.next ≡ self.old.next }
        ensures walk { result ≡ None → IsWalk ask.now self.new }
        ensures rises { result ≡ None → self.old.next < self.new.next }
    {
        let found = first_refuted(ask, &self.action);
        if found.is_none() {
            let depth = refused_depth(ask, &self.action);
            self.pass(ask, depth);
        }
        found
    }

    // Passes the actions from the one at hand on that have the same first images.
    fn pass(&mut self, ask: &Ask, depth: usize)
        requires walk { IsWalk ask.now self.old }
        requires some { 1 ≤ ask.now.group.generators }
        requires most { self.old.next ≤ MOST_NUMBER }
        requires depth { 1 ≤ depth }
        requires whole { depth ≤ length self.old.action.images * self.old.action.degree }
        requires none { NoneBegin ask.now self.old.action depth }
        ensures walk { IsWalk ask.now self.new }
        ensures rises { self.old.next < self.new.next }
    {
        let after = self.number_after(ask, depth);
        self.next = after;
        if after <= MOST_NUMBER {
            if !self.action.put_next(depth) {
                self.action.put_number(after);
            }
        }
    }

    // The number of the first action behind those, or the greatest number.
    fn number_after(&self, ask: &Ask, depth: usize) -> u64
        requires walk { IsWalk ask.now self.now }
        requires some { 1 ≤ ask.now.group.generators }
        requires most { self.now.next ≤ MOST_NUMBER }
        requires depth { 1 ≤ depth }
        requires whole { depth ≤ length self.now.action.images * self.now.action.degree }
        requires none { NoneBegin ask.now self.now.action depth }
        ensures rises { self.now.next < result }
        ensures none { NoneAmong (RefutedAt ask.now) 0 (result - 1) }
        ensures behind { result ≤ MOST_NUMBER → IsBehind self.now.action.degree
            (length self.now.action.images) depth self.now.next result }
    {
        let generators = ask.group().generators();
        let block = action_block(self.next, generators);
        let alike = stretch_of(block.size, generators, depth);
        self.next.saturating_add(alike - block.index % alike)
    }
}

// The first number to test: 1, or the greatest one where no goal has a letter, so that none is ever refuted.
fn first_number(ask: &Ask) -> u64
    ensures some { 1 ≤ result }
    ensures first { result ≤ MOST_NUMBER → result ≡ 1 }
    ensures none { NoneAmong (RefutedAt ask.now) 0 (result - 1) }
{
    if has_letters(ask.goals().as_slice()) {
        return 1;
    }
    u64::MAX
}

// How many tuples of permutations of the degree have the same first images, or the greatest number.
fn stretch_of(degree: u32, generators: u32, depth: usize) -> u64
    requires points { 1 ≤ degree }
    requires depth { 1 ≤ depth }
    requires whole { depth ≤ generators * degree }
    ensures { result ≡ min (stretch degree generators depth) (2 ^ 64 - 1) }
{
    let place = depth - 1;
    let lists = (place / degree as usize) as u32;
    let images = (place % degree as usize) as u32 + 1;
    let rest = saturated_factorial(degree - images);
    let perms = saturated_factorial(degree);
    rest.saturating_mul(perms.saturating_pow(generators - 1 - lists))
}

// How many permutations of so many points there are, or the greatest number.
fn saturated_factorial(points: u32) -> u64
    ensures { result ≡ min (factorial points) (2 ^ 64 - 1) }
{
    let mut count: u64 = 1;
    for place in 0..points {
        count = count.saturating_mul(u64::from(place) + 1);
    }
    count
}
