//! A walk through the maps of the group of an Ask in the order of their numbers. It chooses the residues one
//! after another, and where no map that begins so refutes a goal, it passes over all of them at once.
ghost use Rattle.std.specs.Prelude.{◌≡◌, ℤ, List, ◌+◌, ◌-◌, ◌%◌, ◌^◌, ◌<◌, ◌≤◌, false, IfOk, IsTrue, length, min, replicate, set, slice_index};
ghost use Rattle.mg_numbers.specs.declared.blocks.TheConstants.{MOST_NUMBER};
ghost use Rattle.mg_present.specs.Ask.{Inquiry};
ghost use Rattle.mg_cyclic.specs.Map.{Refutes, RefutesNoneBefore};
ghost use Rattle.mg_cyclic.specs.Number.{IsNumbered, RefutedAt};
ghost use Rattle.mg_cyclic.specs.Kept.{Keep};
ghost use Rattle.mg_cyclic.specs.Walk.{IsWalk, IsPlace, IsStanding, NoneHere, first_at, stretch_at};

use crate::evidence::first_refuted;
use crate::exponents::content_of;
use crate::kept::{Kept, breaks, kept_of, raise_all, renew_all};
use crate::residues::Residues;
use mg_present::Ask;
use mg_words::NoMemory;
use std::alloc::Global;

/// A walk through the maps of the group of an Ask. It looks at the maps of its modulus whose first residues,
/// as many as `level`, are those of its map. The other residues of its map are 0.
#[derive(Debug, Drop)]
pub(crate) struct Walk {
    /// The number of the first map that isn't passed yet.
    pub(crate) next: u64,
    /// The first map where the walk stands.
    pub(crate) map: Residues,
    /// The least goal that the map refutes, once one is found.
    pub(crate) goal: u32,
    /// How many residues are chosen.
    level: usize,
    /// To what each relator sums at the map.
    relators: Vec<Kept>,
    /// And each subgroup word.
    members: Vec<Kept>,
    /// What divides the exponent sums of all goals.
    content: u64,
}

impl Walk {
    /// A walk that has passed no map, or all where no map refutes a goal.
    pub(crate) fn start(alloc: Global, ask: &Ask) -> Result<Walk, NoMemory>
        requires { 1 ≤ ask.now.group.generators }
        ensures walk { IfOk result (λ walk. IsWalk ask.now walk) }
        ensures map { IfOk result (λ walk.
            walk.map ≡ record { modulus = 2; residues = replicate ask.now.group.generators 0 }) }
        ensures goal { IfOk result (λ walk. walk.goal ≡ 0) }
    {
        let generators = ask.group().generators();
        let content = content_of(ask.goals().as_slice(), generators);
        Ok(Walk {
            next: first_number(content),
            map: Residues::all_zero(alloc, generators)?,
            goal: 0,
            level: 0,
            relators: kept_of(alloc, ask.group().relators().as_slice(), generators)?,
            members: kept_of(alloc, ask.subgroup().as_slice(), generators)?,
            content,
        })
    }

    /// Tests the map with the number `next`; whether it refutes a goal, and then it is the walk's map. Else
    /// the walk passes it, and with it maps after it of which none refutes a goal. It takes no memory.
    pub(crate) fn step(&mut self, ask: &Ask) -> bool
        requires walk { IsWalk ask.now self.old }
        requires most { self.old.next ≤ MOST_NUMBER }
        ensures numbered { IsTrue result →
            IsNumbered ask.now.group.generators self.new.map self.new.next }
        ensures refutes { IsTrue result → Refutes ask.now self.new.goal self.new.map }
        ensures least { IsTrue result → RefutesNoneBefore ask.now self.new.goal self.new.map }
        ensures stays { IsTrue result → self.new.next ≡ self.old.next }
        ensures walk { result ≡ false → IsWalk ask.now self.new }
        ensures rises { result ≡ false → self.old.next < self.new.next }
    {
        if self.finds(ask) {
            return true;
        }
        self.pass();
        false
    }

    // Chooses residues 0 where the walk stands, while some map that begins so may refute a goal. Whether all
    // are chosen and the map refutes one.
    fn finds(&mut self, ask: &Ask) -> bool
        requires place { IsPlace ask.now self.old }
        ensures next { self.new.next ≡ self.old.next }
        ensures map { self.new.map ≡ self.old.map }
        ensures refutes { IsTrue result → Refutes ask.now self.new.goal self.new.map }
        ensures least { IsTrue result → RefutesNoneBefore ask.now self.new.goal self.new.map }
        ensures place { result ≡ false → IsPlace ask.now self.new }
        ensures refused { result ≡ false → NoneHere ask.now self.new }
    {
        if self.is_idle() {
            return false;
        }
        while !self.is_broken() {
            if self.level == self.map.images().len() {
                return self.tests(ask);
            }
            self.deepen();
        }
        false
    }

    // Whether the walk looks at all maps of its modulus, which divides the exponent sums of all goals.
    fn is_idle(&self) -> bool
        requires { 1 ≤ self.now.map.modulus }
        ensures { IsTrue result → self.now.content % self.now.map.modulus ≡ 0 }
    {
        self.level == 0 && self.content % u64::from(self.map.modulus()) == 0
    }

    // Chooses one residue more, which is 0.
    fn deepen(&mut self)
        requires left { self.old.level < length self.old.map.residues }
        requires few { length self.old.map.residues ≤ 64 }
        ensures place { (ask : Inquiry) → IsPlace ask self.old → IsPlace ask self.new }
        ensures next { self.new.next ≡ self.old.next }
        ensures map { self.new.map ≡ self.old.map }
        ensures level { self.new.level ≡ self.old.level + 1 }
    {
        let _modulus = self.map.modulus();
        self.level += 1;
    }

    // Whether a relator or a subgroup word that depends on the chosen residues alone doesn't sum to 0.
    fn is_broken(&self) -> bool
        ensures { (ask : Inquiry) → IsPlace ask self.now → IsTrue result → NoneHere ask self.now }
    {
        breaks(self.relators.as_slice(), self.level) || breaks(self.members.as_slice(), self.level)
    }

    // Whether the map refutes a goal, and then the least one is noted.
    fn tests(&mut self, ask: &Ask) -> bool
        requires place { IsPlace ask.now self.old }
        requires whole { self.old.level ≡ length self.old.map.residues }
        ensures next { self.new.next ≡ self.old.next }
        ensures map { self.new.map ≡ self.old.map }
        ensures refutes { IsTrue result → Refutes ask.now self.new.goal self.new.map }
        ensures least { IsTrue result → RefutesNoneBefore ask.now self.new.goal self.new.map }
        ensures place { result ≡ false → IsPlace ask.now self.new }
        ensures refused { result ≡ false → NoneHere ask.now self.new }
    {
        let Some(goal) = first_refuted(ask, &self.map) else {
            return false;
        };
        self.goal = goal;
        true
    }

    // Passes all maps where the walk stands, and goes to the first ones after them.
    fn pass(&mut self)
        requires standing { IsStanding self.old }
        requires small { self.old.map.modulus + 1 < 2 ^ 32 }
        requires few { length self.old.map.residues ≤ 64 }
        ensures next { self.new.next ≡ min (self.old.next + stretch_at self.old) (2 ^ 64 - 1) }
        ensures standing { IsStanding self.new }
        ensures first { first_at self.new ≡ first_at self.old + stretch_at self.old }
        ensures count { length self.new.map.residues ≡ length self.old.map.residues }
        ensures relators { (words : List (List ℤ)) →
            Keep words self.old.map self.old.relators.items →
            Keep words self.new.map self.new.relators.items }
        ensures members { (words : List (List ℤ)) →
            Keep words self.old.map self.old.members.items →
            Keep words self.new.map self.new.members.items }
        ensures content { self.new.content ≡ self.old.content }
    {
        let left = self.map.images().len() - self.level;
        self.next = number_after(self.next, self.map.modulus(), left as u32);
        self.carry();
    }

    // Goes to the first maps after those where the walk stands.
    fn carry(&mut self)
        requires standing { IsStanding self.old }
        requires small { self.old.map.modulus + 1 < 2 ^ 32 }
        requires few { length self.old.map.residues ≤ 64 }
        ensures next { self.new.next ≡ self.old.next }
        ensures standing { IsStanding self.new }
        ensures first { first_at self.new ≡ first_at self.old + stretch_at self.old }
        ensures count { length self.new.map.residues ≡ length self.old.map.residues }
        ensures relators { (words : List (List ℤ)) →
            Keep words self.old.map self.old.relators.items →
            Keep words self.new.map self.new.relators.items }
        ensures members { (words : List (List ℤ)) →
            Keep words self.old.map self.old.members.items →
            Keep words self.new.map self.new.members.items }
        ensures content { self.new.content ≡ self.old.content }
    {
        while self.level > 0 {
            if self.raise(self.level - 1) {
                return;
            }
            self.level -= 1;
        }
        self.enlarge();
    }

    // Goes to the next modulus where all residues are 0, and so are all sums, with the next modulus too.
    fn enlarge(&mut self)
        requires small { self.old.map.modulus + 1 < 2 ^ 32 }
        requires few { length self.old.map.residues ≤ 64 }
        requires zeros { self.old.map.residues ≡ replicate (length self.old.map.residues) 0 }
        ensures map { self.new.map ≡ record {
          modulus = self.old.map.modulus + 1;
          residues = self.old.map.residues;
        } }
        ensures relators { (words : List (List ℤ)) →
            Keep words self.old.map self.old.relators.items →
            Keep words self.new.map self.new.relators.items }
        ensures members { (words : List (List ℤ)) →
            Keep words self.old.map self.old.members.items →
            Keep words self.new.map self.new.members.items }
        ensures next { self.new.next ≡ self.old.next }
        ensures level { self.new.level ≡ self.old.level }
        ensures content { self.new.content ≡ self.old.content }
    {
        self.map.enlarge();
        let modulus = self.map.modulus();
        renew_all(&mut self.relators, modulus);
        renew_all(&mut self.members, modulus);
    }

    // Raises the residue at a place by one, and the last one to 0; whether it wasn't the last one.
    fn raise(&mut self, place: usize) -> bool
        requires there { place < length self.old.map.residues }
        requires few { length self.old.map.residues ≤ 64 }
        ensures up { IsTrue result →
            slice_index self.old.map.residues place + 1 < self.old.map.modulus }
        ensures raised { IsTrue result → self.new.map ≡ record {
          modulus = self.old.map.modulus;
          residues = set self.old.map.residues place (slice_index self.old.map.residues place + 1);
        } }
        ensures last { result ≡ false →
            slice_index self.old.map.residues place + 1 ≡ self.old.map.modulus }
        ensures around { result ≡ false → self.new.map ≡ record {
          modulus = self.old.map.modulus;
          residues = set self.old.map.residues place 0;
        } }
        ensures relators { (words : List (List ℤ)) →
            Keep words self.old.map self.old.relators.items →
            Keep words self.new.map self.new.relators.items }
        ensures members { (words : List (List ℤ)) →
            Keep words self.old.map self.old.members.items →
            Keep words self.new.map self.new.members.items }
        ensures next { self.new.next ≡ self.old.next }
        ensures level { self.new.level ≡ self.old.level }
        ensures content { self.new.content ≡ self.old.content }
    {
        let modulus = self.map.modulus();
        let is_higher = self.map.raise(place);
        raise_all(&mut self.relators, place, modulus);
        raise_all(&mut self.members, place, modulus);
        is_higher
    }
}

// The number of the first map, or so great a number that it is never reached where no map refutes a goal.
fn first_number(content: u64) -> u64
    ensures none { content ≡ 0 → result ≡ 2 ^ 64 - 1 }
    ensures some { 1 ≤ content → result ≡ 1 }
{
    if content == 0 {
        return u64::MAX;
    }
    1
}

// The number behind a stretch of maps, or the greatest one.
fn number_after(number: u64, modulus: u32, left: u32) -> u64
    ensures { result ≡ min (number + modulus ^ left) (2 ^ 64 - 1) }
{
    number.saturating_add(u64::from(modulus).saturating_pow(left))
}
