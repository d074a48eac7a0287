//! The search through the maps of the group of an Ask in the order of their numbers.
ghost use Rattle.std.specs.Prelude.{◌≡◌, ℕ, ◌+◌, ◌≤◌, true, false, IfOk, replicate};
ghost use Rattle.mg_numbers.specs.declared.blocks.TheConstants.{MOST_NUMBER};
ghost use Rattle.mg_numbers.specs.declared.advance.Advance.TheVariants.{More, Found};
ghost use Rattle.mg_numbers.specs.Plain.{NoneAmong, TestsAll, FindsFirst};
ghost use Rattle.mg_cyclic.specs.Map.{Refutes, RefutesNoneBefore};
ghost use Rattle.mg_cyclic.specs.Number.{IsNumbered, RefutedAt};

use crate::residues::Residues;
use crate::walk::Walk;
use mg_numbers::Advance;
use mg_present::Ask;
use mg_words::NoMemory;
use std::alloc::Global;
use std::marker::Model;

/// A search through the maps of the group of an Ask. A unit is one map tested; the cursor is the number of
/// the last map tested, and no map up to it refuted a goal before the search found one.
#[derive(Debug, Drop)]
pub struct Enumeration {
    ask: Ask,
    cursor: u64,
    is_open: bool,
    walk: Walk,
}

impl Model for Enumeration {
    ghost use Rattle.mg_cyclic.specs.Search.{Searched, IsReady};

    ghost Value = { Searched };

    ghost view = { λ s. record {
      ask = s.ask;
      cursor = s.cursor;
      is_open = s.is_open;
      map = s.walk.map;
      goal = s.walk.goal;
    } };

    ghost invariant = { λ s. IsReady s.ask s.cursor s.is_open s.walk };
}

impl Enumeration {
    /// A search that has tested nothing yet.
    pub fn start(alloc: Global, ask: Ask) -> Result<Enumeration, NoMemory>
        requires { 1 ≤ ask.group.generators }
        ensures ask { IfOk result (λ search. search.ask ≡ ask) }
        ensures cursor { IfOk result (λ search. search.cursor ≡ 0) }
        ensures goes_on { IfOk result (λ search. search.is_open ≡ true) }
        ensures map { IfOk result (λ search.
            search.map ≡ record { modulus = 2; residues = replicate ask.group.generators 0 }) }
        ensures goal { IfOk result (λ search. search.goal ≡ 0) }
    {
        let walk = Walk::start(alloc, &ask)?;
        Ok(Enumeration {
            ask,
            cursor: 0,
            is_open: true,
            walk,
        })
    }

    /// The Ask.
    pub fn ask(&self) -> &Ask
        ensures { result.now ≡ self.now.ask }
    {
        &self.ask
    }

    /// The number of the last map tested, which is how many maps were tested.
    pub fn cursor(&self) -> u64
        ensures value { result ≡ self.now.cursor }
        ensures most { result ≤ MOST_NUMBER }
        ensures none { self.now.is_open ≡ true →
            NoneAmong (RefutedAt self.now.ask) 0 self.now.cursor }
    {
        self.cursor
    }

    /// The map that was found, once the search has found one.
    pub fn residues(&self) -> &Residues
        ensures { result.now ≡ self.now.map }
    {
        &self.walk.map
    }

    /// The least goal, from 0, that the map refutes, once the search has found one.
    pub fn goal(&self) -> u32
        ensures { result ≡ self.now.goal }
    {
        self.walk.goal
    }

    /// Tests the next maps, one for each unit, up to the first that refutes a goal. It takes no memory.
    pub fn advance(&mut self, units: u64) -> Advance
        requires goes_on { self.old.is_open ≡ true }
        requires some { 1 ≤ units }
        requires most { self.old.cursor + units ≤ MOST_NUMBER }
        ensures ask { self.new.ask ≡ self.old.ask }

        // All units are spent.
        ensures more { result ≡ More →
            TestsAll (RefutedAt self.old.ask) self.old.cursor units units }
        ensures more_cursor { result ≡ More → self.new.cursor ≡ self.old.cursor + units }
        ensures more_goes_on { result ≡ More → self.new.is_open ≡ true }

        // The first map that refutes a goal is found.
        ensures found { (spent : ℕ) → result ≡ Found spent →
            FindsFirst (RefutedAt self.old.ask) self.old.cursor units spent }
        ensures found_cursor { (spent : ℕ) → result ≡ Found spent →
            self.new.cursor ≡ self.old.cursor + spent }
        ensures found_ends { (spent : ℕ) → result ≡ Found spent → self.new.is_open ≡ false }
        ensures found_numbered { (spent : ℕ) → result ≡ Found spent →
            IsNumbered self.new.ask.group.generators self.new.map self.new.cursor }
        ensures found_refutes { (spent : ℕ) → result ≡ Found spent →
            Refutes self.new.ask self.new.goal self.new.map }
        ensures found_least { (spent : ℕ) → result ≡ Found spent →
            RefutesNoneBefore self.new.ask self.new.goal self.new.map }

        // While the search goes on, no map up to its cursor refutes a goal.
        ensures none { self.new.is_open ≡ true →
            NoneAmong (RefutedAt self.new.ask) 0 self.new.cursor }
    {
        let last = self.cursor + units;
        while self.walk.next <= last {
            if self.walk.step(&self.ask) {
                let spent = self.walk.next - self.cursor;
                self.cursor = self.walk.next;
                self.is_open = false;
                return Advance::Found { spent };
            }
        }
        self.cursor = last;
        Advance::More
    }
}
