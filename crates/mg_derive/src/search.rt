//! The search through the texts of an Ask in the order of their numbers.
ghost use Rattle.std.specs.Prelude.{◌≡◌, ℕ, ◌+◌, ◌≤◌, true, false, [], IfOk};
ghost use Rattle.mg_numbers.specs.declared.blocks.TheConstants.{MOST_NUMBER};
ghost use Rattle.mg_numbers.specs.Plain.{NoneAmong, TestsAll, FindsFirst};
ghost use Rattle.mg_derive.specs.Acceptance.{AcceptedAt, IsAccepted, IsNumbered};
ghost use Rattle.mg_numbers.specs.declared.advance.Advance.TheVariants.{More, Found};

use crate::derivation::Derivation;
use crate::walk::Walk;
use mg_numbers::Advance;
use mg_present::Ask;
use mg_words::NoMemory;
use std::alloc::Global;
use std::marker::Model;

/// A search through the texts of an Ask. A unit is one text tested; the cursor is the number of the
/// last text tested, and no text up to it was accepted before the search found one.
#[derive(Debug, Drop)]
pub struct Enumeration {
    ask: Ask,
    cursor: u64,
    is_open: bool,
    walk: Walk,
}

impl Model for Enumeration {
    ghost use Rattle.mg_derive.specs.Search.{Searched, IsReady};

    ghost Value = { Searched };

    ghost view = { λ s. record {
      ask = s.ask;
      cursor = s.cursor;
      is_open = s.is_open;
      text = s.walk.text.symbols;
    } };

    ghost invariant = { λ s. IsReady s.ask s.cursor s.is_open s.walk };
}

impl Enumeration {
    /// A search that has tested nothing yet.
    pub fn start(alloc: Global, ask: Ask) -> Result<Enumeration, NoMemory>
        ensures ask { IfOk result (λ search. search.ask ≡ ask) }
        ensures cursor { IfOk result (λ search. search.cursor ≡ 0) }
        ensures goes_on { IfOk result (λ search. search.is_open ≡ true) }
        ensures text { IfOk result (λ search. search.text ≡ []) }
    {
        let walk = Walk::start(alloc, &ask)?;
        Ok(Enumeration {
            ask,
            cursor: 0,
            is_open: true,
            walk,
        })
    }

    /// The Ask.
    pub fn ask(&self) -> &Ask
        ensures { result.now ≡ self.now.ask }
    {
        &self.ask
    }

    /// The number of the last text tested, which is how many texts were tested.
    pub fn cursor(&self) -> u64
        ensures value { result ≡ self.now.cursor }
        ensures most { result ≤ MOST_NUMBER }
        ensures none { self.now.is_open ≡ true →
            NoneAmong (AcceptedAt self.now.ask) 0 self.now.cursor }
    {
        self.cursor
    }

    /// The text that was found, once the search has found one.
    pub fn text(&self) -> &Derivation
        ensures { result.now.symbols ≡ self.now.text }
    {
        &self.walk.text
    }

    /// Tests the next texts, one for each unit, up to the first that is accepted. It takes no memory.
    pub fn advance(&mut self, units: u64) -> Advance
        requires goes_on { self.old.is_open ≡ true }
        requires some { 1 ≤ units }
        requires most { self.old.cursor + units ≤ MOST_NUMBER }
        ensures ask { self.new.ask ≡ self.old.ask }

        // All units are spent.
        ensures more { result ≡ More →
            TestsAll (AcceptedAt self.old.ask) self.old.cursor units units }
        ensures more_cursor { result ≡ More → self.new.cursor ≡ self.old.cursor + units }
        ensures more_goes_on { result ≡ More → self.new.is_open ≡ true }

        // The first accepted text is found.
        ensures found { (spent : ℕ) → result ≡ Found spent →
            FindsFirst (AcceptedAt self.old.ask) self.old.cursor units spent }
        ensures found_cursor { (spent : ℕ) → result ≡ Found spent →
            self.new.cursor ≡ self.old.cursor + spent }
        ensures found_ends { (spent : ℕ) → result ≡ Found spent → self.new.is_open ≡ false }
        ensures found_numbered { (spent : ℕ) → result ≡ Found spent →
            IsNumbered self.new.ask self.new.text self.new.cursor }
        ensures found_accepted { (spent : ℕ) → result ≡ Found spent →
            IsAccepted self.new.ask self.new.text }

        // While the search goes on, no text up to its cursor is accepted.
        ensures none { self.new.is_open ≡ true →
            NoneAmong (AcceptedAt self.new.ask) 0 self.new.cursor }
    {
        let last = self.cursor + units;
        while self.walk.next <= last {
            if self.walk.step(&self.ask) {
                let spent = self.walk.next - self.cursor;
                self.cursor = self.walk.next;
                self.is_open = false;
                return Advance::Found { spent };
            }
        }
        self.cursor = last;
        Advance::More
    }
}
