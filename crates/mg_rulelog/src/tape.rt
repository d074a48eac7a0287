//! The word that moves are made on.
ghost use Rattle.std.specs.Prelude.{◌≡◌, ◌<◌, ◌↔◌, false, OnOk, IfOk, IsTrue, length};
ghost use Rattle.mg_rulelog.specs.Moves.{Replaces};
ghost use Rattle.mg_rulelog.specs.Tape.{spelled, Tells};

use mg_lists::NoMemory;
use mg_words::Letter;
use std::alloc::Global;

/// A word as two stacks that meet at a place, so that moves that lie near each other don't copy it.
#[derive(Debug, Drop)]
pub(crate) struct Tape {
    /// The letters before the place.
    before: Vec<Letter>,
    /// The letters behind the place, the last one first.
    behind: Vec<Letter>,
}

impl Tape {
    /// The empty word, which takes no memory.
    pub(crate) fn new(alloc: Global) -> Tape {
        Tape {
            before: Vec::new(alloc),
            behind: Vec::new(alloc),
        }
    }

    /// Puts a word in the place of the one that was there.
    pub(crate) fn load(&mut self, letters: &[Letter]) -> Result<(), NoMemory>
        ensures { OnOk result (spelled self.new ≡ letters.now) }
    {
        self.behind.clear();
        self.before.clear();
        self.before.extend_from_slice(letters)
    }

    /// Whether these are the letters of the word.
    pub(crate) fn spells(&mut self, letters: &[Letter]) -> Result<bool, NoMemory>
        ensures { IfOk result (λ same. IsTrue same ↔ (spelled self.old ≡ letters.now)) }
    {
        while let Some(x) = self.behind.pop() {
            self.before.push(x)?;
        }
        Ok(self.before.as_slice().cmp(letters).is_eq())
    }

    /// Puts letters in the place of others, which stand behind the first `place` letters; whether they stand
    /// there.
    pub(crate) fn replace(
        &mut self,
        place: u32,
        old: &[Letter],
        new: &[Letter],
    ) -> Result<bool, NoMemory>
        ensures { IfOk result (λ stood.
            Tells (Replaces old.now new.now place (spelled self.old)) stood (spelled self.new)) }
    {
        let place = place as usize;
        if !self.go(place + old.len())? {
            return Ok(false);
        }
        let (_, last) = self.before.as_slice().split_at(place);
        if last.cmp(old).is_ne() {
            return Ok(false);
        }
        self.before.truncate(place);
        self.before.extend_from_slice(new)?;
        Ok(true)
    }

    // Lets the stacks meet behind the first `place` letters; whether there are so many.
    fn go(&mut self, place: usize) -> Result<bool, NoMemory>
        ensures same { OnOk result (spelled self.new ≡ spelled self.old) }
        ensures there { IfOk result (λ there. IsTrue there → length self.new.before.items ≡ place) }
        ensures short { IfOk result (λ there. there ≡ false → length (spelled self.old) < place) }
    {
        while place < self.before.len() {
            match self.before.pop() {
                Some(x) => self.behind.push(x)?,
                None => return Ok(false),
            }
        }
        while self.before.len() < place {
            match self.behind.pop() {
                Some(x) => self.before.push(x)?,
                None => return Ok(false),
            }
        }
        Ok(true)
    }
}
