//! The beginning of the first turn.
ghost use Rattle.std.specs.Prelude.{◌≡◌, ◌<◌, ◌≤◌, ◌*◌, ◌∷◌, ℕ, [], pos, neg_ℤ, ℤ, Some, List as ListOf, IfOk, length, slice_get};
ghost use Rattle.mg_words.specs.Letter.{IsLetterOf};
ghost use Rattle.mg_complete.specs.Working.{Works};
ghost use Rattle.mg_complete.specs.Completion.{Vanish, first_equations};
ghost use Rattle.mg_complete.specs.Beginning.{Begins, Vanishes, PairsVanish, LetterVanishes, RelatorsVanish, full_by};

use crate::desk::Settled;
use crate::system::Passed;
use crate::work::Work;
use mg_core::NoMemory;
use mg_words::Letter;
use std::alloc::Global;

impl Work {
    /// Makes rules of all pairs and of all relators, at no unit, as far as no limit is passed.
    pub(crate) fn begin(&mut self, alloc: Global) -> Result<Option<Passed>, NoMemory>
        requires { (dealt : ℕ) × Works self.old dealt }
        ensures { IfOk result (λ full. Begins self.old (first_equations self.old.ask.group)
            (Vanish self.old.ask.group) full self.new) }
    {
        if let Some(passed) = self.deal_pairs(alloc)? {
            return Ok(Some(passed));
        }
        self.deal_relators(alloc)
    }

    // Makes rules of the pairs of all generators.
    fn deal_pairs(&mut self, alloc: Global) -> Result<Option<Passed>, NoMemory>
        requires { (dealt : ℕ) × Works self.old dealt }
        ensures { IfOk result (λ full. Begins self.old (2 * self.old.ask.group.generators)
            (PairsVanish self.old.ask.group.generators) full self.new) }
    {
        let count = self.ask.group().generators();
        let mut generator = 0u8;
        while u32::from(generator) < count {
            generator += 1;
            if let Some(passed) = self.deal_generator(alloc, generator)? {
                return Ok(Some(passed));
            }
        }
        Ok(None)
    }

    // Makes rules of a generator before its inverse, and of the inverse before the generator.
    fn deal_generator(&mut self, alloc: Global, generator: u8) -> Result<Option<Passed>, NoMemory>
        requires works { (dealt : ℕ) × Works self.old dealt }
        requires some { 1 ≤ generator }
        requires most { generator ≤ self.old.ask.group.generators }
        requires place { generator ≤ 64 }
        ensures { IfOk result (λ full.
            Begins self.old 2 (LetterVanishes (pos generator)) full self.new) }
    {
        let letter = Letter {
            generator,
            inverse: false,
        };
        if let Some(passed) = self.deal_pair(alloc, letter)? {
            return Ok(Some(passed));
        }
        self.deal_pair(alloc, letter.inverted())
    }

    // Makes rules of all relators.
    fn deal_relators(&mut self, alloc: Global) -> Result<Option<Passed>, NoMemory>
        requires { (dealt : ℕ) × Works self.old dealt }
        ensures { IfOk result (λ full. Begins self.old (length self.old.ask.group.relators)
            (RelatorsVanish self.old.ask.group.relators
            (length self.old.ask.group.relators)) full self.new) }
    {
        let count = self.ask.group().relators().len();
        for place in 0..count {
            if let Some(passed) = self.deal_relator(alloc, place)? {
                return Ok(Some(passed));
            }
        }
        Ok(None)
    }

    /// Makes a rule of a letter before its inverse, at no unit, where that passes no limit.
    pub fn deal_pair(&mut self, alloc: Global, letter: Letter) -> Result<Option<Passed>, NoMemory>
        requires works { (dealt : ℕ) × Works self.old dealt }
        requires letter { IsLetterOf self.old.ask.group.generators letter }
        ensures { IfOk result (λ full.
            Begins self.old 1 (Vanishes (letter ∷ neg_ℤ letter ∷ [])) full self.new) }
    {
        self.desk.put_pair(letter)?;
        let settled = self.settle(alloc)?;
        Ok(passed_by(settled))
    }

    /// Makes a rule of the relator at a place, from 0, at no unit, where that passes no limit.
    pub fn deal_relator(&mut self, alloc: Global, place: usize) -> Result<Option<Passed>, NoMemory>
        requires works { (dealt : ℕ) × Works self.old dealt }
        requires place { place < length self.old.ask.group.relators }
        ensures { IfOk result (λ full. (word : ListOf ℤ) →
            slice_get self.old.ask.group.relators place ≡ Some word →
            Begins self.old 1 (Vanishes word) full self.new) }
    {
        let relator = self.ask.group().relator(place);
        self.desk.put_relator(place as u32 + 1, relator)?;
        let settled = self.settle(alloc)?;
        Ok(passed_by(settled))
    }
}

// The limit that would have been passed.
fn passed_by(settled: Settled) -> Option<Passed>
    ensures { result ≡ full_by settled }
{
    match settled {
        Settled::Full(passed) => Some(passed),
        Settled::Joined | Settled::Added => None,
    }
}
