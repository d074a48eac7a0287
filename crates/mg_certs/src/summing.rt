//! Which goal a map to residues refutes first.
ghost use Rattle.std.specs.Prelude.{◌≡◌, ◌↔◌, ◌<◌, ◌+◌, ◌%◌, IsTrue, length};
ghost use Rattle.std.specs.List.{AllByRecursion};
ghost use Rattle.mg_words.specs.Letter.{IsLetterOf};
ghost use Rattle.mg_words.specs.Word.{IsOver, letters_of};
ghost use Rattle.mg_cyclic.specs.Map.{added_by_letter, residue_of_word, IsMap, Refutes};
ghost use Rattle.mg_certs.specs.Claim.{residues};
ghost use Rattle.mg_certs.specs.Refuting.{IsFirstRefuted};

use mg_cyclic::Residues;
use mg_present::Ask;
use mg_words::{Letter, Word};

/// The first goal that a map of the group refutes. The map isn't tested.
pub(crate) fn first_refuted(ask: &Ask, map: &Residues) -> Option<u32>
    requires { IsMap ask.now.group map.now }
    ensures { IsFirstRefuted ask.now (residues map.now) result }
{
    if !all_vanish(ask.subgroup().as_slice(), map) {
        return None;
    }
    for goal in 0..ask.goals().len() as u32 {
        if remains(ask, goal, map) {
            return Some(goal);
        }
    }
    None
}

/// Whether a goal doesn't sum to 0.
fn remains(ask: &Ask, goal: u32, map: &Residues) -> bool
    requires of_group { IsMap ask.now.group map.now }
    requires vanish { AllByRecursion (λ w. residue_of_word map.now w ≡ 0) ask.now.subgroup }
    requires there { goal < length ask.now.goals }
    ensures { IsTrue result ↔ Refutes ask.now goal map.now }
{
    residue(map, ask.goals().at(goal as usize).letters()) != 0
}

/// Whether every word sums to 0.
fn all_vanish(words: &[Word], map: &Residues) -> bool
    requires { AllByRecursion (IsOver (length map.now.residues)) (letters_of words.now) }
    ensures { IsTrue result ↔
        AllByRecursion (λ w. residue_of_word map.now w ≡ 0) (letters_of words.now) }
{
    for word in words {
        if residue(map, word.letters()) != 0 {
            return false;
        }
    }
    true
}

/// The residue of a word.
#[tactic(auto, using(crate::proofs::Summed::residue_more))]
fn residue(map: &Residues, word: &[Letter]) -> u32
    requires { IsOver (length map.now.residues) word.now }
    ensures { result ≡ residue_of_word map.now word.now }
{
    let mut residue = 0;
    for &letter in word {
        residue = sum(map, residue, added(map, letter));
    }
    residue
}

/// The sum of two numbers, modulo the modulus.
fn sum(map: &Residues, left: u32, right: u32) -> u32
    ensures { result ≡ (left + right) % map.now.modulus }
{
    ((u64::from(left) + u64::from(right)) % u64::from(map.modulus())) as u32
}

/// What a letter adds.
fn added(map: &Residues, letter: Letter) -> u32
    requires { IsLetterOf (length map.now.residues) letter }
    ensures { result ≡ added_by_letter map.now letter }
{
    let residue = map.images()[letter.generator as usize - 1];
    if letter.inverse {
        map.modulus() - residue
    } else {
        residue
    }
}
