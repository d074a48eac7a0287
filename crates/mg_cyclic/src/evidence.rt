//! Whether residues are a map of a group, and what a map refutes.
ghost use Rattle.std.specs.Prelude.{◌≡◌, ◌↔◌, ℕ, IfSome, IfNone, IsTrue, length};
ghost use Rattle.std.specs.List.{AllByRecursion};
ghost use Rattle.mg_words.specs.Word.{IsOver, letters_of};
ghost use Rattle.mg_cyclic.specs.Map.{residue_of_word, IsMap, Refutes, RefutesNoneBefore};

use crate::residues::Residues;
use mg_present::{Ask, Presentation};
use mg_words::Word;

/// Whether the residues are a map of the group: there are as many as generators, and every relator sums to 0.
/// It takes no memory.
pub fn is_map(group: &Presentation, map: &Residues) -> bool
    ensures { IsTrue result ↔ IsMap group.now map.now }
{
    map.images().len() == group.generators() as usize
        && all_vanish(group.relators().as_slice(), map)
}

/// Whether the map refutes the goal at a place, from 0: it is a map of the group at which every subgroup word
/// sums to 0 and the goal doesn't. It takes no memory.
pub fn refutes(ask: &Ask, goal: u32, map: &Residues) -> bool
    ensures { IsTrue result ↔ Refutes ask.now goal map.now }
{
    let goals = ask.goals();
    let place = goal as usize;
    if place >= goals.len() || !is_map(ask.group(), map) {
        return false;
    }
    all_vanish(ask.subgroup().as_slice(), map) && map.residue(goals.at(place).letters()) != 0
}

// The least goal, from 0, that the map refutes. It takes no memory.
pub(crate) fn first_refuted(ask: &Ask, map: &Residues) -> Option<u32>
    ensures some { IfSome result (λ goal. Refutes ask.now goal map.now) }
    ensures least { IfSome result (λ goal. RefutesNoneBefore ask.now goal map.now) }
    ensures none { IfNone result ((goal : ℕ) → Refutes ask.now goal map.now → ⊥) }
{
    for goal in 0..ask.goals().len() as u32 {
        if refutes(ask, goal, map) {
            return Some(goal);
        }
    }
    None
}

// Whether every word sums to 0.
fn all_vanish(words: &[Word], map: &Residues) -> bool
    requires { AllByRecursion (IsOver (length map.now.residues)) (letters_of words.now) }
    ensures { IsTrue result ↔
        AllByRecursion (λ w. residue_of_word map.now w ≡ 0) (letters_of words.now) }
{
    for word in words {
        if map.residue(word.letters()) != 0 {
            return false;
        }
    }
    true
}
