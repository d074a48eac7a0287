//! Whether permutations are an action of a group, and what an action refutes.
ghost use Rattle.std.specs.Prelude.{◌≡◌, ◌↔◌, ℕ, ◌<◌, ◌≤◌, IsTrue, None, Some, [], false, length};
ghost use Rattle.std.specs.List.{AllByRecursion};
ghost use Rattle.mg_words.specs.Word.{IsOver, letters_of};
ghost use Rattle.mg_action.specs.Permutation.{identity};
ghost use Rattle.mg_action.specs.Action.{perm_of_word, image_of_zero, IsAction, Refutes};

use crate::action::Action;
use mg_present::{Ask, Presentation};
use mg_words::{Letter, Word};

/// Whether the permutations are an action of the group: there are as many as generators, and every relator
/// fixes every point. It takes no memory.
pub fn is_action(group: &Presentation, action: &Action) -> bool
    ensures { IsTrue result ↔ IsAction group.now action.now }
{
    action.generators() == group.generators() as usize
        && all_fix_each_point(group.relators().as_slice(), action)
}

/// Whether the action refutes the goal at a place, from 0: it is an action of the group in which every
/// subgroup word fixes the point 0 and the goal moves it. It takes no memory.
pub fn refutes(ask: &Ask, goal: u32, action: &Action) -> bool
    ensures { IsTrue result ↔ Refutes ask.now goal action.now }
{
    let goals = ask.goals();
    let place = goal as usize;
    if place >= goals.len() || !may_refute(ask, action) {
        return false;
    }
    action.image(goals.at(place).letters(), 0) != 0
}

/// The place, from 0, of the first goal that the action refutes, if it refutes one. It takes no memory.
pub(crate) fn first_refuted(ask: &Ask, action: &Action) -> Option<u32>
    ensures none { result ≡ None → (k : ℕ) → Refutes ask.now k action.now → ⊥ }
    ensures refutes { (goal : ℕ) → result ≡ Some goal → Refutes ask.now goal action.now }
    ensures least { (goal : ℕ) → result ≡ Some goal →
        (k : ℕ) → k < goal → Refutes ask.now k action.now → ⊥ }
{
    let goals = ask.goals();
    if !may_refute(ask, action) {
        return None;
    }
    for place in 0..goals.len() {
        if action.image(goals.at(place).letters(), 0) != 0 {
            return Some(place as u32);
        }
    }
    None
}

/// Whether one of the words has a letter.
pub(crate) fn has_letters(words: &[Word]) -> bool
    ensures { result ≡ false → AllByRecursion (λ w. w ≡ []) (letters_of words.now) }
{
    for word in words {
        if !word.letters().is_empty() {
            return true;
        }
    }
    false
}

// Whether it is an action of the group in which every subgroup word fixes the point 0.
fn may_refute(ask: &Ask, action: &Action) -> bool
    ensures { IsTrue result ↔ (IsAction ask.now.group action.now ×
        AllByRecursion (λ w. image_of_zero action.now w ≡ 0) ask.now.subgroup) }
{
    is_action(ask.group(), action) && all_fix_zero(ask.subgroup().as_slice(), action)
}

// Whether every word fixes every point.
fn all_fix_each_point(words: &[Word], action: &Action) -> bool
    requires { AllByRecursion (IsOver (length action.now.images)) (letters_of words.now) }
    ensures { IsTrue result ↔
        AllByRecursion (λ w. perm_of_word action.now w ≡ identity action.now.degree)
        (letters_of words.now) }
{
    for word in words {
        if !fixes_each_point(word.letters(), action) {
            return false;
        }
    }
    true
}

// Whether the word fixes every point.
fn fixes_each_point(word: &[Letter], action: &Action) -> bool
    requires { IsOver (length action.now.images) word.now }
    ensures { IsTrue result ↔ (perm_of_word action.now word.now ≡ identity action.now.degree) }
{
    for point in 0..action.degree() {
        if action.image(word, point) != point {
            return false;
        }
    }
    true
}

// Whether every word fixes the point 0.
fn all_fix_zero(words: &[Word], action: &Action) -> bool
    requires points { 1 ≤ action.now.degree }
    requires over { AllByRecursion (IsOver (length action.now.images)) (letters_of words.now) }
    ensures { IsTrue result ↔
        AllByRecursion (λ w. image_of_zero action.now w ≡ 0) (letters_of words.now) }
{
    for word in words {
        if action.image(word.letters(), 0) != 0 {
            return false;
        }
    }
    true
}
