//! How far the image lists of an action are read to see that it refutes no goal, so that no action with the same
//! first images does.
ghost use Rattle.std.specs.Prelude.{◌≡◌, ◌≢◌, ℕ, ◌*◌, ◌≤◌, ◌<◌, None, Some, length, slice_index};
ghost use Rattle.mg_words.specs.Word.{IsOver};
ghost use Rattle.mg_numbers.specs.Perms.{PermTuple};
ghost use Rattle.mg_action.specs.Permutation.{identity};
ghost use Rattle.mg_action.specs.declared.depths.Reading.{Reading};
ghost use Rattle.mg_action.specs.Action.{perm_of_word, Refutes};
ghost use Rattle.mg_action.specs.Walk.{Begins, NoneBegin, letter_depth};

use crate::action::Action;
use mg_present::Ask;
use mg_words::Letter;

// Where a word takes a point, and how many images are read at most to see it.
#[derive(Clone, Copy, Debug)]
struct Reading {
    image: u32,
    depth: usize,
}

/// How many first images of the action tell that no goal is refuted: no action of its degree that has the same
/// refutes one.
pub(crate) fn refused_depth(ask: &Ask, action: &Action) -> usize
    requires count { length action.now.images ≡ ask.now.group.generators }
    requires some { 1 ≤ ask.now.group.generators }
    requires refused { (k : ℕ) → Refutes ask.now k action.now → ⊥ }
    ensures some { 1 ≤ result }
    ensures whole { result ≤ length action.now.images * action.now.degree }
    ensures none { NoneBegin ask.now action.now result }
{
    let _points = action.degree();
    let whole = action.images().len();
    let by_relators = relators_depth(ask, action, whole);
    let by_subgroup = subgroup_depth(ask, action, by_relators);
    goals_depth(ask, action, by_subgroup)
}

// The same by the relators: one that is read to move a point.
fn relators_depth(ask: &Ask, action: &Action, most: usize) -> usize
    requires count { length action.now.images ≡ ask.now.group.generators }
    requires some { 1 ≤ most }
    requires none { NoneBegin ask.now action.now most }
    ensures some { 1 ≤ result }
    ensures most { result ≤ most }
    ensures none { NoneBegin ask.now action.now result }
{
    let relators = ask.group().relators();
    let mut depth = most;
    for place in 0..relators.len() {
        depth = moved_depth(relators.at(place).letters(), action, depth);
    }
    depth
}

// The same by the subgroup words: one that is read to move the point 0.
fn subgroup_depth(ask: &Ask, action: &Action, most: usize) -> usize
    requires count { length action.now.images ≡ ask.now.group.generators }
    requires some { 1 ≤ most }
    requires none { NoneBegin ask.now action.now most }
    ensures some { 1 ≤ result }
    ensures most { result ≤ most }
    ensures none { NoneBegin ask.now action.now result }
{
    let words = ask.subgroup();
    let _points = action.degree();
    let mut depth = most;
    for place in 0..words.len() {
        depth = depth_at(words.at(place).letters(), action, 0, depth);
    }
    depth
}

// The same by the goals: all are read to fix the point 0.
fn goals_depth(ask: &Ask, action: &Action, most: usize) -> usize
    requires count { length action.now.images ≡ ask.now.group.generators }
    requires some { 1 ≤ most }
    requires none { NoneBegin ask.now action.now most }
    ensures some { 1 ≤ result }
    ensures most { result ≤ most }
    ensures none { NoneBegin ask.now action.now result }
{
    let goals = ask.goals();
    let _points = action.degree();
    let mut depth: usize = 1;
    for place in 0..goals.len() {
        let Some(reading) = read(goals.at(place).letters(), action, 0, most) else {
            return most;
        };
        if reading.image != 0 {
            return most;
        }
        depth = depth.max(reading.depth);
    }
    depth
}

// The least number of first images, below `most`, by which a word is read to move a point; else `most`.
fn moved_depth(word: &[Letter], action: &Action, most: usize) -> usize
    requires over { IsOver (length action.now.images) word.now }
    requires some { 1 ≤ most }
    ensures some { 1 ≤ result }
    ensures most { result ≤ most }
    ensures moved { result ≢ most → (t : PermTuple) → Begins action.now result t →
        perm_of_word t word.now ≢ identity t.degree }
{
    let mut depth = most;
    for point in 0..action.degree() {
        depth = depth_at(word, action, point, depth);
    }
    depth
}

// How many first images are read, if fewer than `most`, to see that a word moves a point; else `most`.
fn depth_at(word: &[Letter], action: &Action, point: u32, most: usize) -> usize
    requires over { IsOver (length action.now.images) word.now }
    requires point { point < action.now.degree }
    requires some { 1 ≤ most }
    ensures some { 1 ≤ result }
    ensures most { result ≤ most }
    ensures moved { result ≢ most → (t : PermTuple) → Begins action.now result t →
        slice_index (perm_of_word t word.now) point ≢ point }
{
    let Some(reading) = read(word, action, point, most) else {
        return most;
    };
    if reading.image == point {
        return most;
    }
    reading.depth
}

// Reads a word from a point, unless `most` images are read for it.
fn read(word: &[Letter], action: &Action, point: u32, most: usize) -> Option<Reading>
    requires over { IsOver (length action.now.images) word.now }
    requires point { point < action.now.degree }
    ensures some { (r : Reading) → result ≡ Some r → 1 ≤ r.depth }
    ensures most { (r : Reading) → result ≡ Some r → r.depth < most }
    ensures image { (r : Reading) → result ≡ Some r →
        (t : PermTuple) → Begins action.now r.depth t →
        slice_index (perm_of_word t word.now) point ≡ r.image }
{
    let mut image = point;
    let mut depth = 1;
    for place in 0..word.len() {
        if depth >= most {
            return None;
        }
        let letter = word[place];
        let next = action.letter_image(letter, image);
        depth = depth.max(depth_of(letter, action.degree(), image, next));
        image = next;
    }
    if depth >= most {
        return None;
    }
    Some(Reading { image, depth })
}

// How many first images there are up to the one that tells where a letter takes a point.
fn depth_of(letter: Letter, degree: u32, point: u32, image: u32) -> usize
    ensures { result ≡ letter_depth degree letter point image }
{
    let place = if letter.inverse { image } else { point };
    (letter.generator as usize - 1) * degree as usize + place as usize + 1
}
