//! Actions as values.
ghost use Rattle.std.specs.Prelude.{◌≡◌, ℕ, List, ◌∷◌, [], ◌*◌, ◌≤◌, ◌<◌, IfOk, true, length, replicate, slice_index};
ghost use Rattle.mg_words.specs.Letter.{IsLetterOf};
ghost use Rattle.mg_words.specs.Word.{IsOver};
ghost use Rattle.mg_numbers.specs.Perms.{IsPermTuple};
ghost use Rattle.mg_action.specs.Action.{perm_of_letter, perm_of_word};
ghost use Rattle.mg_action.specs.Number.{IsNumbered};
ghost use Rattle.mg_action.specs.Layout.{AreImages};
ghost use Rattle.mg_action.specs.Walk.{IsBehind};

use crate::lists::{put_inverses, put_perms, with_room};
use crate::nexts::put_next_lists;
use mg_numbers::{MOST_NUMBER, action_block, perm_places};
use mg_present::MOST_GENERATORS;
use mg_words::{Letter, NoMemory};
use std::alloc::Global;
use std::marker::Model;

/// A permutation of the points from 0 below a degree for each generator, seen as the degree and the image
/// lists. There is room for as many permutations of each degree that a number up to 2^62 has.
#[derive(Debug, Drop)]
pub struct Action {
    degree: u32,
    generators: usize,
    images: Vec<u32>,
    inverses: Vec<u32>,
}

impl Model for Action {
    ghost use Rattle.std.specs.Prelude.{vec_capacity};
    ghost use Rattle.std.specs.Simd.{first_chunks};
    ghost use Rattle.mg_numbers.specs.Perms.{PermTuple};
    ghost use Rattle.mg_action.specs.Layout.{IsKept};

    ghost Value = { PermTuple };

    ghost view = { λ a. record { degree = a.degree; images = first_chunks a.degree a.generators a.images.items } };

    ghost invariant = { λ a. IsKept (record { degree = a.degree; images = first_chunks a.degree a.generators a.images.items })
        a.generators a.images.items a.inverses.items (vec_capacity a.images)
        (vec_capacity a.inverses) };
}

impl Action {
    /// The action with these image lists, which stand one after another.
    pub fn from_images(alloc: Global, degree: u32, images: &[u32]) -> Result<Action, NoMemory>
        requires points { 1 ≤ degree }
        requires perms { (perms : List (List ℕ)) × AreImages degree perms images.now }
        ensures { (perms : List (List ℕ)) → AreImages degree perms images.now →
            IfOk result (λ action. action ≡ record { degree = degree; images = perms }) }
    {
        let generators = images.len() / degree as usize;
        let mut own = with_room(alloc, generators, images.len())?;
        own.extend_from_slice(images)?;
        let mut inverses = with_room(alloc, generators, images.len())?;
        put_inverses(degree, images, &mut inverses);
        Ok(Action {
            degree,
            generators,
            images: own,
            inverses,
        })
    }

    /// The action of so many generators on one point, which has number 1.
    pub fn of_one_point(alloc: Global, generators: u32) -> Result<Action, NoMemory>
        requires { generators ≤ MOST_GENERATORS }
        ensures { IfOk result (λ action. action ≡
            record { degree = 1; images = replicate generators (0 ∷ []) }) }
    {
        let points = [0; MOST_GENERATORS as usize];
        Action::from_images(alloc, 1, &points[..generators as usize])
    }

    /// How many points there are.
    pub fn degree(&self) -> u32
        ensures value { result ≡ self.now.degree }
        ensures perms { IsPermTuple (length self.now.images) self.now }
    {
        self.degree
    }

    /// How many permutations there are.
    pub fn generators(&self) -> usize
        ensures value { result ≡ length self.now.images }
        ensures perms { IsPermTuple (length self.now.images) self.now }
    {
        self.generators
    }

    /// Lends the image lists, one after another.
    pub fn images(&self) -> &[u32]
        ensures { AreImages self.now.degree self.now.images result.now }
    {
        self.images.as_slice()
    }

    /// The same action.
    pub fn copy(&self, alloc: Global) -> Result<Action, NoMemory>
        ensures { IfOk result (λ action. action ≡ self.now) }
    {
        Action::from_images(alloc, self.degree(), self.images())
    }

    /// Puts the action of as many generators that has this number. It takes no memory.
    pub fn put_number(&mut self, number: u64)
        requires from_one { 1 ≤ number }
        requires up_to { number ≤ MOST_NUMBER }
        requires some { 1 ≤ length self.old.images }
        requires few { length self.old.images ≤ MOST_GENERATORS }
        ensures { IsNumbered (length self.old.images) self.new number }
    {
        let block = action_block(number, self.generators as u32);
        let mut space = [0; MOST_GENERATORS as usize];
        let places = &mut space[..self.generators];
        perm_places(block.index, block.size, places);
        self.degree = block.size;
        put_perms(block.size, places, &mut self.images);
        put_inverses(block.size, &self.images, &mut self.inverses);
    }

    // Puts the first action of the same degree behind all those that have the same first images, and tells whether
    // there is one; else all permutations are the identity.
    pub(crate) fn put_next(&mut self, depth: usize) -> bool
        requires some { 1 ≤ depth }
        requires whole { depth ≤ length self.old.images * self.old.degree }
        ensures count { length self.new.images ≡ length self.old.images }
        ensures next { result ≡ true → (number : ℕ) → (after : ℕ) →
            IsNumbered (length self.old.images) self.old number →
            IsBehind self.old.degree (length self.old.images) depth number after →
            IsNumbered (length self.old.images) self.new after }
    {
        put_next_lists(
            self.degree,
            self.generators,
            self.images.as_mut_slice(),
            self.inverses.as_mut_slice(),
            depth,
        )
    }

    // Where the letters of a word take a point, one after another.
    #[tactic(auto, using(crate::proofs::Words::image_step, crate::proofs::Words::image_end))]
    pub(crate) fn image(&self, word: &[Letter], point: u32) -> u32
        requires over { IsOver (length self.now.images) word.now }
        requires point { point < self.now.degree }
        ensures { result ≡ slice_index (perm_of_word self.now word.now) point }
    {
        let mut image = point;
        for place in 0..word.len() {
            image = self.letter_image(word[place], image);
        }
        image
    }

    // Where a letter takes a point.
    pub(crate) fn letter_image(&self, letter: Letter, point: u32) -> u32
        requires letter { IsLetterOf (length self.now.images) letter }
        requires point { point < self.now.degree }
        ensures image { result ≡ slice_index (perm_of_letter self.now letter) point }
        ensures below { result < self.now.degree }
        ensures perms { IsPermTuple (length self.now.images) self.now }
    {
        let place = (letter.generator as usize - 1) * self.degree as usize + point as usize;
        if letter.inverse {
            self.inverses[place]
        } else {
            self.images[place]
        }
    }
}
