//! Lists of permutations, one after another.
ghost use Rattle.std.specs.Prelude.{◌≡◌, ◌↔◌, ◌++◌, ◌+◌, ◌*◌, ◌%◌, ◌<◌, ◌≤◌, ◌^◌, ℕ, IsTrue, List, [], IfOk, All, length, map, replicate, vec_capacity};
ghost use Rattle.std.specs.List.{AllZip, concat};
ghost use Rattle.mg_numbers.specs.Blocks.{Earlier, IsNth};
ghost use Rattle.mg_numbers.specs.Perms.{IsPerm, factorial};
ghost use Rattle.mg_action.specs.Permutation.{inverse_of};
ghost use Rattle.mg_action.specs.Layout.{AreImages, PlacesUpTo};

use mg_numbers::{MOST_DEGREE, perm_of};
use mg_words::NoMemory;
use std::alloc::{AllocError, Global};

/// Whether these are the image lists of some permutations of so many points, one after another.
pub fn are_images(alloc: Global, degree: u32, images: &[u32]) -> Result<bool, NoMemory>
    requires { 1 ≤ degree }
    ensures { IfOk result (λ whole. IsTrue whole ↔ ((perms : List (List ℕ)) ×
        AreImages degree perms images.now)) }
{
    if images.len() % degree as usize != 0 {
        return Ok(false);
    }
    let mut places = vec![in alloc; 0; degree as usize]?;
    Ok(are_perms(degree, images, &mut places))
}

// Whether the lists of this length, of which there is a whole number, are image lists of permutations.
fn are_perms(degree: u32, images: &[u32], places: &mut [u32]) -> bool
    requires points { 1 ≤ degree }
    requires whole { length images.now % degree ≡ 0 }
    requires fits { length places.old ≡ degree }
    ensures { IsTrue result ↔ ((perms : List (List ℕ)) × AreImages degree perms images.now) }
{
    for perm in images.chunks_exact(degree as usize) {
        if !is_perm(perm, places) {
            return false;
        }
    }
    true
}

// An empty list with room for this many images, and for as many permutations of the largest degree.
pub(crate) fn with_room(alloc: Global, perms: usize, images: usize) -> Result<Vec<u32>, NoMemory>
    ensures empty { IfOk result (λ list. list.items ≡ []) }
    ensures images { IfOk result (λ list. images ≤ vec_capacity list) }
    ensures perms { IfOk result (λ list. perms * MOST_DEGREE ≤ vec_capacity list) }
{
    let Some(most) = perms.checked_mul(MOST_DEGREE as usize) else {
        return Err(AllocError);
    };
    Vec::with_capacity(alloc, images.max(most))
}

// Puts the permutations at these places among those of the degree, one after another.
pub(crate) fn put_perms(degree: u32, places: &[u64], list: &mut Vec<u32>)
    requires places { All (λ x. x < factorial degree) places.now }
    requires room { length places.now * degree ≤ vec_capacity list.old }
    ensures perms { (perms : List (List ℕ)) × (concat perms ≡ list.new.items) ×
        AllZip (λ place perm. IsNth (IsPerm degree) Earlier (place + 1) perm) places.now perms }
    ensures capacity { vec_capacity list.old ≤ vec_capacity list.new }
{
    list.clear();
    for &place in places {
        push_perm(place, degree, list);
    }
}

// Puts the inverses of the permutations that stand one after another.
pub(crate) fn put_inverses(degree: u32, perms: &[u32], list: &mut Vec<u32>)
    requires points { 1 ≤ degree }
    requires perms { (each : List (List ℕ)) × AreImages degree each perms.now }
    requires room { length perms.now ≤ vec_capacity list.old }
    ensures inverses { (each : List (List ℕ)) → AreImages degree each perms.now →
        list.new.items ≡ concat (map inverse_of each) }
    ensures capacity { vec_capacity list.old ≤ vec_capacity list.new }
{
    list.clear();
    for perm in perms.chunks_exact(degree as usize) {
        push_inverse(perm, list);
    }
}

// Appends the permutation at a place among those of the degree.
fn push_perm(place: u64, degree: u32, list: &mut Vec<u32>)
    requires there { place < factorial degree }
    requires room { length list.old.items + degree ≤ vec_capacity list.old }
    ensures perm { (perm : List ℕ) × (list.new.items ≡ list.old.items ++ perm) ×
        IsNth (IsPerm degree) Earlier (place + 1) perm }
    ensures capacity { vec_capacity list.old ≤ vec_capacity list.new }
{
    let start = list.len();
    push_zeros(degree as usize, list);
    perm_of(place, degree, &mut list[start..]);
}

// Appends the inverse of a permutation.
fn push_inverse(perm: &[u32], list: &mut Vec<u32>)
    requires perm { IsPerm (length perm.now) perm.now }
    requires points { length perm.now < 2 ^ 32 }
    requires room { length list.old.items + length perm.now ≤ vec_capacity list.old }
    ensures inverse { list.new.items ≡ list.old.items ++ inverse_of perm.now }
    ensures capacity { vec_capacity list.old ≤ vec_capacity list.new }
{
    let start = list.len();
    push_zeros(perm.len(), list);
    put_inverse(perm, &mut list[start..]);
}

// Puts the inverse of a permutation.
pub(crate) fn put_inverse(perm: &[u32], out: &mut [u32])
    requires perm { IsPerm (length perm.now) perm.now }
    requires fits { length out.old ≡ length perm.now }
    requires points { length perm.now < 2 ^ 32 }
    ensures { out.new ≡ inverse_of perm.now }
{
    put_places(perm, out);
}

// Puts for each number of the list a place at which it stands.
fn put_places(list: &[u32], out: &mut [u32])
    requires below { All (λ x. x < length list.now) list.now }
    requires fits { length out.old ≡ length list.now }
    requires points { length list.now < 2 ^ 32 }
    ensures { PlacesUpTo (length list.now) list.now out.new }
{
    for place in 0..list.len() {
        out[list[place] as usize] = place as u32;
    }
}

// Whether the list is the image list of a permutation; `places` is room to find out.
fn is_perm(list: &[u32], places: &mut [u32]) -> bool
    requires fits { length places.old ≡ length list.now }
    requires points { length list.now < 2 ^ 32 }
    ensures { IsTrue result ↔ IsPerm (length list.now) list.now }
{
    let count = list.len();
    if !list.iter().all(|x| (*x as usize) < count) {
        return false;
    }
    put_places(list, places);
    for place in 0..count {
        if places[list[place] as usize] as usize != place {
            return false;
        }
    }
    true
}

// Appends so many zeros, for which there is room.
fn push_zeros(count: usize, list: &mut Vec<u32>)
    requires { length list.old.items + count ≤ vec_capacity list.old }
    ensures items { list.new.items ≡ list.old.items ++ replicate count 0 }
    ensures capacity { vec_capacity list.old ≤ vec_capacity list.new }
{
    match list.resize(list.len() + count, 0) {
        Ok(()) => {}
        Err(_) => unreachable!(),
    }
}
