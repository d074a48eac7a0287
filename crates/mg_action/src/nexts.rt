//! The next permutations in the order, in place.
ghost use Rattle.std.specs.Prelude.{◌≡◌, ℕ, ◌-◌, ◌*◌, ◌<◌, ◌≤◌, ◌^◌, length, true, false};
ghost use Rattle.mg_numbers.specs.Perms.{IsPerm, factorial};
ghost use Rattle.mg_action.specs.Next.{IsPlaced, IsLeastGreater, AreImagesAt, AreInverses, behind};
ghost use Rattle.mg_action.specs.Permutation.{inverse_of};
ghost use Rattle.mg_action.specs.Walk.{stretch};

use crate::lists::put_inverse;

// Puts the first tuple behind all whose lists, one after another, have the same first images, and tells whether
// there is one; else identities. The inverses of the lists that change are put with them.
pub(crate) fn put_next_lists(
    degree: u32,
    count: usize,
    lists: &mut [u32],
    inverses: &mut [u32],
    depth: usize,
) -> bool
    requires points { 1 ≤ degree }
    requires lists { (place : ℕ) × AreImagesAt degree count place lists.old }
    requires inverses { AreInverses degree count lists.old inverses.old }
    requires some { 1 ≤ depth }
    requires whole { depth ≤ count * degree }
    ensures next { result ≡ true → (place : ℕ) → AreImagesAt degree count place lists.old →
        AreImagesAt degree count (behind (stretch degree count depth) place) lists.new }
    ensures none { result ≡ false → (place : ℕ) → AreImagesAt degree count place lists.old →
        behind (stretch degree count depth) place ≡ factorial degree ^ count }
    ensures first { result ≡ false → AreImagesAt degree count 0 lists.new }
    ensures inverses { AreInverses degree count lists.new inverses.new }
{
    let (head, tail) = lists.split_at_mut(degree as usize);
    let (back, back_tail) = inverses.split_at_mut(degree as usize);
    if depth > degree as usize {
        if put_next_lists(degree, count - 1, tail, back_tail, depth - degree as usize) {
            return true;
        }
        return put_next_with(head, back, degree as usize);
    }
    put_firsts(degree, count - 1, tail, back_tail);
    put_next_with(head, back, depth)
}

// Puts identities.
fn put_firsts(degree: u32, count: usize, lists: &mut [u32], inverses: &mut [u32])
    requires points { 1 ≤ degree }
    requires lists { (place : ℕ) × AreImagesAt degree count place lists.old }
    requires inverses { AreInverses degree count lists.old inverses.old }
    ensures lists { AreImagesAt degree count 0 lists.new }
    ensures inverses { AreInverses degree count lists.new inverses.new }
{
    if count > 0 {
        let (head, tail) = lists.split_at_mut(degree as usize);
        let (back, back_tail) = inverses.split_at_mut(degree as usize);
        put_first_with(head, back);
        put_firsts(degree, count - 1, tail, back_tail);
    }
}

// Puts the identity, and its inverse.
fn put_first_with(list: &mut [u32], inverse: &mut [u32])
    requires list { IsPerm (length list.old) list.old }
    requires fits { length inverse.old ≡ length list.old }
    requires points { length list.old < 2 ^ 32 }
    ensures first { IsPlaced (length list.old) 0 list.new }
    ensures inverse { inverse.new ≡ inverse_of list.new }
{
    list.sort_unstable();
    put_inverse(list, inverse);
}

// Puts the next permutation, and its inverse.
fn put_next_with(perm: &mut [u32], inverse: &mut [u32], images: usize) -> bool
    requires perm { IsPerm (length perm.old) perm.old }
    requires fits { length inverse.old ≡ length perm.old }
    requires points { length perm.old < 2 ^ 32 }
    requires images { images ≤ length perm.old }
    ensures perm { IsPerm (length perm.old) perm.new }
    ensures next { result ≡ true → (place : ℕ) → IsPlaced (length perm.old) place perm.old →
        IsPlaced (length perm.old) (behind (factorial (length perm.old - images)) place) perm.new }
    ensures none { result ≡ false → (place : ℕ) → IsPlaced (length perm.old) place perm.old →
        behind (factorial (length perm.old - images)) place ≡ factorial (length perm.old) }
    ensures first { result ≡ false → IsPlaced (length perm.old) 0 perm.new }
    ensures inverse { inverse.new ≡ inverse_of perm.new }
{
    let is_there = put_next(perm, images);
    put_inverse(perm, inverse);
    is_there
}

// Puts the first permutation behind all with the same first images, and tells whether there is one; else the
// identity.
fn put_next(perm: &mut [u32], images: usize) -> bool
    requires perm { IsPerm (length perm.old) perm.old }
    requires images { images ≤ length perm.old }
    ensures perm { IsPerm (length perm.old) perm.new }
    ensures next { result ≡ true → (place : ℕ) → IsPlaced (length perm.old) place perm.old →
        IsPlaced (length perm.old) (behind (factorial (length perm.old - images)) place) perm.new }
    ensures none { result ≡ false → (place : ℕ) → IsPlaced (length perm.old) place perm.old →
        behind (factorial (length perm.old - images)) place ≡ factorial (length perm.old) }
    ensures first { result ≡ false → IsPlaced (length perm.old) 0 perm.new }
{
    let mut place = images;
    while place > 0 {
        place -= 1;
        if put_next_at(perm, place) {
            return true;
        }
    }
    perm.sort_unstable();
    false
}

// Puts the first permutation behind all with the same images up to a place, where one has the same images before
// it.
fn put_next_at(perm: &mut [u32], place: usize) -> bool
    requires perm { IsPerm (length perm.old) perm.old }
    requires place { place < length perm.old }
    ensures perm { IsPerm (length perm.old) perm.new }
    ensures next { result ≡ true → (n : ℕ) → IsPlaced (length perm.old) n perm.old →
        IsPlaced (length perm.old) (behind (factorial (length perm.old - place - 1)) n) perm.new }
    ensures none { result ≡ false → (n : ℕ) → IsPlaced (length perm.old) n perm.old →
        behind (factorial (length perm.old - place - 1)) n ≡
        behind (factorial (length perm.old - place)) n }
    ensures stays { result ≡ false → perm.new ≡ perm.old }
{
    let least = least_greater(perm, place);
    if least == place {
        return false;
    }
    perm.swap(place, least);
    perm[place + 1..].sort_unstable();
    true
}

// The place of the least of the numbers behind a place that are greater than that there; else the place.
fn least_greater(list: &[u32], place: usize) -> usize
    requires { place < length list.now }
    ensures { IsLeastGreater list.now place (length list.now) result }
{
    let mut least = place;
    for other in place + 1..list.len() {
        if list[other] > list[place] && (least == place || list[other] < list[least]) {
            least = other;
        }
    }
    least
}
