ghost use Rattle.std.specs.Prelude.{◌≡◌, ℕ, ◌+◌, ◌^◌, ◌≤◌, ◌<◌, List, length, All, map, nat_lt, if◌then◌else◌, ◌↔◌};
ghost use Rattle.std.specs.List.{AllZip};
ghost use Rattle.mg_numbers.specs.Blocks.{Earlier, IsNth, number_in};
ghost use Rattle.mg_numbers.specs.Perms.{IsPerm, PermTuple, PermTupleBefore, IsPermTuple, IsPermTupleAt, factorial, perm_tuples_below};
ghost use Rattle.mg_numbers.specs.Residues.{ResidueTuple, ResidueTupleBefore, IsResidueTuple, IsResidueTupleAt, residue_tuples_below};

/// The largest number of a tuple that is looked for: 2^62.
pub const MOST_NUMBER: u64 = 4_611_686_018_427_387_904;

/// The largest degree of a tuple of permutations with a number up to `MOST_NUMBER`.
pub const MOST_DEGREE: u32 = 21;

/// A block of a numbering, which holds the tuples of one size, and a place in it.
#[derive(Clone, Copy, Debug, PartialEq, Eq)]
pub struct Block {
    /// The degree of the permutations, or the modulus of the residues.
    pub size: u32,
    /// The place in the block, from 0.
    pub index: u64,
}

/// The degree of the tuple of permutations with this number, and its place among the tuples of
/// that degree.
pub fn action_block(number: u64, generators: u32) -> Block
    requires from_one { 1 ≤ number }
    requires up_to { number ≤ MOST_NUMBER }
    requires some { 1 ≤ generators }
    ensures points { 1 ≤ result.size }
    ensures small { result.size ≤ MOST_DEGREE }
    ensures within { result.index < factorial result.size ^ generators }
    ensures place { perm_tuples_below generators result.size + result.index + 1 ≡ number }
{
    let mut size = 1;
    let mut index = number - 1;
    let mut perms: u64 = 1;
    loop {
        let tuples = perms.saturating_pow(generators);
        if index < tuples {
            return Block { size, index };
        }
        index -= tuples;
        size += 1;
        perms = perms.saturating_mul(u64::from(size));
    }
}

/// The modulus of the tuple of residues with this number, and its place among the tuples of that
/// modulus.
pub fn residue_block(number: u64, generators: u32) -> Block
    requires from_one { 1 ≤ number }
    requires up_to { number ≤ MOST_NUMBER }
    requires some { 1 ≤ generators }
    ensures proper { 2 ≤ result.size }
    ensures within { result.index < result.size ^ generators }
    ensures place { residue_tuples_below generators result.size + result.index + 1 ≡ number }
{
    let mut size: u32 = 2;
    let mut index = number - 1;
    loop {
        let tuples = u64::from(size).saturating_pow(generators);
        if index < tuples {
            return Block { size, index };
        }
        index -= tuples;
        size += 1;
    }
}

/// Puts the image list before which `index` image lists of this degree come in lexicographic
/// order.
pub fn perm_of(index: u64, degree: u32, out: &mut [u32])
    requires there { index < factorial degree }
    requires fits { length out.old ≡ degree }
    ensures { IsNth (IsPerm degree) Earlier (index + 1) out.new }
{
    let mut rest = index;
    let mut start = out.len();
    while start > 0 {
        start -= 1;
        let points = (degree as usize - start) as u64;
        let image = (rest % points) as u32;
        rest /= points;
        out[start] = image;
        make_room(&mut out[start + 1..], image);
    }
}

/// Raises by one each image that isn't below this one.
fn make_room(images: &mut [u32], image: u32)
    requires { All (λ x. x + 1 < 2 ^ 32) images.old }
    ensures { images.new ≡ map (λ x. if nat_lt x image then x else x + 1) images.old }
{
    for x in images.iter_mut() {
        if *x >= image {
            *x += 1;
        }
    }
}

/// Puts the digits of `index` in the base `modulus`, the first most significant.
pub fn residues_of(index: u64, modulus: u32, out: &mut [u32])
    requires proper { 2 ≤ modulus }
    requires there { index < modulus ^ length out.old }
    ensures digits { number_in modulus out.new ≡ index }
    ensures below { All (λ x. x < modulus) out.new }
{
    let base = u64::from(modulus);
    let mut rest = index;
    let mut place = out.len();
    while place > 0 {
        place -= 1;
        out[place] = (rest % base) as u32;
        rest /= base;
    }
}

/// Puts the digits of `index` in the base of the factorial of `degree`, the first most
/// significant. Each is the place of a permutation among those of this degree.
pub fn perm_places(index: u64, degree: u32, out: &mut [u64])
    requires small { degree ≤ MOST_DEGREE }
    requires there { index < factorial degree ^ length out.old }
    ensures digits { number_in (factorial degree) out.new ≡ index }
    ensures below { All (λ x. x < factorial degree) out.new }
{
    let perms = perm_count(degree);
    let mut rest = u128::from(index);
    let mut place = out.len();
    while place > 0 {
        place -= 1;
        out[place] = (rest % perms) as u64;
        rest /= perms;
    }
}

/// How many permutations of so many points there are.
fn perm_count(degree: u32) -> u128
    requires { degree ≤ MOST_DEGREE }
    ensures { result ≡ factorial degree }
{
    let mut count = 1;
    for points in 0..degree {
        count *= u128::from(points) + 1;
    }
    count
}

/// Each number from 1 belongs to one tuple of permutations, and each tuple has one number. The
/// block of a number, the digits of its place there and the permutations at these places give the
/// tuple.
pub fn permutations_are_numbered()
    ensures each_number { (m n : ℕ) → 1 ≤ n → (t : PermTuple) × IsPermTupleAt m n t }
    ensures one_tuple { (m n : ℕ) (t u : PermTuple) →
        IsPermTupleAt m n t → IsPermTupleAt m n u → t ≡ u }
    ensures each_tuple { (m : ℕ) (t : PermTuple) →
        IsPermTuple m t → (n : ℕ) × (1 ≤ n) × IsPermTupleAt m n t }
    ensures one_number { (m n k : ℕ) (t : PermTuple) →
        IsPermTupleAt m n t → IsPermTupleAt m k t → n ≡ k }
    ensures in_order { (m n k : ℕ) (t u : PermTuple) →
        IsPermTupleAt m n t → IsPermTupleAt m k u → PermTupleBefore t u ↔ (n < k) }
    ensures by_division { (m number degree index : ℕ) (places : List ℕ) (images : List (List ℕ)) →
        1 ≤ degree → perm_tuples_below m degree + index + 1 ≡ number →
        length places ≡ m → number_in (factorial degree) places ≡ index →
        AllZip (λ place image. IsNth (IsPerm degree) Earlier (place + 1) image) places images →
        IsPermTupleAt m number (record { degree = degree; images = images }) }
{}

/// Each number from 1 belongs to one tuple of residues, and each tuple has one number. The block
/// of a number and the digits of its place there give the tuple.
pub fn residues_are_numbered()
    ensures each_number { (m n : ℕ) → 1 ≤ n → (t : ResidueTuple) × IsResidueTupleAt m n t }
    ensures one_tuple { (m n : ℕ) (t u : ResidueTuple) →
        IsResidueTupleAt m n t → IsResidueTupleAt m n u → t ≡ u }
    ensures each_tuple { (m : ℕ) (t : ResidueTuple) →
        IsResidueTuple m t → (n : ℕ) × (1 ≤ n) × IsResidueTupleAt m n t }
    ensures one_number { (m n k : ℕ) (t : ResidueTuple) →
        IsResidueTupleAt m n t → IsResidueTupleAt m k t → n ≡ k }
    ensures in_order { (m n k : ℕ) (t u : ResidueTuple) →
        IsResidueTupleAt m n t → IsResidueTupleAt m k u → ResidueTupleBefore t u ↔ (n < k) }
    ensures by_division { (m number modulus index : ℕ) (residues : List ℕ) →
        2 ≤ modulus → residue_tuples_below m modulus + index + 1 ≡ number →
        length residues ≡ m → All (λ x. x < modulus) residues → number_in modulus residues ≡ index →
        IsResidueTupleAt m number (record { modulus = modulus; residues = residues }) }
{}

#[cfg(test)]
mod tests {
    use super::*;

    #[test]
    fn numbers_of_permutations(rt: HostRuntime) {
        // Two generators: number 5 is degree 2 with 1 0, 1 0, and number 15 degree 3 with 0 2 1, 1 2 0.
        assert_eq!(rt; action_block(5, 2), Block { size: 2, index: 3 });
        let mut places = [0u64; 2];
        perm_places(3, 2, &mut places);
        assert_eq!(rt; places, [1, 1]);
        let mut swapped = [0u32; 2];
        perm_of(1, 2, &mut swapped);
        assert_eq!(rt; swapped, [1, 0]);
        assert_eq!(rt; action_block(15, 2), Block { size: 3, index: 9 });
        perm_places(9, 3, &mut places);
        assert_eq!(rt; places, [1, 3]);
        let mut images = [0u32; 3];
        perm_of(1, 3, &mut images);
        assert_eq!(rt; images, [0, 2, 1]);
        perm_of(3, 3, &mut images);
        assert_eq!(rt; images, [1, 2, 0]);
        permutations_are_numbered();
    }

    #[test]
    fn numbers_of_residues(rt: HostRuntime) {
        // Two generators: number 3 is modulus 2 with 1 0, and number 4 modulus 2 with 1 1.
        let mut pair = [0u32; 2];
        assert_eq!(rt; residue_block(3, 2), Block { size: 2, index: 2 });
        residues_of(2, 2, &mut pair);
        assert_eq!(rt; pair, [1, 0]);
        assert_eq!(rt; residue_block(4, 2), Block { size: 2, index: 3 });
        residues_of(3, 2, &mut pair);
        assert_eq!(rt; pair, [1, 1]);
        // One generator: number 2 is modulus 2 with 1, and number 7 modulus 4 with 1.
        let mut one = [0u32; 1];
        assert_eq!(rt; residue_block(2, 1), Block { size: 2, index: 1 });
        assert_eq!(rt; residue_block(7, 1), Block { size: 4, index: 1 });
        residues_of(1, 4, &mut one);
        assert_eq!(rt; one, [1]);
        residues_are_numbered();
    }

    #[test]
    fn last_numbers_of_blocks(rt: HostRuntime) {
        // (number, generators, size, index): the last tuple of each block up to size 4.
        let permutations: [(u64, u32, u32, u64); 8] = [
            (1, 1, 1, 0),
            (3, 1, 2, 1),
            (9, 1, 3, 5),
            (33, 1, 4, 23),
            (1, 2, 1, 0),
            (5, 2, 2, 3),
            (41, 2, 3, 35),
            (617, 2, 4, 575),
        ];
        for (number, generators, size, index) in permutations {
            prove!(1 <= number && number <= MOST_NUMBER && 1 <= generators);
            assert_eq!(rt; action_block(number, generators), Block { size, index });
        }
        let residues: [(u64, u32, u32, u64); 6] = [
            (2, 1, 2, 1),
            (5, 1, 3, 2),
            (9, 1, 4, 3),
            (4, 2, 2, 3),
            (13, 2, 3, 8),
            (29, 2, 4, 15),
        ];
        for (number, generators, size, index) in residues {
            prove!(1 <= number && number <= MOST_NUMBER && 1 <= generators);
            assert_eq!(rt; residue_block(number, generators), Block { size, index });
        }
    }
}
