// Copying between slices of different lengths.
ghost use Rattle.std.specs.Prelude.{◌≡◌, ◌<◌, [], ◌++◌, min, length, take, drop};

// Copies bytes from the front of one slice to the front of another, at most `most`, and answers how
// many.
pub(crate) fn copy_front(from: &[u8], into: &mut [u8], most: usize) -> usize
    ensures count { result ≡ min most (min (length into.old) (length from.now)) }
    ensures copied { into.new ≡ take result from.now ++ drop result into.old }
    ensures front { from.now ≡ take result into.new ++ drop result from.now }
    ensures none { 0 < most → 0 < length into.old → result ≡ 0 → from.now ≡ [] }
{
    let count = most.min(into.len().min(from.len()));
    into[..count].copy_from_slice(&from[..count]);
    count
}
