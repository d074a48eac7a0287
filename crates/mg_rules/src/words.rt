//! Letters and words compared.
ghost use Rattle.std.specs.Prelude.{◌≡◌, ◌↔◌, IsTrue, ℤ, List, ◌++◌};

use mg_words::Letter;

// Whether the two letters are the same.
fn is_same(a: Letter, b: Letter) -> bool
    ensures { IsTrue result ↔ (a ≡ b) }
{
    a.generator == b.generator && a.inverse == b.inverse
}

// Whether the two words are the same.
pub(crate) fn are_same(u: &[Letter], v: &[Letter]) -> bool
    ensures { IsTrue result ↔ (u.now ≡ v.now) }
{
    if u.len() != v.len() {
        return false;
    }
    for place in 0..u.len() {
        if !is_same(u[place], v[place]) {
            return false;
        }
    }
    true
}

// Whether the word ends with these letters.
pub(crate) fn ends_with(word: &[Letter], end: &[Letter]) -> bool
    ensures { IsTrue result ↔ ((before : List ℤ) × (word.now ≡ before ++ end.now)) }
{
    end.len() <= word.len() && are_same(&word[word.len() - end.len()..], end)
}
