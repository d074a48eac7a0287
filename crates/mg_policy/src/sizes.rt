//! Sizes of turns.
ghost use Rattle.std.specs.Prelude.{◌≡◌, ℕ, ◌≤◌};
ghost use Rattle.mg_policy.specs.Sizes.{IsEven, IsDoubling};

/// How many units an even turn has at most.
pub const MOST_EVEN: u64 = 1_024;

/// How many times the size of a turn is doubled at most.
pub const MOST_DOUBLINGS: u64 = 20;

/// What gives each turn its size.
pub trait Sizes {
    /// Of a policy, by the number of the turn, the units spent and the units held: these units are its answer.
    ghost is_size: { Self → ℕ → ℕ → ℕ → ℕ → Type 0 };

    /// What must hold of a policy to be asked.
    ghost fit: { Self → Type 0 };

    /// How many units the turn of a search gets that has made so many turns, spent so many units and holds so many.
    fn size(&self, turn: u64, spent: u64, held: u64) -> u64
        requires fit { fit self.now }
        requires some { 1 ≤ held }
        ensures size { is_size self.now turn spent held result }
        ensures least { 1 ≤ result }
        ensures most { result ≤ held };
}

/// The units that are held, at most 1,024.
pub fn even(_turn: u64, held: u64) -> u64
    ensures size { (spent : ℕ) → IsEven _turn spent held result }
    ensures least { 1 ≤ held → 1 ≤ result }
    ensures most { result ≤ held }
{
    held.min(MOST_EVEN)
}

/// One unit for the first turn and twice as many for each one behind, at most 2 to the power of 20 and at most the
/// units that are held.
pub fn doubling(turn: u64, held: u64) -> u64
    ensures size { (spent : ℕ) → IsDoubling turn spent held result }
    ensures least { 1 ≤ held → 1 ≤ result }
    ensures most { result ≤ held }
{
    held.min(1 << turn.min(MOST_DOUBLINGS))
}
