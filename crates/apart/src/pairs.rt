// Looking for a pair.
ghost use Rattle.std.specs.Prelude.{ℕ, ◌<◌, false, MatchOption};
ghost use Rattle.apart.specs.Pairs.{FirstToPass};

use crate::answers::Pair;

// The first pair of numbers below the end that passes a test: the smallest first, then the smallest second.
pub(crate) fn first_pair<F: Fn(usize, usize) -> bool>(end: usize, passes: F) -> Option<Pair>
    requires { (a b : ℕ) → a < b → b < end → F.pre passes a b }
    ensures { MatchOption result ((a b : ℕ) → a < b → b < end → F.post passes a b false) (FirstToPass (F.post passes) end) }
{
    // Two loops, since the numbers index nothing: they are what is answered.
    for first in 0..end {
        for second in first + 1..end {
            if passes(first, second) {
                return Some(Pair { first, second });
            }
        }
    }
    None
}
