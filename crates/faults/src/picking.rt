// What a response picks from its words.
ghost use Rattle.std.specs.Prelude.{◌≡◌, ℕ, ◌<◌, Bool, length};
ghost use Rattle.gf2.specs.Responses.{response};
ghost use Rattle.gf2.specs.Tables.{combination};
ghost use Rattle.faults.specs.Picking.{Says};

// The response has a bit for each word, that of clock 0 for the last word, and is 1 at the clocks where the test is true.
pub(crate) fn pick<F: Fn(usize) -> bool>(words: &[u32], test: F) -> u32
    requires { (k : ℕ) → k < length words.now → F.pre test k }
    ensures { (w : ℕ → Bool) → Says (length words.now) (F.post test) w → result ≡ combination words.now (response (length words.now) w) }
{
    let mut sum = 0;
    for (clock, word) in words.iter().rev().enumerate() {
        if test(clock) {
            sum ^= *word;
        }
    }
    sum
}
