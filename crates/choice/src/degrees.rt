// The degrees to choose from.
ghost use Rattle.std.specs.Prelude.{◌≡◌, ◌*◌, ◌^◌, ◌≤◌, MatchResult};
ghost use Rattle.refusal.specs.declared.reason.Refusal.TheVariants.{DegreesOutOfRange};
ghost use Rattle.choice.specs.Choosing.{Degrees};

use gf2::Feedback;
use refusal::Refusal;

// From low to high, all of them degrees of feedbacks.
#[derive(Clone, Copy)]
pub(crate) struct DegreeRange {
    low: u32,
    high: u32,
    ghost in_order: { Degrees low high },
}

impl DegreeRange {
    // The degrees from low to high, refused by 13 where they are not in order.
    pub(crate) fn new(low: u32, high: u32) -> Result<DegreeRange, Refusal>
        ensures { MatchResult result (λ d. (d.low ≡ low) × (d.high ≡ high)) (λ e. (e ≡ DegreesOutOfRange) × (Degrees low high → ⊥)) }
    {
        if low < 1 || high < low || Feedback::MAX_DEGREE < high {
            return Err(Refusal::DegreesOutOfRange);
        }
        Ok(DegreeRange { low, high })
    }

    // The smallest code of a polynomial of the lowest degree.
    pub(crate) fn first_code(self) -> u64
        ensures { result ≡ 2 ^ self.low }
    {
        1 << self.low
    }

    // The smallest code of a polynomial of a higher degree.
    pub(crate) fn end_code(self) -> u64
        ensures is { result ≡ 2 * 2 ^ self.high }
        ensures most { result ≤ 2 ^ 25 }
    {
        2 << self.high
    }
}
