// The quotient of a response.
ghost use Rattle.std.specs.Prelude.{◌≡◌, Some};
ghost use Rattle.gf2.specs.Responses.{polynomial};
ghost use Rattle.explain.specs.Quotient.{Quotient, appended};

use gf2::Feedback;

// The quotient, while it fits 64 bits.
#[tactic(auto, using(crate::proofs::Divided::bit_by_bit))]
pub(crate) fn quotient(feedback: &Feedback, bits: &[bool]) -> Option<u64>
    ensures { Quotient feedback.now.code (polynomial bits.now) result }
{
    let mut quotient = Some(0);
    let mut remainder = 0;
    for &bit in bits {
        let (digit, rest) = feedback.divide(2 * remainder + u64::from(bit));
        quotient = append(quotient, digit);
        remainder = rest;
    }
    quotient
}

// One binary digit more, while there is room for it.
fn append(quotient: Option<u64>, digit: u64) -> Option<u64>
    ensures { result ≡ appended quotient digit }
{
    quotient?.checked_mul(2)?.checked_add(digit)
}
