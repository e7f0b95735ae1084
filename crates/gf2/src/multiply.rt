// The product of two polynomials.
ghost use Rattle.std.specs.Prelude.{◌≡◌};
ghost use Rattle.gf2.specs.Polynomials.{times};
ghost use Rattle.gf2.specs.Laws.{ProductLaws};

// The product, without carries: `b` times each power of x that `a` has, from the lowest up.
#[tactic(auto, using(crate::proofs::Named::products))]
pub fn product(a: u32, b: u32) -> u64
    ensures is { result ≡ times a b }
    ensures laws { ProductLaws }
{
    // By whole words, not by single digits: for a digit times `b` the machine code had a branch for each.
    let mut sum = 0;
    for n in 0..u32::BITS {
        sum ^= u64::from(a & (1 << n)) * u64::from(b);
    }
    sum
}
