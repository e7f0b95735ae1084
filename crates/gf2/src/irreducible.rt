// Irreducibility, by trial division.
ghost use Rattle.std.specs.Prelude.{◌≡◌, ◌≢◌, ℕ, ◌+◌, ◌*◌, ◌/◌, ◌^◌, ◌<◌, ◌≤◌, ◌↔◌, IsTrue};
ghost use Rattle.gf2.specs.Polynomials.{degree, residue, Irreducible};
ghost use Rattle.gf2.specs.Trial.{Tried};

// Whether a polynomial is irreducible. Half its degree is as far as trial division has to go.
#[tactic(auto, using(crate::proofs::Trials::half_is_enough))]
pub fn is_irreducible(code: u32) -> bool
    ensures { IsTrue result ↔ Irreducible code }
{
    has_no_factor(code, degree_of(code) / 2)
}

// Whether the degree is at least 1 and no polynomial of degree 1 to `most` divides. x is tried first, and then only divisors that x does not divide.
#[tactic(auto, using(crate::proofs::Trials::trying))]
fn has_no_factor(code: u32, most: u32) -> bool
    requires { most < 16 }
    ensures { IsTrue result ↔ Tried most code }
{
    code >= 2 && (most == 0 || code % 2 == 1) && has_no_odd_factor(code, most)
}

// Whether no divisor 2h + 1 of degree 1 to `most` divides.
fn has_no_odd_factor(code: u32, most: u32) -> bool
    requires { most < 16 }
    ensures { IsTrue result ↔ ((h : ℕ) → 1 ≤ h → h < 2 ^ most → residue (2 * h + 1) code ≢ 0) }
{
    (1..1 << most).all(|h| remainder(code, 2 * h + 1) != 0)
}

// What is left of p: the divisor, moved up to p's degree, is taken off as often as it goes.
#[tactic(auto, using(crate::proofs::Shifts::taken))]
fn remainder(p: u32, divisor: u32) -> u32
    requires { 0 < divisor }
    ensures { result ≡ residue divisor p }
{
    let k = divisor.ilog2();
    let mut r = p;
    while r >= 1 << k {
        r ^= divisor << (r.ilog2() - k);
    }
    r
}

// The degree of a polynomial, 0 for the polynomial 0.
#[tactic(auto, using(crate::proofs::Degrees::degree_is, crate::proofs::Degrees::degree_none))]
fn degree_of(code: u32) -> u32
    ensures is { result ≡ degree code }
    ensures few { result < 32 }
{
    code.checked_ilog2().unwrap_or(0)
}
