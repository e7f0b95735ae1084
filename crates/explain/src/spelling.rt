// A polynomial in writing.
ghost use Rattle.std.specs.Prelude.{◌≡◌, IfOk, Some, string_bytes};
ghost use Rattle.explain.specs.Spelling.{power, spelled};

use std::alloc::{AllocError, Global};
use std::fmt;

// The polynomial of this code. It is written as its powers of x, from the highest down: x^4 + x + 1 for 19.
#[derive(Clone, Copy, Debug, PartialEq, Eq)]
pub struct Polynomial {
    pub code: u32,
}

impl fmt::Display for Polynomial {
    ghost output = { λ p. Some (spelled p.code) };

    #[tactic(auto, using(crate::proofs::Spelled::power_by_power))]
    fn fmt<W: fmt::Write>(&self, f: &mut fmt::Formatter<W>) -> fmt::Result {
        let mut separator = "";
        for exponent in (0..32).rev() {
            if (self.code >> exponent) & 1 == 1 {
                let power = Power { exponent };
                write!(f, "{separator}{power}")?;
                separator = " + ";
            }
        }
        Ok(())
    }
}

// The polynomial of this code as a text of its own.
pub fn spell(heap: Global, code: u32) -> Result<String, AllocError>
    ensures { IfOk result (λ t. string_bytes t ≡ spelled code) }
{
    format!(in heap; "{}", Polynomial { code })
}

// A power of x.
#[derive(Clone, Copy)]
struct Power {
    exponent: u32,
}

impl fmt::Display for Power {
    ghost output = { λ p. Some (power p.exponent) };

    fn fmt<W: fmt::Write>(&self, f: &mut fmt::Formatter<W>) -> fmt::Result {
        match self.exponent {
            0 => f.write_str("1"),
            1 => f.write_str("x"),
            i => write!(f, "x^{i}"),
        }
    }
}
