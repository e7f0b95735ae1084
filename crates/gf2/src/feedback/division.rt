// Division by a feedback, and the residue of a response.
ghost use Rattle.std.specs.Prelude.{◌≡◌, ◌+◌, ◌*◌};
ghost use Rattle.gf2.specs.Polynomials.{Division, residue};
ghost use Rattle.gf2.specs.Responses.{bit, polynomial, Longer};
ghost use Rattle.gf2.specs.Laws.{DivisionLaws, ResidueLaws, ResponseLaws};
ghost use Rattle.gf2.specs.Tables.{Powers};

use super::Feedback;

impl Feedback {
    // The quotient and the remainder of p, by long division. What stands at x^k says whether the feedback is taken off.
    #[tactic(auto, using(crate::proofs::Steps::dividing))]
    pub fn divide(&self, p: u64) -> (u64, u64)
        ensures division { Division p self.now.code result.0 result.1 }
        ensures laws { DivisionLaws self.now.code }
    {
        // By a loop: as a fold over the falling range it was tried, and that it may be called was not proved.
        let mut quotient = 0;
        let mut remainder = 0;
        for n in (0..u64::BITS).rev() {
            let sum = 2 * remainder + ((p >> n) & 1);
            let carry = sum >> self.stages;
            remainder = sum ^ (carry * u64::from(self.code));
            quotient = 2 * quotient + carry;
        }
        (quotient, remainder)
    }

    // One clock: the remainder of x·r + c.
    #[tactic(auto, using(crate::proofs::Steps::clocking))]
    pub fn clock(&self, r: u32, c: bool) -> u32
        ensures is { result ≡ residue self.now.code (2 * r + bit c) }
        ensures longer { Longer self.now.code r c result }
    {
        self.reduce(2 * u64::from(r) + u64::from(c))
    }

    // The remainder of p. In a clock p is below 2^(k+1), and then one step is enough.
    #[tactic(auto, using(crate::proofs::Steps::leaving))]
    fn reduce(&self, p: u64) -> u32
        ensures { result ≡ residue self.now.code p }
    {
        // By `as`, which is proved to lose nothing: `u32::try_from` has an `Err` that never comes.
        let carry = p >> self.stages;
        if carry < 2 {
            (p ^ (carry * u64::from(self.code))) as u32
        } else {
            self.divide(p).1 as u32
        }
    }

    // The remainder of a response.
    #[tactic(auto, using(crate::proofs::Steps::residues))]
    pub fn residue(&self, bits: &[bool]) -> u32
        ensures is { result ≡ residue self.now.code (polynomial bits.now) }
        ensures laws { ResidueLaws self.now.code }
        ensures responses { ResponseLaws }
    {
        bits.iter().fold(0, |r, c| self.clock(r, *c))
    }

    // The residues of x^0, x^1, x^2 and so on, as many as the table has room for: each is one clock after the one before it.
    #[tactic(auto, using(crate::proofs::Steps::powers))]
    pub fn powers(&self, table: &mut [u32])
        ensures { Powers self.now.code table.new }
    {
        let mut power = self.clock(0, true);
        for word in table.iter_mut() {
            *word = power;
            power = self.clock(power, false);
        }
    }
}
