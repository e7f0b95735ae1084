// The feedback polynomial of a register.
ghost use Rattle.std.specs.Prelude.{◌≡◌, ◌≤◌, MatchResult};
ghost use Rattle.refusal.specs.declared.reason.Refusal.TheVariants.{NotAFeedback};
ghost use Rattle.gf2.specs.Polynomials.{degree};
ghost use Rattle.gf2.specs.Feedbacks.{IsFeedback};

mod division;

use crate::irreducible::is_irreducible;
use refusal::Refusal;

// An irreducible polynomial of degree 1 to 24: there is no other value of this type.
#[derive(Clone, Copy, Debug, PartialEq, Eq)]
pub struct Feedback {
    code: u32,
    stages: u32,
    ghost lawful: { IsFeedback code },
    ghost counted: { stages ≡ degree code },
}

impl Feedback {
    pub const MAX_DEGREE: u32 = 24;

    // The feedback of this code, if it is one's. `TryFrom<u64>` would be a second name for it, and no plainer.
    #[tactic(auto, using(crate::proofs::Feedbacks::making))]
    pub fn new(code: u64) -> Result<Feedback, Refusal>
        ensures { MatchResult result (λ f. (f.code ≡ code) × IsFeedback code) (λ e. (e ≡ NotAFeedback) × (IsFeedback code → ⊥)) }
    {
        match u32::try_from(code) {
            Ok(code) if code < 2 << Self::MAX_DEGREE && is_irreducible(code) => Ok(Feedback {
                code,
                stages: code.ilog2(),
            }),
            _ => Err(Refusal::NotAFeedback),
        }
    }

    pub fn code(&self) -> u32
        ensures is { result ≡ self.now.code }
        ensures lawful { IsFeedback result }
    {
        self.code
    }

    // The degree, which is the number of stages of a register.
    pub fn degree(&self) -> u32
        ensures is { result ≡ degree self.now.code }
        ensures least { 1 ≤ result }
        ensures most { result ≤ 24 }
    {
        self.stages
    }
}
