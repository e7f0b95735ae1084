// The four lines that explain a response by a feedback.
ghost use Rattle.std.specs.Prelude.{◌≡◌, length, Some};
ghost use Rattle.gf2.specs.Polynomials.{degree, residue};
ghost use Rattle.gf2.specs.Responses.{polynomial};
ghost use Rattle.explain.specs.Spelling.{spelled};
ghost use Rattle.explain.specs.Answers.{lines, quotient_text};
ghost use Rattle.explain.specs.Quotient.{Quotient};

use crate::quotients::quotient;
use crate::spelling::Polynomial;
use gf2::Feedback;
use std::fmt;

// What is said of a response by a feedback.
#[derive(Clone, Copy)]
pub(crate) struct Explanation {
    feedback: Feedback,
    length: usize,
    quotient: Option<u64>,
    remainder: u32,
}

impl Explanation {
    // The quotient is none where it is too long for 64 bits.
    pub(crate) fn of(feedback: Feedback, bits: &[bool]) -> Explanation
        ensures feedback { result.feedback ≡ feedback }
        ensures length { result.length ≡ length bits.now }
        ensures quotient { Quotient feedback.code (polynomial bits.now) result.quotient }
        ensures remainder { result.remainder ≡ residue feedback.code (polynomial bits.now) }
    {
        Explanation {
            feedback,
            length: bits.len(),
            quotient: quotient(&feedback, bits),
            remainder: feedback.residue(bits),
        }
    }
}

impl fmt::Display for Explanation {
    ghost output = { λ e.
        Some (lines e.feedback.code (spelled e.feedback.code) (degree e.feedback.code) e.length (quotient_text e.quotient) e.remainder) };

    fn fmt<W: fmt::Write>(&self, f: &mut fmt::Formatter<W>) -> fmt::Result {
        let code = self.feedback.code();
        let terms = Polynomial { code };
        let degree = self.feedback.degree();
        let length = self.length;
        let quotient = Written(self.quotient);
        let remainder = self.remainder;
        write!(
            f,
            "{code} is {terms}, a feedback of degree {degree}\nthe response has length {length}\nits quotient is {quotient}\nits remainder is {remainder}\n"
        )
    }
}

// A quotient, or what stands for one that is too long.
#[derive(Clone, Copy)]
struct Written(Option<u64>);

impl fmt::Display for Written {
    ghost output = { λ q. Some (quotient_text q.0) };

    fn fmt<W: fmt::Write>(&self, f: &mut fmt::Formatter<W>) -> fmt::Result {
        match self.0 {
            Some(quotient) => write!(f, "{quotient}"),
            None => f.write_str("too long for 64 bits"),
        }
    }
}
