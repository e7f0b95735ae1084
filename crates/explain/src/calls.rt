// The answer to two arguments.
ghost use Rattle.std.specs.Prelude.{◌≡◌, ℕ, List, IfOk, string_bytes};
ghost use Rattle.explain.specs.Answers.{Answers, Read, ExplainsTyped};
ghost use Rattle.explain.specs.Arguments.{typed};

use crate::arguments::{bits_of, code_of};
use crate::error::ExplainError;
use crate::explanation::Explanation;
use gf2::Feedback;
use std::alloc::{AllocError, Global};

// What there is to say of a feedback number and a response, or which of them is not what it should be.
pub fn explain(heap: Global, code: &[u8], bits: &[u8]) -> Result<String, ExplainError>
    ensures { Answers code.now bits.now result }
{
    let number = code_of(code).ok_or(ExplainError::BadCode)?;
    let response = bits_of(heap, bits)?;
    Ok(say(heap, number, &response)?)
}

// Four lines for a feedback, and the refusal's for another number.
fn say(heap: Global, code: u64, bits: &[bool]) -> Result<String, AllocError>
    ensures { IfOk result (λ t. (text : List ℕ) → text ≡ typed bits.now → ExplainsTyped code text (string_bytes t)) }
{
    match Feedback::new(code) {
        Ok(feedback) => format!(in heap; "{}", Explanation::of(feedback, bits)),
        Err(refusal) => refusal.line(heap),
    }
}
