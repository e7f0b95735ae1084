// The arguments, from text.
ghost use Rattle.std.specs.Prelude.{◌≡◌, Bool, List, MatchOption, MatchResult, ◌≢◌};
ghost use Rattle.explain.specs.Answers.{Read, EndsReading};
ghost use Rattle.explain.specs.Arguments.{Numeral, digit, typed};
ghost use Rattle.explain.specs.declared.error.ExplainError.TheVariants.{BadBits};

use crate::error::ExplainError;
use std::alloc::Global;

// A decimal number. One that 64 bits do not hold is as good as the largest that they do: the same is said of both.
// (The library's `parse` would take a sign too.)
pub(crate) fn code_of(text: &[u8]) -> Option<u64>
    ensures { MatchOption result (Numeral text.now → ⊥) (Read text.now) }
{
    if text.is_empty() {
        return None;
    }
    let mut code: u64 = 0;
    for &character in text {
        if !character.is_ascii_digit() {
            return None;
        }
        code = code
            .saturating_mul(10)
            .saturating_add(u64::from(character - b'0'));
    }
    Some(code)
}

// A response of zeros and ones.
pub(crate) fn bits_of(heap: Global, text: &[u8]) -> Result<Vec<bool>, ExplainError>
    ensures { MatchResult result (λ v. text.now ≡ typed v.items) (EndsReading text.now) }
{
    let mut bits = Vec::new(heap);
    for &character in text {
        bits.push(bit_of(character)?)?;
    }
    Ok(bits)
}

// The bit that a character stands for.
fn bit_of(character: u8) -> Result<bool, ExplainError>
    ensures { MatchResult result (λ b. character ≡ digit b) (λ e. (e ≡ BadBits) × ((b : Bool) → character ≢ digit b)) }
{
    match character {
        b'0' => Ok(false),
        b'1' => Ok(true),
        _ => Err(ExplainError::BadBits),
    }
}
