// Why there is no explanation.
ghost use Rattle.std.specs.Prelude.{◌≡◌, Some};
ghost use Rattle.explain.specs.Messages.{message};
ghost use Rattle.explain.specs.declared.error.ExplainError.TheVariants.{OutOfMemory};

use std::alloc::{AllocError, AllocFailed};
use std::error::Error;
use std::fmt;

#[derive(Clone, Copy, Debug, PartialEq, Eq)]
pub enum ExplainError {
    // The first argument is no decimal number.
    BadCode,
    // The second is not zeros and ones.
    BadBits,
    OutOfMemory,
}

impl fmt::Display for ExplainError {
    ghost output = { λ e. Some (message e) };

    fn fmt<W: fmt::Write>(&self, f: &mut fmt::Formatter<W>) -> fmt::Result {
        f.write_str(match self {
            ExplainError::BadCode => "CODE must be a decimal number, as 19 for x^4 + x + 1",
            ExplainError::BadBits => "BITS must be zeros and ones, the bit of clock 0 first",
            ExplainError::OutOfMemory => "memory allocation failed",
        })
    }
}

impl Error for ExplainError {}

impl From<AllocError> for ExplainError {
    ghost from_gives = { λ _ e. e ≡ OutOfMemory };

    fn from(_error: AllocError) -> ExplainError {
        ExplainError::OutOfMemory
    }
}

impl<T: Drop> From<AllocFailed<T>> for ExplainError {
    ghost from_gives = { λ _ e. e ≡ OutOfMemory };

    fn from(_error: AllocFailed<T>) -> ExplainError {
        ExplainError::OutOfMemory
    }
}
