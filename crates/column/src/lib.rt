// Numbers in columns: right-justified, with spaces before the digits.
#![tactic(auto)]

ghost use Rattle.std.specs.Prelude.{◌≡◌, IfOk, Some, string_bytes};
ghost use Rattle.column.specs.Column.{column};

use std::alloc::{AllocError, Global};
use std::fmt;

// A number and the columns that it is to fill. One of more digits than columns is written whole.
#[derive(Clone, Copy, Debug, PartialEq, Eq)]
pub struct Column {
    pub width: usize,
    pub value: u64,
}

impl Column {
    // The spaces and the digits, as a text of their own.
    pub fn text(&self, heap: Global) -> Result<String, AllocError>
        ensures { IfOk result (λ t. string_bytes t ≡ column self.now.width self.now.value) }
    {
        format!(in heap; "{self}")
    }
}

impl fmt::Display for Column {
    ghost output = { λ c. Some (column c.width c.value) };

    #[tactic(auto, using(crate::proofs::Padded::styled_right))]
    fn fmt<W: fmt::Write>(&self, f: &mut fmt::Formatter<W>) -> fmt::Result {
        write!(f, "{:>width$}", self.value, width = self.width)
    }
}
