// What a refusal answers of itself.
ghost use Rattle.std.specs.Prelude.{◌≡◌, IfOk, Some, string_bytes};
ghost use Rattle.refusal.specs.Printed.{printed, stated};
ghost use Rattle.refusal.specs.Table.{table};

use crate::layer::Layer;
use crate::reason::Refusal;
use std::alloc::{AllocError, Global};
use std::error::Error;
use std::fmt;

// The columns that each number has on a refusal's line.
const WIDTH: usize = 9;

impl Refusal {
    pub fn number(self) -> u32
        ensures { result ≡ (table self).number }
    {
        let (number, _, _) = self.row();
        number
    }

    pub fn layer(self) -> Layer
        ensures { result ≡ (table self).layer }
    {
        let (_, layer, _) = self.row();
        layer
    }

    // Where it lies: a line and a column, which is 1 where the whole line is meant; two entries; or one place and 0.
    // Both are 0 where it names none.
    pub fn places(self) -> (usize, usize)
        ensures { result ≡ (table self).places }
    {
        let (_, _, places) = self.row();
        places
    }

    // Its number, its layer and its places. The numbers are given by the list, since they are printed; within the code the enum serves.
    fn row(self) -> (u32, Layer, (usize, usize))
        ensures number { result.0 ≡ (table self).number }
        ensures layer { result.1 ≡ (table self).layer }
        ensures places { result.2 ≡ (table self).places }
    {
        match self {
            Refusal::SheetTooLong => (1, Layer::Sheet, (0, 0)),
            Refusal::LineTooLong { line } => (2, Layer::Line, (line, 1)),
            Refusal::UnknownKind { line } => (3, Layer::Line, (line, 1)),
            Refusal::WrongFields { line } => (4, Layer::Line, (line, 1)),
            Refusal::NotANumber { line, column } => (5, Layer::Field, (line, column)),
            Refusal::OutOfPlace { line } => (6, Layer::Sheet, (line, 1)),
            Refusal::OutOfRange { line, column } => (7, Layer::Sheet, (line, column)),
            Refusal::ClockOutOfOrder { line, column } => (8, Layer::Sheet, (line, column)),
            Refusal::NoRoom { line, column } => (9, Layer::Sheet, (line, column)),
            Refusal::WrongCount { line, column } => (10, Layer::Sheet, (line, column)),
            Refusal::UnlawfulList { fault } => (11, Layer::List, (fault, 0)),
            Refusal::RunOpen => (12, Layer::Stand, (0, 0)),
            Refusal::DegreesOutOfRange => (13, Layer::Choice, (0, 0)),
            Refusal::TooFewWords => (14, Layer::Choice, (0, 0)),
            Refusal::EqualErrors { first, second } => (15, Layer::Choice, (first, second)),
            Refusal::NoneKeepsApart => (16, Layer::Choice, (0, 0)),
            Refusal::NotAFeedback => (17, Layer::Choice, (0, 0)),
            Refusal::NoFeedback => (18, Layer::Stand, (0, 0)),
            Refusal::NoRun => (19, Layer::Stand, (0, 0)),
            Refusal::NotABit => (20, Layer::Stand, (0, 0)),
            Refusal::RunFull => (21, Layer::Stand, (0, 0)),
            Refusal::NotebookFull => (22, Layer::Stand, (0, 0)),
            Refusal::NothingFiled { place } => (23, Layer::Stand, (place, 0)),
            Refusal::OutputTooShort => (24, Layer::Report, (0, 0)),
        }
    }

    // The line by which it is printed.
    pub fn line(self, heap: Global) -> Result<String, AllocError>
        ensures { IfOk result (λ t. string_bytes t ≡ printed self) }
    {
        format!(in heap; "{self}\n")
    }
}

// The line without its line feed.
impl fmt::Display for Refusal {
    ghost output = { λ r. Some (stated r) };

    #[tactic(auto, using(column::proofs::Padded::styled_right))]
    fn fmt<W: fmt::Write>(&self, f: &mut fmt::Formatter<W>) -> fmt::Result {
        let (number, layer, (first, second)) = self.row();
        let layer = layer.number();
        write!(
            f,
            "X{layer:>WIDTH$}{number:>WIDTH$}{first:>WIDTH$}{second:>WIDTH$}"
        )
    }
}

impl Error for Refusal {}
