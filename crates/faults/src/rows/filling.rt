// Making a row list, and filling it from memory.
ghost use Rattle.std.specs.Prelude.{◌≡◌, ◌<◌, ◌≤◌, ◌↔◌, length, IsTrue};
ghost use Rattle.faults.specs.Meaning.{empty};
ghost use Rattle.faults.specs.Rows.{RowKept, by_rows};
ghost use Rattle.faults.specs.RowLists.{row_list};
ghost use Rattle.faults.specs.Filling.{Fills, Makes};

use super::{RowList, row_bytes};
use crate::checking::check;
use crate::sizes::MAX_CLASS;
use refusal::Refusal;

impl<'a> RowList<'a> {
    // One clock and no faults. A literal of its own in each make: the fields differ.
    pub fn new() -> Self
        ensures { row_list result ≡ empty }
    {
        RowList {
            n: 1,
            classes: &[],
            rows: &[],
        }
    }

    // n clocks, a fault for each class, and the rows one after another, the first at the beginning; 11 where that breaks a rule.
    pub fn fill(&mut self, n: usize, classes: &'a [u8], rows: &'a [u8]) -> Result<(), Refusal>
        ensures { Fills n (length classes.now) (RowKept n classes.now rows.now) (row_list self.new ≡ by_rows n classes.now rows.now) (self.new ≡ self.old) result }
    {
        *self = RowList::of(n, classes, rows)?;
        Ok(())
    }

    // The list that the memory means, where it keeps the rules.
    fn of(n: usize, classes: &'a [u8], rows: &'a [u8]) -> Result<Self, Refusal>
        ensures { Makes n (length classes.now) (RowKept n classes.now rows.now) (λ list. row_list list ≡ by_rows n classes.now rows.now) result }
    {
        check(n, classes.len(), |i| keeps(n, classes, rows, i))?;
        Ok(RowList { n, classes, rows })
    }
}

// Whether the fault at place i keeps the rules; its row is there if the memory has more than i whole rows.
fn keeps(n: usize, classes: &[u8], rows: &[u8], i: usize) -> bool
    requires some { 1 ≤ n }
    requires within { i < length classes.now }
    ensures { IsTrue result ↔ RowKept n classes.now rows.now i }
{
    classes[i] <= MAX_CLASS && i < rows.len() / row_bytes(n)
}
