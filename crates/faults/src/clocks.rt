// A fault list that holds the wrong clocks of each fault as rising numbers.
ghost use Rattle.std.specs.Prelude.{ℕ, length, slice_index_or};
ghost use Rattle.faults.specs.Clocks.{Kept, blank};
ghost use Rattle.faults.specs.Filling.{Sized};

mod filling;
mod telling;

use crate::fault_record::FaultRecord;

// Its memory keeps the rules; past the last record a blank one stands, which keeps them too.
// No view by `impl Model`: a refused `fill` leaves the memory as it was, and a view of the faults alone would not say so.
#[derive(Drop)]
pub struct ClockList<'a> {
    n: usize,
    records: &'a [FaultRecord],
    clocks: &'a [u16],
    ghost sized: { Sized n (length records.now) },
    ghost kept: { (i : ℕ) → Kept n clocks.now (slice_index_or records.now i blank) },
}
