// Making a clock list, and filling it from memory.
ghost use Rattle.std.specs.Prelude.{◌≡◌, ◌↔◌, ◌<◌, length, IsTrue};
ghost use Rattle.std.specs.List.Sorted.{IsStrictlyIncreasing};
ghost use Rattle.faults.specs.Meaning.{empty};
ghost use Rattle.faults.specs.Clocks.{Kept, KeptAt, Below, by_clocks};
ghost use Rattle.faults.specs.ClockLists.{clock_list};
ghost use Rattle.faults.specs.Filling.{Fills, Makes};

use super::ClockList;
use crate::checking::check;
use crate::fault_record::FaultRecord;
use crate::sizes::MAX_CLASS;
use refusal::Refusal;

impl<'a> ClockList<'a> {
    // One clock and no faults. A literal of its own in each make: the fields differ.
    pub fn new() -> Self
        ensures { clock_list result ≡ empty }
    {
        ClockList {
            n: 1,
            records: &[],
            clocks: &[],
        }
    }

    // n clocks, a fault for each record, and its clocks where the record says; 11 where that breaks a rule.
    pub fn fill(
        &mut self,
        n: usize,
        records: &'a [FaultRecord],
        clocks: &'a [u16],
    ) -> Result<(), Refusal>
        ensures { Fills n (length records.now) (KeptAt n records.now clocks.now) (clock_list self.new ≡ by_clocks n records.now clocks.now) (self.new ≡ self.old) result }
    {
        *self = ClockList::of(n, records, clocks)?;
        Ok(())
    }

    // The list that the memory means, where it keeps the rules.
    fn of(n: usize, records: &'a [FaultRecord], clocks: &'a [u16]) -> Result<Self, Refusal>
        ensures { Makes n (length records.now) (KeptAt n records.now clocks.now) (λ list. clock_list list ≡ by_clocks n records.now clocks.now) result }
    {
        // By place, since one function looks at both makes, and a row has no record.
        check(n, records.len(), |i| keeps(n, records[i], clocks))?;
        Ok(ClockList { n, records, clocks })
    }
}

// Whether a fault keeps the rules.
fn keeps(n: usize, fault: FaultRecord, clocks: &[u16]) -> bool
    ensures { IsTrue result ↔ Kept n clocks.now fault }
{
    fault.class <= MAX_CLASS && fault.clocks.part(clocks).is_some_and(|part| rises(n, part))
}

// Whether the clocks rise and stay below n. In one pass, which stops at the first clock that breaks either rule.
fn rises(n: usize, clocks: &[u16]) -> bool
    ensures { IsTrue result ↔ (Below n clocks.now × IsStrictlyIncreasing clocks.now) }
{
    clocks.first().is_none_or(|clock| usize::from(*clock) < n)
        && clocks
            .windows(2)
            .all(|pair| comes_after(n, pair[0], pair[1]))
}

// Whether a clock comes after the one before it, and below n.
fn comes_after(n: usize, before: u16, clock: u16) -> bool
    ensures { IsTrue result ↔ ((before < clock) × (clock < n)) }
{
    before < clock && usize::from(clock) < n
}
