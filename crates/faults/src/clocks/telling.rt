// What a clock list tells.
ghost use Rattle.std.specs.Prelude.{◌≡◌, ℕ, ◌∷◌, length, slice_index_or};
ghost use Rattle.gf2.specs.Responses.{response};
ghost use Rattle.gf2.specs.Tables.{combination};
ghost use Rattle.std.specs.List.Sorted.{IsStrictlyIncreasing};
ghost use Rattle.faults.specs.Meaning.{entry, wrong};
ghost use Rattle.faults.specs.Clocks.{Below, Kept, among, blank, part};
ghost use Rattle.faults.specs.ClockLists.{clock_list};

use super::ClockList;
use crate::fault_record::FaultRecord;
use crate::list::FaultList;

impl<'a> FaultList for ClockList<'a> {
    ghost means = { λ s. clock_list s };

    fn clocks(&self) -> usize {
        self.n
    }

    fn count(&self) -> usize {
        self.records.len()
    }

    fn class(&self, i: usize) -> u8 {
        self.record_of(i).class
    }

    fn wrong(&self, i: usize, clock: usize) -> bool {
        is_among(self.clocks_of(i), clock)
    }

    // One word for each wrong clock. (What a short table gives is said in each make, which cuts by its own n.)
    #[tactic(auto, using(crate::proofs::Errors::combination_take))]
    fn combine(&self, i: usize, table: &[u32]) -> u32 {
        let Some(words) = table.get(..self.n) else {
            return 0;
        };
        pick(self.clocks_of(i), words)
    }
}

impl<'a> ClockList<'a> {
    // The record of entry i: a blank one for the good board, and past the last entry.
    #[tactic(auto, using(crate::proofs::ClockLists::record_error))]
    fn record_of(&self, i: usize) -> FaultRecord
        ensures is { result ≡ slice_index_or (blank ∷ self.now.records.now) i blank }
        ensures class { result.class ≡ (entry (clock_list self.now) i).class }
        ensures error { (entry (clock_list self.now) i).error ≡ response self.now.n (among (part self.now.clocks.now result.clocks)) }
        ensures kept { Kept self.now.n self.now.clocks.now result }
    {
        i.checked_sub(1)
            .and_then(|place| self.records.get(place))
            .copied()
            .unwrap_or_default()
    }

    // The wrong clocks of entry i.
    fn clocks_of(&self, i: usize) -> &[u16]
        ensures error { (entry (clock_list self.now) i).error ≡ response self.now.n (among result.now) }
        ensures wrong { (j : ℕ) → among result.now j ≡ wrong (clock_list self.now) i j }
        ensures below { Below self.now.n result.now }
        ensures rising { IsStrictlyIncreasing result.now }
    {
        // By place: `part` would look again whether they lie within, which the list says of each record.
        let span = self.record_of(i).clocks;
        &self.clocks[span.start..span.start + span.len]
    }
}

// Whether a clock is among them. `any` is plainer than a binary search, which wants the clock as a `u16` first.
fn is_among(clocks: &[u16], clock: usize) -> bool
    ensures { result ≡ among clocks.now clock }
{
    clocks.iter().any(|c| usize::from(*c) == clock)
}

// What the response that is 1 at these clocks picks from its words.
fn pick(clocks: &[u16], words: &[u32]) -> u32
    requires below { Below (length words.now) clocks.now }
    requires rising { IsStrictlyIncreasing clocks.now }
    ensures { result ≡ combination words.now (response (length words.now) (among clocks.now)) }
{
    let mut sum = 0;
    for clock in clocks {
        sum ^= words[words.len() - 1 - usize::from(*clock)];
    }
    sum
}
