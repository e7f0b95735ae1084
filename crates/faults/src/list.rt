// What every make of a fault list tells.
ghost use Rattle.std.specs.Prelude.{◌≡◌, ◌≤◌, length};
ghost use Rattle.faults.specs.Meaning.{Faults, Lawful, entry, wrong, combined};

use crate::picking::pick;

// Entry 0 is the good board, and entry i is fault i. Any number may be asked about: past the last entry the good board stands again.
pub trait FaultList {
    // the length, and the class and the error of each fault
    ghost means: { Self → Faults };

    // The length n of the responses, in clocks.
    fn clocks(&self) -> usize
        ensures is { result ≡ (means self.now).clocks }
        ensures lawful { Lawful (means self.now) };

    // The number of faults.
    fn count(&self) -> usize
        ensures is { result ≡ length (means self.now).faults }
        ensures few { result ≤ 200 };

    // The class of entry i.
    fn class(&self, i: usize) -> u8
        ensures { result ≡ (entry (means self.now) i).class };

    // Whether entry i is wrong at a clock.
    fn wrong(&self, i: usize, clock: usize) -> bool
        ensures { result ≡ wrong (means self.now) i clock };

    // The sum of the words that the error of entry i picks from a table: word j where the error has x^j.
    // A table of fewer than n words gives 0. With the powers of x by a feedback this is the residue of the error.
    fn combine(&self, i: usize, table: &[u32]) -> u32
        ensures { result ≡ combined (means self.now) i table.now }
    {
        let Some(words) = table.get(..self.clocks()) else {
            return 0;
        };
        pick(words, |clock| self.wrong(i, clock))
    }
}
