// A word for each entry.
ghost use Rattle.std.specs.Prelude.{◌≤◌, length};
ghost use Rattle.faults.specs.Meaning.{Lawful};
ghost use Rattle.apart.specs.Residues.{Residues, Words};

use faults::{FaultList, MAX_CLOCKS, MAX_ENTRIES};
use gf2::Feedback;

// The residue of each entry's error, and 0 past the last entry, where the good board stands again.
pub fn residues<L: FaultList>(list: &L, feedback: Feedback) -> [u32; MAX_ENTRIES]
    ensures { Residues feedback.code (L.means list.now) result }
{
    let mut table = [0; MAX_CLOCKS];
    residues_by(list, feedback, &mut table[..list.clocks()])
}

// The same, with memory for the powers of x that the list reaches. That it keeps the rules is asked here, since only `clocks` tells it.
fn residues_by<L: FaultList>(list: &L, feedback: Feedback, powers: &mut [u32]) -> [u32; MAX_ENTRIES]
    requires lawful { Lawful (L.means list.now) }
    requires long { (L.means list.now).clocks ≤ length powers.old }
    ensures { Residues feedback.code (L.means list.now) result }
{
    feedback.powers(powers);
    words(list, powers)
}

// What the error of each entry picks from a table. Past the last entry there is nothing to pick, and nothing is asked.
#[tactic(auto, using(crate::proofs::Pairing::words_more, crate::proofs::Pairing::words_all))]
pub(crate) fn words<L: FaultList>(list: &L, table: &[u32]) -> [u32; MAX_ENTRIES]
    ensures { Words (L.means list.now) table.now result }
{
    // By number, up to the last entry: over the array's own items, that the others are still 0 was not proved.
    let mut words = [0; MAX_ENTRIES];
    for i in 0..list.count() + 1 {
        words[i] = list.combine(i, table);
    }
    words
}
