// What a row list tells.
ghost use Rattle.std.specs.Prelude.{◌≡◌, ℕ, ◌+◌, ◌-◌, ◌<◌, ◌≤◌, length, ◌==◌, ◌*◌};
ghost use Rattle.gf2.specs.Polynomials.{coefficient};
ghost use Rattle.gf2.specs.Responses.{response};
ghost use Rattle.gf2.specs.Tables.{combination};
ghost use Rattle.faults.specs.Meaning.{entry, wrong};
ghost use Rattle.faults.specs.Rows.{stride, marked, marks, words_at};
ghost use Rattle.faults.specs.RowLists.{row_list};

use super::{RowList, row_bytes};
use crate::list::FaultList;

impl<'a> FaultList for RowList<'a> {
    ghost means = { λ s. row_list s };

    fn clocks(&self) -> usize {
        self.n
    }

    #[tactic(auto, using(crate::proofs::RowLists::row_count))]
    fn count(&self) -> usize {
        self.classes.len()
    }

    // 0 for the good board, and past the last entry: by the same calls as a record, since one function of both would have to speak of every `Default`.
    #[tactic(auto, using(crate::proofs::RowLists::row_class))]
    fn class(&self, i: usize) -> u8 {
        i.checked_sub(1)
            .and_then(|place| self.classes.get(place))
            .copied()
            .unwrap_or(0)
    }

    fn wrong(&self, i: usize, clock: usize) -> bool {
        clock < self.n && is_marked(self.row_of(i), clock)
    }

    // Byte by byte, with the same test of a short table.
    #[tactic(auto, using(crate::proofs::Errors::combination_take))]
    fn combine(&self, i: usize, table: &[u32]) -> u32 {
        let Some(words) = table.get(..self.n) else {
            return 0;
        };
        pick_marked(self.row_of(i), words)
    }
}

impl<'a> RowList<'a> {
    // The row of entry i: no bytes for the good board, and past the last entry.
    fn row_of(&self, i: usize) -> &[u8]
        ensures error { (entry (row_list self.now) i).error ≡ response self.now.n (marked result.now) }
        ensures wrong { (j : ℕ) → j < self.now.n → marked result.now j ≡ wrong (row_list self.now) i j }
        ensures few { length result.now ≤ stride self.now.n }
    {
        // By its place: the memory may go on after the last row.
        if i == 0 || self.classes.len() < i {
            return &[];
        }
        let stride = row_bytes(self.n);
        &self.rows[(i - 1) * stride..][..stride]
    }
}

// Whether a row has a 1 at a clock.
fn is_marked(row: &[u8], clock: usize) -> bool
    ensures { result ≡ marked row.now clock }
{
    row.get(clock / 8)
        .is_some_and(|byte| bit(*byte, 7 - clock % 8))
}

// The bit of weight 2^i.
fn bit(byte: u8, i: usize) -> bool
    requires { i < 8 }
    ensures { result ≡ (coefficient byte i == 1) }
{
    (byte >> i) & 1 == 1
}

// What the response that is 1 where the row is picks from its words. Most bytes of most rows are 0.
fn pick_marked(row: &[u8], words: &[u32]) -> u32
    requires { length row.now ≤ stride (length words.now) }
    ensures { result ≡ combination words.now (response (length words.now) (marked row.now)) }
{
    // By place: `rchunks` cuts the words of a byte of 0 too, and took two thirds longer.
    let mut sum = 0;
    for (place, byte) in row.iter().enumerate() {
        if *byte != 0 {
            sum ^= pick_byte(*byte, place, words);
        }
    }
    sum
}

// What the byte at a place picks from its words: eight, or as many as are left. The first byte has the last words.
fn pick_byte(byte: u8, place: usize, words: &[u32]) -> u32
    requires { 8 * place ≤ length words.now }
    ensures { result ≡ combination (words_at words.now place) (response (length (words_at words.now place)) (marks byte)) }
{
    // With a loop of its own, which says that they are no more than eight: by `pick`, a choice took a fifth longer.
    let left = &words[..words.len() - 8 * place];
    let mut sum = 0;
    for (clock, word) in left.iter().rev().take(8).enumerate() {
        if bit(byte, 7 - clock) {
            sum ^= *word;
        }
    }
    sum
}
