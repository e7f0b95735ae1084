// Whether a feedback keeps a list apart, and whether any can.
ghost use Rattle.std.specs.Prelude.{◌<◌, ◌↔◌, IsTrue};
ghost use Rattle.gf2.specs.Feedbacks.{IsFeedback};
ghost use Rattle.gf2.specs.Tables.{Powers};
ghost use Rattle.faults.specs.declared.sizes.TheConstants.{MAX_ENTRIES};
ghost use Rattle.apart.specs.Residues.{Alike, SameError};
ghost use Rattle.apart.specs.Verdicts.{Judges, FindsEqual, FindsConfused};

use crate::answers::Pair;
use crate::entry_words::{residues, words};
use crate::pairs::first_pair;
use faults::{FaultList, MAX_CLOCKS, MAX_ENTRIES};
use gf2::Feedback;
use refusal::Refusal;

// The first two entries that the feedback of this code confuses, and none if it keeps the list apart; 17 if the code is no feedback's.
pub fn verdict<L: FaultList>(list: &L, code: u64) -> Result<Option<Pair>, Refusal>
    ensures { Judges code (L.means list.now) result }
{
    Ok(first_confused(list, Feedback::new(code)?))
}

// The same for a feedback: entries of different class with equal residues.
fn first_confused<L: FaultList>(list: &L, feedback: Feedback) -> Option<Pair>
    ensures { FindsConfused feedback.code (L.means list.now) result }
{
    let words = residues(list, feedback);
    first_pair(
        list.count() + 1,
        |a: usize, b: usize| -> bool
            requires first { a < MAX_ENTRIES }
            requires second { b < MAX_ENTRIES }
            ensures { IsTrue result ↔ Alike (L.means list.entry.now) words a b }
        { words[a] == words[b] && list.class(a) != list.class(b) },
    )
}

// x^24 + x^4 + x^3 + x + 1, a feedback of degree 24: few different errors have equal residues by it.
const SIEVE: u64 = 16_777_243;

// The powers of x by that feedback.
fn sieve(table: &mut [u32])
    ensures { IsFeedback 16777243 → Powers 16777243 table.new }
{
    if let Ok(feedback) = Feedback::new(SIEVE) {
        feedback.powers(table);
    }
}

// The first two entries of different class with equal errors, the pair that refusal 15 names. Any table would do: it only saves comparing most pairs clock by clock.
pub fn equal_errors<L: FaultList>(list: &L) -> Option<Pair>
    ensures { FindsEqual (L.means list.now) result }
{
    let mut table = [0; MAX_CLOCKS];
    let powers = &mut table[..list.clocks()];
    sieve(powers);
    first_equal(list, powers)
}

// The same, with a table: equal errors pick the same from it.
fn first_equal<L: FaultList>(list: &L, table: &[u32]) -> Option<Pair>
    ensures { FindsEqual (L.means list.now) result }
{
    let words = words(list, table);
    first_pair(
        list.count() + 1,
        |a: usize, b: usize| -> bool
            requires first { a < MAX_ENTRIES }
            requires second { b < MAX_ENTRIES }
            ensures { IsTrue result ↔ (Alike (L.means list.entry.now) words a b × SameError (L.means list.entry.now) a b) }
        { words[a] == words[b] && list.class(a) != list.class(b) && same_errors(list, a, b) },
    )
}

// Whether two entries have equal errors: they are wrong at the same clocks.
fn same_errors<L: FaultList>(list: &L, a: usize, b: usize) -> bool
    ensures { IsTrue result ↔ SameError (L.means list.now) a b }
{
    (0..list.clocks()).all(|clock| list.wrong(a, clock) == list.wrong(b, clock))
}
