// The choice: its checks, in the order of their refusals, and then the feedbacks one after another.
ghost use Rattle.choice.specs.Choosing.{Degrees, Room, Chooses};
ghost use Rattle.choice.specs.Exactness.{Exact};

use crate::answer::Choice;
use crate::degrees::DegreeRange;
use crate::finding::first_apart;
use apart::{Pair, equal_errors};
use faults::FaultList;
use refusal::Refusal;

// The feedback of smallest code, among those of degree low to high that keep the list apart. Each entry's word then holds the residue of its error.
// Low and high come as numbers that may be out of order, and the words as lent memory that may be too short: these are refused and not ruled out.
// 13 for the degrees, 14 for too few words, 15 for equal errors, and 16, with the entries' words 0, where no feedback of the degrees will do.
pub fn choose<L: FaultList>(
    list: &L,
    low: u32,
    high: u32,
    words: &mut [u32],
) -> Result<Choice, Refusal>
    ensures answer { Chooses (L.means list.now) low high words.old words.new result }
    ensures exact { Degrees low high → Room (L.means list.now) words.old → Exact (L.means list.now) low high result }
{
    let degrees = DegreeRange::new(low, high)?;
    if words.len() < list.count() + 1 {
        return Err(Refusal::TooFewWords);
    }
    choose_among(list, degrees, words)
}

// The same, where there is room for the words. Equal errors are told first: no feedback keeps those apart.
fn choose_among<L: FaultList>(
    list: &L,
    degrees: DegreeRange,
    words: &mut [u32],
) -> Result<Choice, Refusal>
    requires { Room (L.means list.now) words.old }
    ensures answer { Chooses (L.means list.now) degrees.low degrees.high words.old words.new result }
    ensures exact { Exact (L.means list.now) degrees.low degrees.high result }
{
    if let Some(Pair { first, second }) = equal_errors(list) {
        return Err(Refusal::EqualErrors { first, second });
    }
    let entries = list.count() + 1;
    match first_apart(list, degrees) {
        // (By place, since the borrow checker does not cover a pattern that moves an array.)
        Some(found) => {
            words[..entries].copy_from_slice(&found.1[..entries]);
            Ok(found.0)
        }
        None => {
            words[..entries].fill(0);
            Err(Refusal::NoneKeepsApart)
        }
    }
}
