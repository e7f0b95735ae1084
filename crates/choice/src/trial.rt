// One feedback on trial.
ghost use Rattle.std.specs.Prelude.{ℕ, ◌≤◌, ◌↔◌, IsTrue, MatchOption, length};
ghost use Rattle.faults.specs.Meaning.{Lawful};
ghost use Rattle.apart.specs.Apart.{KeepsApart};
ghost use Rattle.apart.specs.Residues.{Words, Residues};
ghost use Rattle.choice.specs.Trials.{Clashing, Meets};

use faults::{FaultList, MAX_ENTRIES};
use gf2::Feedback;

// The residue of each entry's error if the feedback keeps the list apart, and none at the first clash. The memory is for the powers of x that the list reaches.
// That the list keeps the rules is asked, since only `clocks` tells it.
pub(crate) fn residues_apart<L: FaultList>(
    list: &L,
    feedback: Feedback,
    powers: &mut [u32],
) -> Option<[u32; MAX_ENTRIES]>
    requires lawful { Lawful (L.means list.now) }
    requires long { (L.means list.now).clocks ≤ length powers.old }
    ensures { MatchOption result (KeepsApart feedback.code (L.means list.now) → ⊥) (λ words. KeepsApart feedback.code (L.means list.now) × Residues feedback.code (L.means list.now) words) }
{
    feedback.powers(powers);
    words_apart(list, powers)
}

// What the error of each entry picks from a table, if no two entries of different class pick the same, and none at the first that do.
#[tactic(auto, using(crate::proofs::Steps::trial))]
fn words_apart<L: FaultList>(list: &L, table: &[u32]) -> Option<[u32; MAX_ENTRIES]>
    ensures { MatchOption result (((a b : ℕ) → Clashing (L.means list.now) table.now a b → ⊥) → ⊥) (λ words. ((a b : ℕ) → Clashing (L.means list.now) table.now a b → ⊥) × Words (L.means list.now) table.now words) }
{
    // By number: a word is compared with those before it, which an iterator over the words would have lent already.
    let mut words = [0; MAX_ENTRIES];
    for i in 0..list.count() + 1 {
        let word = list.combine(i, table);
        if meets(list, &words[..i], word, list.class(i)) {
            return None;
        }
        words[i] = word;
    }
    Some(words)
}

// Whether one of the first entries, which have these words, has this word and another class.
fn meets<L: FaultList>(list: &L, words: &[u32], word: u32, class: u8) -> bool
    ensures { IsTrue result ↔ ((k : ℕ) × Meets (L.means list.now) words.now word class k) }
{
    words
        .iter()
        .enumerate()
        .any(|(k, other)| *other == word && list.class(k) != class)
}
