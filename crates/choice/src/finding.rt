// The first feedback that keeps a list apart.
ghost use Rattle.std.specs.Prelude.{MatchOption};
ghost use Rattle.apart.specs.Residues.{Residues};
ghost use Rattle.choice.specs.Choosing.{NoneFits, Picks};
ghost use Rattle.choice.specs.Exactness.{NoneServes, ExactChoice};

use crate::answer::Choice;
use crate::degrees::DegreeRange;
use crate::trial::residues_apart;
use faults::{FaultList, MAX_CLOCKS, MAX_ENTRIES};
use gf2::Feedback;

// The feedback of smallest code, among those of these degrees that keep the list apart, and the residue of each entry's error by it.
#[tactic(auto, using(crate::proofs::Exactness::progress))]
pub(crate) fn first_apart<L: FaultList>(
    list: &L,
    degrees: DegreeRange,
) -> Option<(Choice, [u32; MAX_ENTRIES])>
    ensures found { MatchOption result (NoneFits (L.means list.now) degrees.low degrees.high) (λ r. Picks (L.means list.now) degrees.low degrees.high r.0 × Residues r.0.feedback.code (L.means list.now) r.1) }
    ensures exact { MatchOption result (NoneServes (L.means list.now) degrees.low degrees.high) (λ r. ExactChoice (L.means list.now) degrees.low degrees.high r.0) }
{
    let mut table = [0; MAX_CLOCKS];
    let powers = &mut table[..list.clocks()];
    let mut tried = 0;
    for code in degrees.first_code()..degrees.end_code() {
        let Ok(feedback) = Feedback::new(code) else {
            continue;
        };
        tried += 1;
        if let Some(residues) = residues_apart(list, feedback, powers) {
            return Some((Choice { feedback, tried }, residues));
        }
    }
    None
}
