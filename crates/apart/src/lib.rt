// Which feedbacks keep a list apart.
#![tactic(auto)]

mod answers;
mod entry_words;
mod judging;
mod pairs;

pub use answers::Pair;
pub use entry_words::residues;
pub use judging::{equal_errors, verdict};
