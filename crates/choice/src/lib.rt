// The choice of the shortest feedback that keeps a fault list apart.
#![tactic(auto)]

mod answer;
mod choosing;
mod degrees;
mod finding;
mod trial;

pub use answer::Choice;
pub use choosing::choose;
