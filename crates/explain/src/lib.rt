// From a feedback number and a response, as they are typed, to what is said of them.
#![tactic(auto)]

mod arguments;
mod calls;
mod error;
mod explanation;
mod quotients;
mod spelling;

pub use calls::explain;
pub use error::ExplainError;
pub use spelling::{Polynomial, spell};
