// The closed list of refusals: everything that the product can decline, with its number, its layer and its places.
#![tactic(auto)]

mod answers;
mod layer;
mod reason;

pub use layer::Layer;
pub use reason::Refusal;
